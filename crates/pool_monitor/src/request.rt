//! What is asked of a desk.
ghost use Rattle.std.specs.Prelude.{◌≡◌};
ghost use Rattle.pool_monitor.specs.Pool.{pool_of};

use best_monitor::Request;
use cbl_base::Numbers;

/// What is asked of the pools. They are numbered from 0 in the order in which they were declared.
#[derive(Drop, Debug)]
pub enum PoolRequest {
    /// A value was reached, by this list.
    Add {
        pool: u32,
        value: i64,
        list: Numbers,
    },
    /// How many solutions are kept?
    Size {
        pool: u32,
    },
    /// Which value has the solution of this rank, counted from 1?
    Rank {
        pool: u32,
        rank: i64,
    },
    /// Which list has the solution of this rank, if it has at most `room` numbers?
    Take {
        pool: u32,
        rank: i64,
        room: u64,
    },
}

/// What is asked of a desk: of its monitors or of its pools.
#[derive(Drop, Debug)]
pub enum DeskRequest {
    Best(Request),
    Pool(PoolRequest),
}

impl PoolRequest {
    /// The number of the pool that is asked.
    pub fn pool(&self) -> u32
        ensures { result ≡ pool_of self.now }
    {
        match self {
            PoolRequest::Add { pool, .. } => *pool,
            PoolRequest::Size { pool } => *pool,
            PoolRequest::Rank { pool, .. } => *pool,
            PoolRequest::Take { pool, .. } => *pool,
        }
    }
}
