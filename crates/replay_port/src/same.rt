//! Whether two requests are the same.
ghost use Rattle.std.specs.Prelude.{◌≡◌};
ghost use Rattle.std.specs.Bool.{Decides};
ghost use Rattle.best_monitor.specs.declared.request.Request.TheVariants.{Report, Copy};
ghost use Rattle.pool_monitor.specs.declared.request.PoolRequest.TheVariants.{Add, Rank, Take};

use best_monitor::Request;
use cbl_base::Numbers;
use pool_monitor::{DeskRequest, PoolRequest};

/// Whether these are the same request.
pub(crate) fn is_same(one: &DeskRequest, other: &DeskRequest) -> bool
    ensures { Decides result (one.now ≡ other.now) }
{
    match (one, other) {
        (DeskRequest::Best(one), DeskRequest::Best(other)) => is_same_request(one, other),
        (DeskRequest::Pool(one), DeskRequest::Pool(other)) => is_same_pool_request(one, other),
        _ => false,
    }
}

fn is_same_request(one: &Request, other: &Request) -> bool
    ensures { Decides result (one.now ≡ other.now) }
{
    match one {
        Request::Report {
            monitor,
            value,
            second,
            list,
        } => is_report(other, *monitor, *value, *second, list.as_slice()),
        Request::Value { monitor } => {
            matches!(other, Request::Value { monitor: other } if other == monitor)
        }
        Request::Second { monitor } => {
            matches!(other, Request::Second { monitor: other } if other == monitor)
        }
        Request::Has { monitor } => {
            matches!(other, Request::Has { monitor: other } if other == monitor)
        }
        Request::Copy { monitor, room } => is_copy(other, *monitor, *room),
        Request::Stop { monitor } => {
            matches!(other, Request::Stop { monitor: other } if other == monitor)
        }
        Request::Stopped { monitor } => {
            matches!(other, Request::Stopped { monitor: other } if other == monitor)
        }
    }
}

fn is_report(request: &Request, of: u32, first: i64, second: i64, numbers: &[i64]) -> bool
    ensures { Decides result (request.now ≡ Report of first second numbers.now) }
{
    match request {
        Request::Report {
            monitor,
            value,
            second: other,
            list,
        } => {
            *monitor == of && *value == first && *other == second && is_same_list(list, numbers)
        }
        _ => false,
    }
}

fn is_copy(request: &Request, of: u32, wanted: u64) -> bool
    ensures { Decides result (request.now ≡ Copy of wanted) }
{
    match request {
        Request::Copy { monitor, room } => *monitor == of && *room == wanted,
        _ => false,
    }
}

fn is_same_pool_request(one: &PoolRequest, other: &PoolRequest) -> bool
    ensures { Decides result (one.now ≡ other.now) }
{
    match one {
        PoolRequest::Add { pool, value, list } => is_add(other, *pool, *value, list.as_slice()),
        PoolRequest::Size { pool } => {
            matches!(other, PoolRequest::Size { pool: other } if other == pool)
        }
        PoolRequest::Rank { pool, rank } => is_rank(other, *pool, *rank),
        PoolRequest::Take { pool, rank, room } => is_take(other, *pool, *rank, *room),
    }
}

fn is_add(request: &PoolRequest, of: u32, reached: i64, numbers: &[i64]) -> bool
    ensures { Decides result (request.now ≡ Add of reached numbers.now) }
{
    match request {
        PoolRequest::Add { pool, value, list } => {
            *pool == of && *value == reached && is_same_list(list, numbers)
        }
        _ => false,
    }
}

fn is_rank(request: &PoolRequest, of: u32, wanted: i64) -> bool
    ensures { Decides result (request.now ≡ Rank of wanted) }
{
    match request {
        PoolRequest::Rank { pool, rank } => *pool == of && *rank == wanted,
        _ => false,
    }
}

fn is_take(request: &PoolRequest, of: u32, wanted: i64, most: u64) -> bool
    ensures { Decides result (request.now ≡ Take of wanted most) }
{
    match request {
        PoolRequest::Take { pool, rank, room } => {
            *pool == of && *rank == wanted && *room == most
        }
        _ => false,
    }
}

fn is_same_list(one: &Numbers, other: &[i64]) -> bool
    ensures { Decides result (one.now ≡ other.now) }
{
    one.as_slice() == other
}
