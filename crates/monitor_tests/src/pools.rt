//! What a desk's pools answer, and what a desk's journal keeps.
ghost use Rattle.std.specs.Prelude.{◌≡◌, ◌≤◌, ◌<◌, length, IfOk, OnOk};
ghost use Rattle.pool_monitor.specs.Pool.{pool_of};
ghost use Rattle.pool_monitor.specs.Desk.{IsDeclared};

use crate::answers::{Answer, answer_of};
use best_monitor::{Reply, Request};
use best_turn::{Entry, Replays};
use cbl_base::{NoMemory, Numbers};
use pool_monitor::{Desk, DeskRequest, Entries, Journal, LoopHistory, PoolRequest};
use std::alloc::Global;
use std::test::*;

fn desk_of_one(alloc: Global, most: u32) -> Result<Desk, NoMemory>
    requires { (1 ≤ most) × (most ≤ 1024) }
    ensures { IfOk result (λ d. (length d.board ≡ 0) × (length d.pools ≡ 1)) }
{
    let mut desk = Desk::new(alloc);
    desk.declare_pool(most)?;
    Ok(desk)
}

fn add(alloc: Global, value: i64, list: &[i64]) -> Result<PoolRequest, NoMemory>
    ensures { IfOk result (λ q. pool_of q ≡ 0) }
{
    Ok(PoolRequest::Add {
        pool: 0,
        value,
        list: Numbers::from_slice(alloc, list)?,
    })
}

fn size_of(desk: &Desk) -> Result<Answer, NoMemory>
    requires { length desk.now.pools ≡ 1 }
{
    let request = DeskRequest::Pool(PoolRequest::Size { pool: 0 });
    Ok(answer_of(desk.reply(&request)?))
}

fn value_at(desk: &Desk, rank: i64) -> Result<Answer, NoMemory>
    requires { length desk.now.pools ≡ 1 }
{
    let request = DeskRequest::Pool(PoolRequest::Rank { pool: 0, rank });
    Ok(answer_of(desk.reply(&request)?))
}

fn list_at(desk: &Desk, rank: i64, room: u64) -> Result<Answer, NoMemory>
    requires { length desk.now.pools ≡ 1 }
{
    let request = DeskRequest::Pool(PoolRequest::Take {
        pool: 0,
        rank,
        room,
    });
    Ok(answer_of(desk.reply(&request)?))
}

// A value that is added, with a number as its list, and whether it is kept.
struct AddRow {
    value: i64,
    number: i64,
    is_kept: bool,
}

static ADDED: [AddRow; 4] = [
    AddRow {
        value: 4,
        number: 1,
        is_kept: true,
    },
    AddRow {
        value: 1,
        number: 2,
        is_kept: true,
    },
    AddRow {
        value: 0,
        number: 3,
        is_kept: true,
    },
    AddRow {
        value: 1,
        number: 4,
        is_kept: false,
    },
];

// A rank, and its value and the number of its list, if there is a solution of this rank.
struct RankRow {
    rank: i64,
    kept: Option<(i64, i64)>,
}

static RANKED: [RankRow; 6] = [
    RankRow {
        rank: i64::MIN,
        kept: None,
    },
    RankRow {
        rank: 0,
        kept: None,
    },
    RankRow {
        rank: 1,
        kept: Some((0, 3)),
    },
    RankRow {
        rank: 2,
        kept: Some((1, 2)),
    },
    RankRow {
        rank: 3,
        kept: None,
    },
    RankRow {
        rank: i64::MAX,
        kept: None,
    },
];

// Adds the value, and tells whether the desk's reply and its step both say what they should.
fn is_added(alloc: Global, desk: &mut Desk, row: &AddRow) -> Result<bool, NoMemory>
    requires { length desk.old.pools ≡ 1 }
    ensures { OnOk result (length desk.new.pools ≡ 1) }
{
    let request = DeskRequest::Pool(add(alloc, row.value, &[row.number])?);
    let told = answer_of(desk.reply(&request)?);
    let done = answer_of(desk.step(&request)?);
    Ok(told == Answer::Truth(row.is_kept) && done == told)
}

// The value at a rank, its list where there is room for it, and its list where there is none.
fn answers_of(row: &RankRow) -> (Answer, Answer, Answer) {
    match row.kept {
        None => (Answer::Missing, Answer::Missing, Answer::Missing),
        Some((value, number)) => (
            Answer::Number(value),
            Answer::List(1, Some(number)),
            Answer::Long(1),
        ),
    }
}

// Whether the desk answers so at the rank.
fn is_ranked(desk: &Desk, row: &RankRow) -> Result<bool, NoMemory>
    requires { length desk.now.pools ≡ 1 }
{
    let (value, list, long) = answers_of(row);
    let found = value_at(desk, row.rank)?;
    let copied = list_at(desk, row.rank, 1)?;
    let refused = list_at(desk, row.rank, 0)?;
    Ok(found == value && copied == list && refused == long)
}

#[test]
fn a_pool_of_two_keeps_the_least(rt: HostRuntime) -> Result<(), Fail> {
    let mut desk = desk_of_one(rt.alloc(), 2)?;
    assert_eq!(rt; size_of(&desk)?, Answer::Number(0));
    for row in &ADDED {
        assert!(rt;
            is_added(rt.alloc(), &mut desk, row)?,
            "value {}",
            row.value
        );
    }
    assert_eq!(rt; size_of(&desk)?, Answer::Number(2));
    for row in &RANKED {
        assert!(rt; is_ranked(&desk, row)?, "rank {}", row.rank);
    }
    Ok(())
}

#[test]
fn a_large_pool_keeps_the_least(rt: HostRuntime) -> Result<(), Fail> {
    let mut desk = desk_of_one(rt.alloc(), 1024)?;
    for i in 0..1500i64 {
        let request = DeskRequest::Pool(add(rt.alloc(), 1500i64.saturating_sub(i), &[i])?);
        assert_eq!(rt; answer_of(desk.step(&request)?), Answer::Truth(true));
    }
    let late = DeskRequest::Pool(add(rt.alloc(), 1024, &[])?);
    assert_eq!(rt; answer_of(desk.step(&late)?), Answer::Truth(false));
    assert_eq!(rt; size_of(&desk)?, Answer::Number(1024));
    let rows = [
        (1, Answer::Number(1)),
        (1024, Answer::Number(1024)),
        (1025, Answer::Missing),
    ];
    for (rank, value) in rows {
        assert_eq!(rt; value_at(&desk, rank)?, value, "rank {rank}");
    }
    Ok(())
}

#[test]
fn a_journal_keeps_its_loops(rt: HostRuntime) -> Result<(), Fail> {
    let mut journal = Journal::new(rt.alloc());
    assert!(rt; journal.is_empty());
    let mut entries = Vec::new(rt.alloc());
    entries.push(Entry {
        iteration: 3,
        request: DeskRequest::Best(Request::Has { monitor: 0 }),
        reply: Reply::Truth(false),
    })?;
    journal.push(LoopHistory {
        iterations: 4,
        entries: Entries::from_vec(entries),
    })?;
    assert_eq!(rt; journal.len(), 1);
    let Some(history) = journal.get(0) else {
        return Err(Fail::new("no loop"));
    };
    assert_eq!(rt; (history.iterations, history.entries.len()), (4, 1));
    assert!(rt; journal.get(1).is_none());
    Ok(())
}
