//! The constraint `rest`: no day shift right behind a night shift.
ghost use Rattle.std.specs.Prelude.{◌≡◌, ◌<◌, ◌≤◌, ◌^◌, pos, length, codes, IfOk, OnOk};
ghost use Rattle.user_constraint.specs.Moves.{AreMoves, after_moves};
ghost use Rattle.own_constraint.specs.Rest.{rest, capped, shift, short_rest, short_rests, short_rests_at};

use cbl_base::NoMemory;
use std::alloc::Global;
use user_constraint::UserConstraint;

const OFF: i64 = 0;

const DAY: i64 = 1;

const NIGHT: i64 = 2;

/// The most violations that a constraint may tell.
const MOST: usize = 1 << 40;

/// The shifts of one person, one a day, and their short rests.
#[derive(Drop)]
pub(crate) struct Rest {
    shifts: Vec<i64>,
    violations: i64,
    alloc: Global,
}

impl Rest {
    /// The constraint over no days.
    pub(crate) fn new(alloc: Global) -> Rest
        ensures rule { ⟦<Rest as UserConstraint>⟧.user_rule result ≡ rest }
        ensures name { ⟦<Rest as UserConstraint>⟧.user_name result ≡ codes "rest" }
    {
        Rest {
            shifts: Vec::new(alloc),
            violations: 0,
            alloc,
        }
    }
}

impl UserConstraint for Rest {
    ghost use Rattle.std.specs.Prelude.{◌≡◌, pos, codes};
    ghost use Rattle.own_constraint.specs.Rest.{rest};

    ghost user_rule = { λ _. rest };

    ghost user_name = { λ _. codes "rest" };

    ghost usable = { λ s. s.violations ≡ pos (rest.viol_of s.shifts.items) };

    ghost held = { λ s. s.shifts.items };

    fn name(&self) -> &str {
        "rest"
    }

    fn reset(&mut self, values: &[i64]) -> Result<(), NoMemory> {
        self.violations = violations_of(values);
        self.shifts.clear();
        self.shifts.extend_from_slice(values)?;
        Ok(())
    }

    fn assign(&mut self, place: usize, value: i64) -> Result<(), NoMemory> {
        self.shifts[place] = value;
        self.violations = violations_of(self.shifts.as_slice());
        Ok(())
    }

    fn violations(&self) -> i64 {
        self.violations
    }

    fn probe(&self, moves: &[(usize, i64)]) -> Result<i64, NoMemory> {
        let mut shifts = Vec::from_slice(self.alloc, self.shifts.as_slice())?;
        make_moves(&mut shifts, moves);
        Ok(violations_of(shifts.as_slice()))
    }

    fn place_violation(&self, place: usize) -> i64 {
        violations_at(self.shifts.as_slice(), place)
    }
}

/// The short rests of the shifts.
fn violations_of(shifts: &[i64]) -> i64
    ensures { result ≡ pos (rest.viol_of shifts.now) }
{
    let mut count = 0;
    for day in 1..shifts.len() {
        count += short_rest(shifts[day - 1], shifts[day]);
    }
    count.min(MOST) as i64
}

/// The short rests that a day is part of.
fn violations_at(shifts: &[i64], day: usize) -> i64
    requires { day < length shifts.now }
    ensures { result ≡ pos (rest.viol_at shifts.now day) }
{
    let behind = short_rest(shifts[day], shift(shifts, day + 1));
    if day == 0 {
        return behind as i64;
    }
    let before = short_rest(shifts[day - 1], shifts[day]);
    (before + behind) as i64
}

/// 1 where a night shift and then a day shift follow each other, else 0.
fn short_rest(before: i64, after: i64) -> usize
    ensures rule { result ≡ short_rest before after }
    ensures one { result ≤ 1 }
{
    if before == NIGHT && after == DAY {
        1
    } else {
        0
    }
}

/// The shift of a day, off outside the list.
fn shift(shifts: &[i64], day: usize) -> i64
    ensures { result ≡ shift shifts.now day }
{
    match shifts.get(day) {
        Some(shift) => *shift,
        None => OFF,
    }
}

/// Makes the shift of each move's day its new one.
fn make_moves(shifts: &mut Vec<i64>, moves: &[(usize, i64)])
    requires { AreMoves (length shifts.old.items) moves.now }
    ensures { shifts.new.items ≡ after_moves shifts.old.items moves.now }
{
    for change in moves {
        shifts[change.0] = change.1;
    }
}
