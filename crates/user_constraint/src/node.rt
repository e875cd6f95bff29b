//! The node that wraps a user's constraint.
ghost use Rattle.std.specs.Prelude.{◌≡◌, pos, true, length, IfOk};
ghost use Rattle.node_base.specs.NumberChanges.{AreNumberChanges, after_number_changes};
ghost use Rattle.user_constraint.specs.KeptRule.{is_kept, kept, rule_of_kept};
ghost use Rattle.user_constraint.specs.Moves.{AreToKept, move_of, moves_of};

use crate::local::LocalConstraint;
use cbl_base::{NoMemory, NodeFault, RunFault};
use node_base::{NumberChange, NumberNode};
use std::alloc::Global;

/// A user's constraint, as a node over numbers: its value is its violations, and no list of numbers is
/// without one. Its rule is what is kept of the constraint's: of a list of 64-bit numbers it tells the same, and a node
/// holds no other.
#[derive(Drop)]
pub struct UserNode<U: LocalConstraint> {
    user: U,
    alloc: Global,
}

impl<U: LocalConstraint> UserNode<U> {
    /// The node of that constraint.
    pub fn new(alloc: Global, user: U) -> UserNode<U>
        ensures rule { ⟦<UserNode<U> as NumberNode>⟧.number_rule result ≡
            rule_of_kept (kept (U.user_rule user)) }
    {
        UserNode { user, alloc }
    }

    /// The violations of the numbers as these changes would make them. One or two changes take no memory on the way.
    fn ask(&self, changes: &[NumberChange]) -> Result<i64, NoMemory>
        requires usable { U.usable self.now.user }
        requires changes { AreNumberChanges (U.held self.now.user) changes.now }
        ensures { IfOk result (λ violations. violations ≡ pos
            ((U.user_rule self.now.user).viol_of
            (after_number_changes (U.held self.now.user) changes.now))) }
    {
        match changes.len() {
            1 => {
                let only = [move_of(&changes[0])];
                self.user.probe(only.as_slice())
            }
            2 => {
                let both = [move_of(&changes[0]), move_of(&changes[1])];
                self.user.probe(both.as_slice())
            }
            _ => {
                let all = moves_of(self.alloc, changes)?;
                self.user.probe(all.as_slice())
            }
        }
    }
}

impl<U: LocalConstraint> NumberNode for UserNode<U> {
    ghost use Rattle.std.specs.Prelude.{◌≡◌, true};
    ghost use Rattle.user_constraint.specs.KeptRule.{is_kept, kept, rule_of_kept};

    ghost number_rule = { λ s. rule_of_kept (kept (U.user_rule s.user)) };

    ghost settled = { λ s. U.usable s.user × (is_kept (U.held s.user) ≡ true) };

    ghost held_numbers = { λ s. U.held s.user };

    fn reset(&mut self, numbers: &[i64]) -> Result<(), NoMemory> {
        see_numbers(numbers);
        self.user.reset(numbers)
    }

    fn set(&mut self, change: NumberChange) -> Result<(), NoMemory> {
        self.user.assign(change.place, change.new)
    }

    fn probe(&self, changes: &[NumberChange]) -> Result<i64, NodeFault> {
        see_changes(changes);
        Ok(self.ask(changes)?)
    }

    fn value(&self) -> Result<i64, RunFault> {
        Ok(self.user.violations())
    }

    fn place_violation(&self, place: usize) -> i64 {
        self.user.place_violation(place)
    }
}

/// A list of 64-bit numbers is one of which a kept rule tells.
fn see_numbers(numbers: &[i64])
    ensures { is_kept numbers.now ≡ true }
{
    for place in 0..numbers.len() {
        let _number = numbers[place];
    }
}

/// Changes are to 64-bit numbers.
fn see_changes(changes: &[NumberChange])
    ensures { AreToKept changes.now }
{
    for place in 0..changes.len() {
        let _number = changes[place].new;
    }
}

/// The place of a change and its new number.
fn move_of(change: &NumberChange) -> (usize, i64)
    ensures { result ≡ move_of change.now }
{
    (change.place, change.new)
}

/// The places of changes and their new numbers.
fn moves_of(alloc: Global, changes: &[NumberChange]) -> Result<Vec<(usize, i64)>, NoMemory>
    ensures { IfOk result (λ all. all.items ≡ moves_of changes.now) }
{
    let mut all = Vec::with_capacity(alloc, changes.len())?;
    for change in changes {
        all.push(move_of(change))?;
    }
    Ok(all)
}
