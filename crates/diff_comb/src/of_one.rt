//! What is made of one member.
ghost use Rattle.std.specs.Prelude.{◌≡◌, ◌∷◌, [], Ok};
ghost use Rattle.cbl_base.specs.NumberRule.{rule_of_numbers};
ghost use Rattle.cbl_violations.specs.Violations.NotHeld.{not_held};
ghost use Rattle.cbl_violations.specs.Violations.Repeat.{repeat};
ghost use Rattle.diff_comb.specs.OneMember.{made};

use cbl_base::{NoMemory, NodeFault, RunFault};
use node_base::{NumberChange, NumberNode};

/// What is made of the member.
#[derive(Clone, Copy, PartialEq, Eq, Debug)]
enum Making {
    NotHeld,
    Repeat,
}

/// The node of `NotHeld`, or the repeat: it takes one number.
#[derive(Drop)]
pub struct OfOne {
    making: Making,
    members: [i64; 1],
}

impl OfOne {
    /// The node of `NotHeld`: 1 where the member has no violations, 0 else.
    pub fn not_held() -> OfOne
        ensures { ⟦<OfOne as NumberNode>⟧.number_rule result ≡ not_held }
    {
        OfOne {
            making: Making::NotHeld,
            members: [0],
        }
    }

    /// The node that repeats its number.
    pub fn repeat() -> OfOne
        ensures { rule_of_numbers (⟦<OfOne as NumberNode>⟧.number_rule result) ≡ repeat }
    {
        OfOne {
            making: Making::Repeat,
            members: [0],
        }
    }
}

impl NumberNode for OfOne {
    ghost use Rattle.diff_comb.specs.OneMember.{one_member};

    ghost number_rule = { λ s. one_member s.making };

    ghost settled = { λ _. Unit {0} };

    ghost held_numbers = { λ s. s.members };

    fn reset(&mut self, numbers: &[i64]) -> Result<(), NoMemory> {
        self.members = [numbers[0]];
        Ok(())
    }

    fn set(&mut self, change: NumberChange) -> Result<(), NoMemory> {
        self.members[change.place] = change.new;
        Ok(())
    }

    fn probe(&self, changes: &[NumberChange]) -> Result<i64, NodeFault> {
        let mut members = self.members;
        for change in changes {
            members[change.place] = change.new;
        }
        Ok(made(self.making, members[0]))
    }

    fn value(&self) -> Result<i64, RunFault> {
        Ok(made(self.making, self.members[0]))
    }

    fn place_violation(&self, _place: usize) -> i64 {
        0
    }
}

/// What is made of this member.
fn made(making: Making, member: i64) -> i64
    ensures { made making (member ∷ []) ≡ Ok result }
{
    match making {
        Making::NotHeld => i64::from(member == 0),
        Making::Repeat => member,
    }
}
