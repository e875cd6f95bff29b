//! Relations of two numbers.
ghost use Rattle.std.specs.Prelude.{◌≡◌, ◌<◌, ◌∷◌, [], IsOk};
ghost use Rattle.cbl_violations.specs.Violations.Relations.{of_two, viol_eq, viol_ne, viol_le, viol_lt};
ghost use Rattle.diff_comb.specs.Related.{violations_of};

use cbl_base::{NoMemory, NodeFault, RunFault};
use cbl_violations::{eq_violations, le_violations, lt_violations, ne_violations};
use node_base::{NumberChange, NumberNode, probe_answer};

/// Which relation is to hold.
#[derive(Clone, Copy, PartialEq, Eq, Debug)]
enum Comparing {
    Eq,
    Ne,
    Le,
    Lt,
}

/// The node of `ViolEq`, `ViolNe`, `ViolLe` or `ViolLt`: it takes the two sides.
#[derive(Drop)]
pub struct Relation {
    comparing: Comparing,
    sides: [i64; 2],
}

impl Relation {
    /// The node of `ViolEq`: how much the sides differ.
    pub fn eq() -> Relation
        ensures { ⟦<Relation as NumberNode>⟧.number_rule result ≡ viol_eq }
    {
        Relation::new(Comparing::Eq)
    }

    /// The node of `ViolNe`: 1 where the sides are equal, 0 else.
    pub fn ne() -> Relation
        ensures { ⟦<Relation as NumberNode>⟧.number_rule result ≡ viol_ne }
    {
        Relation::new(Comparing::Ne)
    }

    /// The node of `ViolLe`: how much the first side is above the second.
    pub fn le() -> Relation
        ensures { ⟦<Relation as NumberNode>⟧.number_rule result ≡ viol_le }
    {
        Relation::new(Comparing::Le)
    }

    /// The node of `ViolLt`: how much the first side is above the number before the second.
    pub fn lt() -> Relation
        ensures { ⟦<Relation as NumberNode>⟧.number_rule result ≡ viol_lt }
    {
        Relation::new(Comparing::Lt)
    }

    fn new(comparing: Comparing) -> Relation
        ensures { result.comparing ≡ comparing }
    {
        Relation {
            comparing,
            sides: [0, 0],
        }
    }
}

impl NumberNode for Relation {
    ghost use Rattle.diff_comb.specs.Related.{related};

    ghost number_rule = { λ s. related s.comparing };

    ghost settled = { λ _. Unit {0} };

    ghost held_numbers = { λ s. s.sides };

    fn reset(&mut self, numbers: &[i64]) -> Result<(), NoMemory> {
        self.sides = [numbers[0], numbers[1]];
        Ok(())
    }

    fn set(&mut self, change: NumberChange) -> Result<(), NoMemory> {
        self.sides[change.place] = change.new;
        Ok(())
    }

    fn probe(&self, changes: &[NumberChange]) -> Result<i64, NodeFault> {
        let mut sides = self.sides;
        for change in changes {
            sides[change.place] = change.new;
        }
        probe_answer(violations(self.comparing, sides[0], sides[1]))
    }

    fn value(&self) -> Result<i64, RunFault> {
        violations(self.comparing, self.sides[0], self.sides[1])
    }

    fn place_violation(&self, _place: usize) -> i64 {
        violations(self.comparing, self.sides[0], self.sides[1]).unwrap_or(0)
    }
}

/// The relation's violations of two sides, or its fault.
fn violations(comparing: Comparing, left: i64, right: i64) -> Result<i64, RunFault>
    ensures { result ≡ of_two (violations_of comparing) (left ∷ right ∷ []) }
{
    let sides = [left, right];
    match comparing {
        Comparing::Eq => eq_violations(&sides),
        Comparing::Ne => ne_violations(&sides),
        Comparing::Le => le_violations(&sides),
        Comparing::Lt => lt_violations(&sides),
    }
}
