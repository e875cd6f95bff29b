//! A node that is used through its bound alone, sets and lists of numbers, exact arithmetic, fuel and steps.
ghost use Rattle.std.specs.Prelude.{◌≡◌, ◌≢◌, ℕ, ◌+◌, ◌<◌, slice_get, IfOk, OnOk, IsTrue, MatchResult, vec_len};
ghost use Rattle.std.specs.Option.{ForSome};
ghost use Rattle.cbl_base.specs.Inputs.{kinds_of};
ghost use Rattle.cbl_base.specs.Sets.{with_members, without_members};
ghost use Rattle.cbl_base.specs.Changes.{AreChanges, after_changes};
ghost use Rattle.cbl_base.specs.NodeLaw.{IsAnswer};

use cbl_base::{
    Change, Fuel, Input, IntSet, NoMemory, NodeFault, NodeRule, NodeValue, Numbers, RunFault,
    Spent, Steps, add, div, mul, rem, sub,
};
use std::alloc::Global;
use std::marker::Brand;
use std::sync::ledger::{Blank, Ledger};
use std::test::Fail;

// How many members a set has.
#[derive(Drop)]
struct Size {
    set: IntSet,
    kept: Input,
    alloc: Global,
}

impl Size {
    fn new(alloc: Global) -> Size {
        Size {
            set: IntSet::new(alloc),
            kept: Input::Int(0),
            alloc,
        }
    }
}

fn edit(set: &mut IntSet, added: &IntSet, removed: &IntSet) -> Result<(), NoMemory>
    ensures { OnOk result (set.new ≡ without_members removed.now (with_members added.now set.old)) }
{
    for v in added.as_slice() {
        set.insert(*v)?;
    }
    for v in removed.as_slice() {
        set.remove(*v);
    }
    Ok(())
}

impl NodeRule for Size {
    ghost use Rattle.std.specs.Prelude.{◌≡◌, pos, [], ◌∷◌, length, Ok, ◌==◌, ◌&&◌, slice_index_or};
    ghost use Rattle.std.proofs.Common.{sym, ◌∙◌};
    ghost use Rattle.cbl_base.specs.Inputs.{all_sets, members_of};
    ghost use Rattle.cbl_base.specs.NodeLaw.{kind_of-value};
    ghost use Rattle.cbl_base.specs.declared.input.Input.TheVariants.{Int, Set};

    ghost rule = { λ _. record {
      takes = λ kinds. (length kinds == 1) && all_sets kinds;
      value = λ inputs. Ok (Int (pos (length (members_of (slice_index_or inputs 0 (Set []))))));
      violation_at = λ _ _. pos 0;
    } };

    ghost ready = { λ s. s.kept ≡ Int (pos (length s.set)) };

    ghost held = { λ s. Set s.set ∷ [] };

    ghost one_kind = { λ _ xs ys x y _ _ ex ey. kind_of-value _ x ex ∙ sym (kind_of-value _ y ey) };

    fn reset(&mut self, inputs: &[Input]) -> Result<(), NoMemory> {
        match &inputs[0] {
            Input::Set(set) => {
                self.set = IntSet::from_slice(self.alloc, set.as_slice())?;
                self.kept = Input::Int(self.set.len() as i64);
                Ok(())
            }
            Input::Int(_) => unreachable!(),
        }
    }

    fn apply(&mut self, changes: &[Change]) -> Result<(), NoMemory> {
        for change in changes {
            match change {
                Change::Set { added, removed, .. } => edit(&mut self.set, added, removed)?,
                Change::Int { .. } => unreachable!(),
            }
        }
        self.kept = Input::Int(self.set.len() as i64);
        Ok(())
    }

    fn probe(&self, changes: &[Change]) -> Result<NodeValue, NodeFault> {
        let mut set = IntSet::from_slice(self.alloc, self.set.as_slice())?;
        for change in changes {
            match change {
                Change::Set { added, removed, .. } => edit(&mut set, added, removed)?,
                Change::Int { .. } => unreachable!(),
            }
        }
        Ok(Input::Int(set.len() as i64))
    }

    fn value(&self) -> Result<&NodeValue, RunFault> {
        Ok(&self.kept)
    }

    fn place_violation(&self, _place: u32) -> i64 {
        0
    }
}

// A few nodes of one type. It knows of them what the bound says.
#[derive(Drop)]
struct Nodes<N: NodeRule> {
    nodes: Vec<N>,
}

impl<N: NodeRule> Nodes<N> {
    fn reset_at(&mut self, at: usize, inputs: &[Input]) -> Result<(), NoMemory>
        requires within { at < vec_len self.old.nodes }
        requires takes { ForSome (slice_get self.old.nodes.items at) (λ n.
            IsTrue ((N.rule n).takes (kinds_of inputs.now))) }
        ensures here { OnOk result (ForSome (slice_get self.new.nodes.items at) (λ n. N.ready n ×
            (N.held n ≡ inputs.now))) }
        ensures len { vec_len self.new.nodes ≡ vec_len self.old.nodes }
        ensures others { (k : ℕ) → k ≢ at →
            slice_get self.new.nodes.items k ≡ slice_get self.old.nodes.items k }
    {
        self.nodes[at].reset(inputs)
    }

    fn apply_at(&mut self, at: usize, changes: &[Change]) -> Result<(), NoMemory>
        requires within { at < vec_len self.old.nodes }
        requires ready { ForSome (slice_get self.old.nodes.items at) (λ n. N.ready n) }
        requires changes { ForSome (slice_get self.old.nodes.items at) (λ n.
            AreChanges (N.held n) changes.now) }
        ensures ready { OnOk result (ForSome (slice_get self.new.nodes.items at) (λ n. N.ready n)) }
        ensures held { OnOk result (ForSome (slice_get self.old.nodes.items at) (λ n.
            ForSome (slice_get self.new.nodes.items at) (λ m.
            N.held m ≡ after_changes (N.held n) changes.now))) }
        ensures rule { ForSome (slice_get self.old.nodes.items at) (λ n.
            ForSome (slice_get self.new.nodes.items at) (λ m. N.rule m ≡ N.rule n)) }
        ensures len { vec_len self.new.nodes ≡ vec_len self.old.nodes }
        ensures others { (k : ℕ) → k ≢ at →
            slice_get self.new.nodes.items k ≡ slice_get self.old.nodes.items k }
    {
        self.nodes[at].apply(changes)
    }

    fn probe_at(&self, at: usize, changes: &[Change]) -> Result<NodeValue, NodeFault>
        requires within { at < vec_len self.now.nodes }
        requires ready { ForSome (slice_get self.now.nodes.items at) (λ n. N.ready n) }
        requires changes { ForSome (slice_get self.now.nodes.items at) (λ n.
            AreChanges (N.held n) changes.now) }
        ensures { ForSome (slice_get self.now.nodes.items at) (λ n.
            IsAnswer ((N.rule n).value (after_changes (N.held n) changes.now)) result) }
    {
        self.nodes[at].probe(changes)
    }

    fn value_at(&self, at: usize) -> Result<&NodeValue, RunFault>
        requires within { at < vec_len self.now.nodes }
        requires ready { ForSome (slice_get self.now.nodes.items at) (λ n. N.ready n) }
        ensures { ForSome (slice_get self.now.nodes.items at) (λ n.
            let value = (N.rule n).value (N.held n) in
            MatchResult result (λ v. value ≡ Ok v.now) (λ fault. value ≡ Err fault)) }
    {
        self.nodes[at].value()
    }
}

fn number(value: &NodeValue) -> i64 {
    match value {
        Input::Int(number) => *number,
        Input::Set(_) => -1,
    }
}

// 1 and 3 in both nodes; in the first 2 and 5 come and 1 goes.
#[test]
fn one_node_changes_and_the_other_stays(rt: HostRuntime) -> Result<(), Fail> {
    let alloc = rt.alloc();
    let inputs = vec![in alloc; Input::Set(IntSet::from_slice(alloc, &[3, 1])?)]?;
    let changes = vec![in alloc;
        Change::Set {
            place: 0,
            added: IntSet::from_slice(alloc, &[5, 2])?,
            removed: IntSet::from_slice(alloc, &[1])?,
        },
    ]?;
    let mut nodes = Nodes {
        nodes: vec![in alloc; Size::new(alloc), Size::new(alloc)]?,
    };
    nodes.reset_at(0, inputs.as_slice())?;
    nodes.reset_at(1, inputs.as_slice())?;
    assert_eq!(rt; number(&nodes.probe_at(0, changes.as_slice())?), 3);
    assert_eq!(rt; number(nodes.value_at(0)?), 2);
    nodes.apply_at(0, changes.as_slice())?;
    assert_eq!(rt; number(nodes.value_at(0)?), 3);
    assert_eq!(rt; number(nodes.value_at(1)?), 2);
    Ok(())
}

#[test]
fn sets_are_made_and_edited(rt: HostRuntime) -> Result<(), Fail> {
    let mut set = IntSet::from_slice(rt.alloc(), &[3, 1, 3])?;
    assert!(rt; set.insert(2)?);
    assert!(rt; !set.insert(2)?);
    assert_eq!(rt; set.as_slice(), [1, 2, 3].as_slice());
    assert_eq!(rt; set.get(1), Some(2));
    assert_eq!(rt; set.get(3), None);
    assert!(rt; set.remove(1));
    assert!(rt; !set.remove(1));
    assert!(rt; set.contains(3) && !set.contains(1));
    assert_eq!(rt; set.len(), 2);
    assert!(rt; IntSet::new(rt.alloc()).is_empty());
    Ok(())
}

#[test]
fn numbers_are_kept(rt: HostRuntime) -> Result<(), Fail> {
    let numbers = Numbers::from_slice(rt.alloc(), &[3, 1, 3])?;
    assert_eq!(rt; numbers.as_slice(), [3, 1, 3].as_slice());
    assert_eq!(rt; numbers.len(), 3);
    assert_eq!(rt; numbers.get(0), Some(3));
    assert_eq!(rt; numbers.get(3), None);
    assert!(rt; !numbers.is_empty());
    Ok(())
}

// Quotients go toward zero, a remainder has the dividend's sign, and each operation is exact to the edge.
#[test]
fn arithmetic_is_exact(rt: HostRuntime) -> Result<(), Fail> {
    let overflow = Err(RunFault::Overflow);
    let zero = Err(RunFault::DivideByZero);
    let rows = [
        (add(i64::MAX, 0), Ok(i64::MAX)),
        (add(i64::MAX, 1), overflow),
        (sub(i64::MIN, 1), overflow),
        (sub(-1, i64::MIN), Ok(i64::MAX)),
        (mul(i64::MIN, -1), overflow),
        (mul(i64::MIN, 1), Ok(i64::MIN)),
        (div(7, -2), Ok(-3)),
        (div(-7, 2), Ok(-3)),
        (div(i64::MIN, -1), overflow),
        (div(i64::MIN, 1), Ok(i64::MIN)),
        (div(0, 0), zero),
        (rem(-7, 2), Ok(-1)),
        (rem(7, -2), Ok(1)),
        (rem(i64::MIN, -1), Ok(0)),
        (rem(1, 0), zero),
    ];
    for (got, want) in rows {
        assert_eq!(rt; got, want);
    }
    Ok(())
}

#[test]
fn fuel_is_spent_to_the_last_unit(rt: HostRuntime) -> Result<(), Fail> {
    let rows = [(5, 5, Ok(()), 0), (5, 6, Err(Spent), 5), (5, 0, Ok(()), 5)];
    for (left, units, want, after) in rows {
        let mut fuel = Fuel { left };
        assert_eq!(rt; fuel.charge(units), want, "{units} of {left}");
        assert_eq!(rt; fuel.left, after, "{units} of {left}");
    }
    Ok(())
}

fn walk<L: Ledger>(steps: &mut Steps<L>)
    ensures { steps.new ≡ steps.old + 2 }
{
    steps.tick();
    steps.tick();
}

fn walked<L: Ledger>(blank: Blank)
    requires name { blank.name ≡ L.name }
    requires parts { blank.parts ≡ L.parts }
    requires some { 0 < L.parts }
{
    let mut steps = Steps::<L>::new(blank);
    walk(&mut steps);
}

#[test]
fn steps_are_counted(_rt: HostRuntime) {
    walked::<Brand>(Blank::new(1));
}
