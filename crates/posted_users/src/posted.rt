//! A user's constraint that was posted.
ghost use Rattle.std.specs.Prelude.{◌≡◌, ◌<◌, length, pos, replicate, IfOk, Ok, OnOk};
ghost use Rattle.cbl_base.specs.Inputs.{as_inputs};
ghost use Rattle.cbl_base.specs.declared.input.Input.TheVariants.{Int};
ghost use Rattle.posted_users.specs.KeptOf.{IsUserRule, kept_of};
ghost use Rattle.posted_users.specs.KeptRule.{viol_at, viol_of};

use crate::changes::changes_between;
use cbl_base::{Input, NoMemory, NodeFault, NodeRule, NodeValue};
use std::alloc::Global;
use std::marker::Model;

/// The node of a user's constraint that was posted, with a copy of the numbers that it holds, or is to hold first.
#[derive(Drop)]
pub struct PostedUser<N: NodeRule> {
    pub(crate) alloc: Global,
    pub(crate) node: N,
    pub(crate) numbers: Vec<i64>,
    /// It holds the numbers: it was reset, and found memory ever since.
    pub(crate) ready: bool,
}

impl<N: NodeRule> Model for PostedUser<N> {
    ghost use Rattle.std.specs.Prelude.{◌≡◌, true};
    ghost use Rattle.cbl_base.specs.Inputs.{as_inputs};
    ghost use Rattle.posted_users.specs.KeptOf.{IsUserRule, kept_of};
    ghost use Rattle.posted_users.specs.PostedState.{PostedState, posted_code};

    ghost Value = { PostedState };

    ghost coded = { posted_code };

    ghost view = { λ a. record { held = a.numbers.items; rule = kept_of (N.rule a.node) } };

    ghost invariant = { λ a. IsUserRule (N.rule a.node) × (a.ready ≡ true →
        (N.ready a.node × (N.held a.node ≡ as_inputs a.numbers.items))) };
}

/// So many zeros.
pub fn zeros(alloc: Global, count: usize) -> Result<Vec<i64>, NoMemory>
    ensures { IfOk result (λ v. v.items ≡ replicate count (pos 0)) }
{
    Ok(vec![in alloc; 0; count]?)
}

/// Numbers as inputs.
fn inputs_of(alloc: Global, numbers: &[i64]) -> Result<Vec<Input>, NoMemory>
    ensures { IfOk result (λ inputs. inputs.items ≡ as_inputs numbers.now) }
{
    let mut inputs = Vec::with_capacity(alloc, numbers.len())?;
    for number in numbers {
        inputs.push(Input::Int(*number))?;
    }
    Ok(inputs)
}

/// The number that a node told.
fn number_told(answer: Result<NodeValue, NodeFault>) -> Result<i64, NoMemory>
    ensures { IfOk result (λ v. answer ≡ Ok (Int v)) }
{
    match answer {
        Ok(Input::Int(number)) => Ok(number),
        // the node of a user's constraint tells numbers, and never fails
        Ok(Input::Set(_)) | Err(_) => Err(NoMemory),
    }
}

impl<N: NodeRule> PostedUser<N> {
    /// The node of a user's constraint, which is to hold these numbers once it is begun.
    pub fn of(alloc: Global, node: N, numbers: Vec<i64>) -> PostedUser<N>
        requires { IsUserRule (N.rule node) }
        ensures held { result.held ≡ numbers.items }
        ensures rule { result.rule ≡ kept_of (N.rule node) }
    {
        PostedUser {
            alloc,
            node,
            numbers,
            ready: false,
        }
    }

    /// Resets it to its numbers. Before that, and after `NoMemory`, it tells no violations.
    pub fn begin(&mut self) -> Result<(), NoMemory>
        ensures { self.new ≡ self.old }
    {
        self.ready = false;
        let inputs = inputs_of(self.alloc, &self.numbers)?;
        self.node.reset(&inputs)?;
        self.ready = true;
        Ok(())
    }

    /// Holds another list with a number for each place, by one change for each place at which it differs from what is
    /// held. After `NoMemory`, which also comes for a list of another length, it tells no violations any more.
    pub fn hold(&mut self, list: &[i64]) -> Result<(), NoMemory>
        ensures held { OnOk result (self.new.held ≡ list.now) }
        ensures rule { self.new.rule ≡ self.old.rule }
    {
        let was_ready = self.ready;
        self.ready = false;
        if !was_ready || list.len() != self.numbers.len() {
            return Err(NoMemory);
        }
        let changes = changes_between(self.alloc, &self.numbers, list)?;
        self.node.apply(&changes)?;
        self.numbers.copy_from_slice(list);
        self.ready = true;
        Ok(())
    }

    /// The violations of a list with a number for each place, by one call, which is given all places at which it differs
    /// from what is held. `NoMemory` also for a list of another length, and where it isn't ready.
    pub fn value(&self, list: &[i64]) -> Result<i64, NoMemory>
        ensures { IfOk result (λ v. v ≡ pos (viol_of self.now.rule list.now)) }
    {
        if !self.ready || self.numbers.len() != list.len() {
            return Err(NoMemory);
        }
        let changes = changes_between(self.alloc, &self.numbers, list)?;
        number_told(self.node.probe(&changes))
    }

    /// The violation at a place of the list that is held. `NoMemory` also for another list, and where it isn't ready.
    pub fn violation_at(&self, list: &[i64], place: usize) -> Result<i64, NoMemory>
        requires { place < length list.now }
        ensures { IfOk result (λ v. v ≡ pos (viol_at self.now.rule list.now place)) }
    {
        let Ok(at) = u32::try_from(place) else {
            return Err(NoMemory);
        };
        if !self.ready || self.numbers.as_slice() != list {
            return Err(NoMemory);
        }
        Ok(self.node.place_violation(at))
    }
}
