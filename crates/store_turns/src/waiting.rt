//! The nodes that wait for their turn.
ghost use Rattle.std.specs.Prelude.{◌≡◌, ◌+◌, ◌<◌, [], None, Some, IsSome, IfSome, OnOk, MatchOption, MatchBool, length, option_copied};
ghost use Rattle.std.specs.BTreeMap.{get};
ghost use Rattle.cbl_base.specs.declared.input.Input.TheVariants.{Int};
ghost use Rattle.store_turns.specs.Telling.{change_to};
ghost use Rattle.store_turns.specs.Waits.{waits, taken_of, changes_of, turn_cmp, look, listed, turn_in, far_at, NotAfter, IsBefore, IsLeast, NothingWaits, WaitsFor, Gets, IsTaken, IsFarFirst};

use crate::short_list::{ShortList, add_to, changes_in, is_before};
use cbl_base::{Change, NoMemory, Steps};
use std::alloc::Global;
use std::collections::BTreeMap;
use std::mem;
use std::sync::ledger::Ledger;

/// Whose turn it is: a node of a layer.
#[derive(Clone, Copy, Debug, PartialEq, Eq, PartialOrd, Ord)]
pub struct Turn {
    pub layer: u32,
    pub id: u32,
}

/// What waits for a node: changes of its inputs, or that one of these has no value.
#[derive(Drop, Debug)]
pub enum Pending {
    Changed(Vec<Change>),
    Below,
}

/// How many nodes at most wait in the short list.
const FEW: usize = 16;

/// The nodes that wait, by layer and then by id. Each call of them is a step. The first few stand in a short
/// list, in no order, and those for which it has no room in a map. What waited last for a node stays until
/// something else waits, and the memory of it serves again.
#[derive(Drop)]
pub struct Waiting {
    near: ShortList,
    far: BTreeMap<Turn, Pending>,
    /// What waited for the node of the map that was taken last.
    out: Pending,
    /// Whether the node that was taken last was one of the map.
    is_far: bool,
    spare: Vec<Vec<Change>>,
    alloc: Global,
}

impl Waiting {
    /// Nothing waits.
    pub fn new(alloc: Global) -> Waiting
        ensures { NothingWaits result }
    {
        Waiting {
            near: ShortList::new(alloc),
            far: BTreeMap::new(alloc),
            out: Pending::Below,
            is_far: false,
            spare: Vec::new(alloc),
            alloc,
        }
    }

    /// Nothing waits from now on.
    pub fn clear(&mut self)
        ensures { NothingWaits self.new }
    {
        self.near.clear();
        self.far.clear();
    }

    /// Where what waits takes its memory.
    pub fn alloc(&self) -> Global {
        self.alloc
    }

    /// One more change of an input waits for the node. Two steps.
    pub fn push<L: Ledger>(
        &mut self,
        turn: Turn,
        change: Change,
        steps: &mut Steps<L>,
    ) -> Result<(), NoMemory>
        ensures waiting { OnOk result (Gets turn change self.old self.new) }
        ensures steps { steps.new ≡ steps.old + 2 }
    {
        steps.tick();
        steps.tick();
        match self.near.place_of(turn) {
            Some(place) => self.near.add(place, change),
            None => self.push_later(turn, change),
        }
    }

    /// The same, of the change at a place of its inputs from an old number to a new one.
    pub fn push_number<L: Ledger>(
        &mut self,
        turn: Turn,
        place: u32,
        old: &i64,
        new: &i64,
        steps: &mut Steps<L>,
    ) -> Result<(), NoMemory>
        ensures waiting { OnOk result (Gets turn
            (change_to place (Int old.now) (Int new.now)) self.old self.new) }
        ensures steps { steps.new ≡ steps.old + 2 }
    {
        steps.tick();
        steps.tick();
        match self.near.place_of(turn) {
            Some(at) => self.near.add_number(at, place, old, new),
            None => self.push_number_later(turn, place, old, new),
        }
    }

    /// An input of the node has no value. One step.
    pub fn block<L: Ledger>(&mut self, turn: Turn, steps: &mut Steps<L>) -> Result<(), NoMemory>
        ensures waiting { OnOk result (WaitsFor turn (Some None) self.old self.new) }
        ensures steps { steps.new ≡ steps.old + 1 }
    {
        steps.tick();
        match self.near.place_of(turn) {
            Some(place) => {
                let before = self.near.block(place);
                keep(&mut self.spare, before);
                Ok(())
            }
            None => self.block_later(turn),
        }
    }

    /// The first that waits, by layer and then by id, which waits no more. What waited for it is taken.
    /// `None` exactly where nothing waits. One step.
    #[inline(always)]
    pub fn pop<L: Ledger>(&mut self, steps: &mut Steps<L>) -> Option<Turn>
        ensures taken { MatchOption result (NothingWaits self.old)
            (λ t. IsTaken t self.old self.new) }
        ensures steps { steps.new ≡ steps.old + 1 }
    {
        steps.tick();
        match self.near.first() {
            None => self.pop_far(),
            Some(place) => self.pop_from(place),
        }
    }

    /// The changes that waited for the node that was taken last, as long as nothing else waits since. `None`
    /// where an input of it has no value.
    pub fn taken(&self) -> Option<&[Change]>
        ensures { option_copied result ≡ taken_of self.now }
    {
        if self.is_far {
            return changes_in(&self.out);
        }
        self.near.taken()
    }

    /// The first that waits, where the first of the short list stands at a place.
    fn pop_from(&mut self, place: usize) -> Option<Turn>
        requires place { place < length (listed self.old.near) }
        requires least { IsLeast (turn_in self.old.near place) (listed self.old.near) }
        ensures taken { IfSome result (λ t. IsTaken t self.old self.new) }
        ensures some { IsSome result }
    {
        if self.far.is_empty() {
            self.is_far = false;
            return Some(self.near.take(place));
        }
        let turn = self.near.turn(place);
        if is_first_before(&self.far, turn) {
            return self.pop_far();
        }
        self.far.remove(&turn);
        self.is_far = false;
        Some(self.near.take(place))
    }

    /// The first of the map.
    fn pop_far(&mut self) -> Option<Turn>
        ensures near { self.new.near ≡ self.old.near }
        ensures far { MatchOption result ((u : Turn) → far_at self.old u ≡ None)
            (λ t. IsFarFirst (far_at self.old) (far_at self.new) t (taken_of self.new)) }
    {
        match self.far.pop_first() {
            None => None,
            Some((turn, pending)) => {
                let before = mem::replace(&mut self.out, pending);
                keep(&mut self.spare, before);
                self.is_far = true;
                Some(turn)
            }
        }
    }

    /// One more change waits for a node that isn't in the short list.
    fn push_later(&mut self, turn: Turn, change: Change) -> Result<(), NoMemory>
        requires { look turn (listed self.old.near) ≡ None }
        ensures { OnOk result (Gets turn change self.old self.new) }
    {
        if self.far.is_empty() {
            return self.push_first(turn, change);
        }
        match self.far.get_mut(&turn) {
            Some(pending) => add_to(pending, change),
            None => self.push_first(turn, change),
        }
    }

    /// The change of a number waits for a node that isn't in the short list.
    #[inline(always)]
    fn push_number_later(
        &mut self,
        turn: Turn,
        place: u32,
        old: &i64,
        new: &i64,
    ) -> Result<(), NoMemory>
        requires { look turn (listed self.old.near) ≡ None }
        ensures { OnOk result (Gets turn
            (change_to place (Int old.now) (Int new.now)) self.old self.new) }
    {
        if self.far.is_empty() {
            if self.near.len() < FEW {
                return self.near.begin_number(self.alloc, turn, place, old, new);
            }
        }
        self.push_later(turn, number_change(place, old, new))
    }

    /// A change waits for a node for which nothing waited.
    #[inline(always)]
    fn push_first(&mut self, turn: Turn, change: Change) -> Result<(), NoMemory>
        requires { waits self.old turn.layer turn.id ≡ None }
        ensures { OnOk result (Gets turn change self.old self.new) }
    {
        if self.near.len() < FEW {
            return self.near.begin(self.alloc, turn, change);
        }
        let mut list = empty_list(self.alloc, &mut self.spare);
        list.push(change)?;
        self.put_far(turn, Pending::Changed(list))
    }

    /// An input of a node that isn't in the short list has no value.
    fn block_later(&mut self, turn: Turn) -> Result<(), NoMemory>
        requires { look turn (listed self.old.near) ≡ None }
        ensures { OnOk result (WaitsFor turn (Some None) self.old self.new) }
    {
        if self.far.is_empty() {
            return self.block_first(turn);
        }
        match self.far.remove(&turn) {
            None => self.block_first(turn),
            Some(before) => {
                keep(&mut self.spare, before);
                self.block_first(turn)
            }
        }
    }

    /// An input of a node for which nothing waited has no value.
    fn block_first(&mut self, turn: Turn) -> Result<(), NoMemory>
        requires { waits self.old turn.layer turn.id ≡ None }
        ensures { OnOk result (WaitsFor turn (Some None) self.old self.new) }
    {
        if self.near.len() < FEW {
            return self.near.begin_blocked(turn);
        }
        self.put_far(turn, Pending::Below)
    }

    /// This waits in the map for a node for which nothing waited.
    fn put_far(&mut self, turn: Turn, pending: Pending) -> Result<(), NoMemory>
        requires { waits self.old turn.layer turn.id ≡ None }
        ensures { OnOk result (WaitsFor turn (Some (changes_of pending)) self.old self.new) }
    {
        self.far.insert(turn, pending)?;
        Ok(())
    }
}

/// The change at a place from an old number to a new one.
fn number_change(place: u32, old: &i64, new: &i64) -> Change
    ensures { result ≡ change_to place (Int old.now) (Int new.now) }
{
    Change::Int {
        place,
        old: *old,
        new: *new,
    }
}

/// Whether the first in a map is before a turn.
fn is_first_before(far: &BTreeMap<Turn, Pending>, turn: Turn) -> bool
    ensures { MatchBool result ((t : Turn) × IsSome (get turn_cmp far.now t) ×
        IsBefore t turn) ((t : Turn) → IsSome (get turn_cmp far.now t) → NotAfter turn t) }
{
    match far.first_key_value() {
        None => false,
        Some((first, _)) => is_before(*first, turn),
    }
}

/// The memory of what waited serves again.
fn keep(spare: &mut Vec<Vec<Change>>, pending: Pending) {
    match pending {
        Pending::Changed(mut list) => {
            list.clear();
            let _ = spare.push(list);
        }
        Pending::Below => {}
    }
}

/// A list without changes.
fn empty_list(alloc: Global, spare: &mut Vec<Vec<Change>>) -> Vec<Change>
    ensures { result.items ≡ [] }
{
    match spare.pop() {
        None => Vec::new(alloc),
        Some(mut list) => {
            list.clear();
            list
        }
    }
}
