//! A short list of nodes that wait, in no order.
ghost use Rattle.std.specs.Prelude.{◌≡◌, ◌+◌, ◌*◌, ◌<◌, ◌≤◌, true, [], ◌∷◌, take, Some, None, length, OnOk, MatchOption, MatchBool, option_copied};
ghost use Rattle.std.specs.BTreeMap.{is_at};
ghost use Rattle.cbl_base.specs.declared.input.Change.TheVariants.{Int as IntChange};
ghost use Rattle.store_turns.specs.Entries.{are_distinct, changes_of, and_change, look, turn_cmp, IsBefore, IsLeast, NotAfter, Puts};

use crate::waiting::{Pending, Turn};
use cbl_base::{Change, NoMemory};
use std::alloc::Global;
use std::mem;

/// Nodes that wait, each once, in no order: the first so many entries. What stands behind them waits no more,
/// and its memory serves again.
#[derive(Drop)]
pub(crate) struct ShortList {
    entries: Vec<(Turn, Pending)>,
    live: usize,
    ghost within: { live ≤ length entries.items },
    ghost distinct: { are_distinct (take live entries.items) ≡ true },
}

impl ShortList {
    ghost use Rattle.store_turns.specs.Listed.{listed, behind, turn_in, IsFoundAt, ListedFor, GetsAt};

    /// Nothing waits.
    pub(crate) fn new(alloc: Global) -> ShortList
        ensures { result.live ≡ 0 }
    {
        ShortList {
            entries: Vec::new(alloc),
            live: 0,
        }
    }

    /// Nothing waits from now on.
    pub(crate) fn clear(&mut self)
        ensures { self.new.live ≡ 0 }
    {
        self.live = 0;
    }

    /// How many nodes wait.
    pub(crate) fn len(&self) -> usize
        ensures { result ≡ self.now.live }
    {
        self.live
    }

    /// The place of a node.
    pub(crate) fn place_of(&self, turn: Turn) -> Option<usize>
        ensures { MatchOption result (look turn (listed self.now) ≡ None)
            (λ place. (place < length (listed self.now)) × (turn_in self.now place ≡ turn)) }
    {
        for (place, entry) in self.entries[..self.live].iter().enumerate() {
            if is_same(turn, entry.0) {
                return Some(place);
            }
        }
        None
    }

    /// The place of the first node by layer and then by id.
    pub(crate) fn first(&self) -> Option<usize>
        ensures { MatchOption result (listed self.now ≡ []) (λ place.
            (place < length (listed self.now)) ×
            IsLeast (turn_in self.now place) (listed self.now)) }
    {
        if self.live == 0 {
            return None;
        }
        let mut first = 0;
        let mut least = self.entries[0].0;
        for (place, entry) in self.entries[..self.live].iter().enumerate() {
            if is_before(entry.0, least) {
                first = place;
                least = entry.0;
            }
        }
        Some(first)
    }

    /// The turn at a place.
    pub(crate) fn turn(&self, place: usize) -> Turn
        requires { place < length (listed self.now) }
        ensures { result ≡ turn_in self.now place }
    {
        self.entries[place].0
    }

    /// A change waits for a node for which nothing waited.
    pub(crate) fn begin(
        &mut self,
        alloc: Global,
        turn: Turn,
        change: Change,
    ) -> Result<(), NoMemory>
        requires { look turn (listed self.old) ≡ None }
        ensures { OnOk result (ListedFor turn (Some (Some (change ∷ []))) self.old self.new) }
    {
        self.make_room()?;
        let entry = &mut self.entries[self.live];
        entry.0 = turn;
        begin_with(alloc, &mut entry.1, change)?;
        self.live += 1;
        Ok(())
    }

    /// The change of a number waits for a node for which nothing waited.
    // `begin` would take a made change, which is copied at each call on its way to the list.
    pub(crate) fn begin_number(
        &mut self,
        alloc: Global,
        turn: Turn,
        place: u32,
        old: &i64,
        new: &i64,
    ) -> Result<(), NoMemory>
        requires { look turn (listed self.old) ≡ None }
        ensures { OnOk result (ListedFor turn
            (Some (Some (IntChange place old.now new.now ∷ []))) self.old self.new) }
    {
        self.make_room()?;
        let entry = &mut self.entries[self.live];
        entry.0 = turn;
        begin_number_with(alloc, &mut entry.1, place, old, new)?;
        self.live += 1;
        Ok(())
    }

    /// An input of a node for which nothing waited has no value.
    pub(crate) fn begin_blocked(&mut self, turn: Turn) -> Result<(), NoMemory>
        requires { look turn (listed self.old) ≡ None }
        ensures { OnOk result (ListedFor turn (Some None) self.old self.new) }
    {
        self.make_room()?;
        self.entries[self.live] = (turn, Pending::Below);
        self.live += 1;
        Ok(())
    }

    /// An entry stands behind those that wait.
    fn make_room(&mut self) -> Result<(), NoMemory>
        ensures room { OnOk result (self.new.live < length self.new.entries.items) }
        ensures live { self.new.live ≡ self.old.live }
        ensures same { listed self.new ≡ listed self.old }
    {
        if self.live == self.entries.len() {
            let turn = Turn { layer: 0, id: 0 };
            self.entries.push((turn, Pending::Below))?;
        }
        Ok(())
    }

    /// One more change waits for the node at a place.
    pub(crate) fn add(&mut self, place: usize, change: Change) -> Result<(), NoMemory>
        requires { place < length (listed self.old) }
        ensures before { IsFoundAt self.old place }
        ensures after { OnOk result (GetsAt place change self.old self.new) }
    {
        add_to(&mut self.entries[place].1, change)
    }

    /// The change of a number, at a place of its inputs, waits too for the node that stands at a place of
    /// the list.
    pub(crate) fn add_number(
        &mut self,
        at: usize,
        place: u32,
        old: &i64,
        new: &i64,
    ) -> Result<(), NoMemory>
        requires { at < length (listed self.old) }
        ensures before { IsFoundAt self.old at }
        ensures after { OnOk result (GetsAt at
            (IntChange place old.now new.now) self.old self.new) }
    {
        add_number_to(&mut self.entries[at].1, place, old, new)
    }

    /// An input of the node at a place has no value. It answers what waited.
    pub(crate) fn block(&mut self, place: usize) -> Pending
        requires { place < length (listed self.old) }
        ensures { ListedFor (turn_in self.old place) (Some None) self.old self.new }
    {
        mem::replace(&mut self.entries[place].1, Pending::Below)
    }

    /// The node at a place waits no more. What waited stands behind those that wait.
    pub(crate) fn take(&mut self, place: usize) -> Turn
        requires { place < length (listed self.old) }
        ensures turn { result ≡ turn_in self.old place }
        ensures before { look result (listed self.old) ≡ Some (behind self.new) }
        ensures after { Puts result None (listed self.old) (listed self.new) }
    {
        let turn = self.entries[place].0;
        self.live -= 1;
        self.entries.swap(place, self.live);
        turn
    }

    /// The changes that stand behind those that wait.
    pub(crate) fn taken(&self) -> Option<&[Change]>
        ensures { option_copied result ≡ changes_of (behind self.now) }
    {
        match self.entries.get(self.live) {
            Some(entry) => changes_in(&entry.1),
            None => None,
        }
    }
}

/// The changes that wait, and `None` where an input has no value.
pub(crate) fn changes_in(pending: &Pending) -> Option<&[Change]>
    ensures { option_copied result ≡ changes_of pending.now }
{
    match pending {
        Pending::Changed(list) => Some(list.as_slice()),
        Pending::Below => None,
    }
}

/// One change waits, whatever waited before.
fn begin_with(alloc: Global, pending: &mut Pending, change: Change) -> Result<(), NoMemory>
    ensures { OnOk result (changes_of pending.new ≡ Some (change ∷ [])) }
{
    match pending {
        Pending::Changed(list) => {
            list.clear();
            list.push(change)?;
            Ok(())
        }
        Pending::Below => {
            let mut list = Vec::new(alloc);
            list.push(change)?;
            *pending = Pending::Changed(list);
            Ok(())
        }
    }
}

/// One change of a number waits, whatever waited before.
fn begin_number_with(
    alloc: Global,
    pending: &mut Pending,
    place: u32,
    old: &i64,
    new: &i64,
) -> Result<(), NoMemory>
    ensures { OnOk result (changes_of pending.new ≡
        Some (IntChange place old.now new.now ∷ [])) }
{
    match pending {
        Pending::Changed(list) => {
            list.clear();
            list.push(Change::Int {
                place,
                old: *old,
                new: *new,
            })?;
            Ok(())
        }
        Pending::Below => {
            let mut list = Vec::new(alloc);
            list.push(Change::Int {
                place,
                old: *old,
                new: *new,
            })?;
            *pending = Pending::Changed(list);
            Ok(())
        }
    }
}

/// With one more change of a number.
fn add_number_to(pending: &mut Pending, place: u32, old: &i64, new: &i64) -> Result<(), NoMemory>
    ensures { OnOk result (changes_of pending.new ≡
        and_change (IntChange place old.now new.now) (Some (changes_of pending.old))) }
{
    match pending {
        Pending::Changed(changes) => {
            changes.push(Change::Int {
                place,
                old: *old,
                new: *new,
            })?;
            Ok(())
        }
        Pending::Below => Ok(()),
    }
}

/// With one more change.
pub(crate) fn add_to(pending: &mut Pending, change: Change) -> Result<(), NoMemory>
    ensures { OnOk result (changes_of pending.new ≡
        and_change change (Some (changes_of pending.old))) }
{
    match pending {
        Pending::Changed(changes) => {
            changes.push(change)?;
            Ok(())
        }
        Pending::Below => Ok(()),
    }
}

/// Whether two turns are the same.
fn is_same(turn: Turn, other: Turn) -> bool
    ensures { result ≡ is_at (turn_cmp turn) other }
{
    turn.layer == other.layer && turn.id == other.id
}

/// Whether a turn is before another.
pub(crate) fn is_before(turn: Turn, other: Turn) -> bool
    ensures { MatchBool result (IsBefore turn other) (NotAfter other turn) }
{
    rank(turn) < rank(other)
}

/// The place of a turn in the order of all.
fn rank(turn: Turn) -> u64
    ensures { result ≡ turn.layer * 4294967296 + turn.id }
{
    u64::from(turn.layer) * 4294967296 + u64::from(turn.id)
}
