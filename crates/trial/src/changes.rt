//! The values that are others in a trial, by id.
ghost use Rattle.std.specs.Prelude.{◌≡◌, ◌≢◌, ℕ, ◌<◌, length, slice_get, Some, None, OnOk, MatchOption, option_copied};
ghost use Rattle.std.specs.BTreeMap.{get};
ghost use Rattle.std.specs.Ordering.{nat_cmp};
ghost use Rattle.trial.specs.ChangeLists.{map_of, ArePlaced, IsPlaceOf};

use cbl_base::NoMemory;
use inc_store::NodeChange;
use std::alloc::Global;
use std::marker::Model;

/// Changes of ids, and seen as a map from each id to its change. They stand in a list, and a table tells for an
/// id the place of its change there. Where the table leads elsewhere the id has none, so that the table may stay
/// as it is when the list is emptied.
#[derive(Drop)]
pub struct Changes {
    items: Vec<NodeChange>,
    places: Vec<u32>,
}

impl Model for Changes {
    ghost use Rattle.std.specs.Prelude.{ℕ};
    ghost use Rattle.std.specs.BTreeMap.{BTreeMap};
    ghost use Rattle.inc_store.specs.declared.changed.NodeChange.{NodeChange};
    ghost use Rattle.trial.specs.ChangeLists.{map_of, ArePlaced};
    ghost use Rattle.inc_store.specs.contracts.changed.NodeChange as change;
    ghost use Rattle.std.specs.Coded.{coded_ℕ};
    ghost use Rattle.std_collections.specs.Layout.BTreeMap.{btree_map_code};

    ghost Value = { BTreeMap ℕ NodeChange };

    ghost coded = { btree_map_code coded_ℕ change.the_row.coded };

    ghost view = { λ c. map_of c.items.items };

    ghost invariant = { λ c. ArePlaced c.items.items c.places.items };
}

impl Changes {
    /// No change.
    pub(crate) fn new(alloc: Global) -> Changes
        ensures { (j : ℕ) → get nat_cmp result j ≡ None }
    {
        Changes {
            items: Vec::new(alloc),
            places: Vec::new(alloc),
        }
    }

    /// No change from now on. The memory is kept.
    pub(crate) fn clear(&mut self)
        ensures { (j : ℕ) → get nat_cmp self.new j ≡ None }
    {
        self.items.clear();
    }

    /// The change of an id, if there is one.
    pub(crate) fn get(&self, id: u32) -> Option<&NodeChange>
        ensures { option_copied result ≡ get nat_cmp self.now id }
    {
        match place_of(&self.items, &self.places, id) {
            None => None,
            Some(place) => Some(&self.items[place]),
        }
    }

    /// The node of this change has it from now on.
    pub(crate) fn set(&mut self, change: NodeChange) -> Result<(), NoMemory>
        ensures here { OnOk result (get nat_cmp self.new change.node.0 ≡ Some change) }
        ensures elsewhere { OnOk result ((j : ℕ) → j ≢ change.node.0 →
            get nat_cmp self.new j ≡ get nat_cmp self.old j) }
    {
        put(&mut self.items, &mut self.places, change)
    }
}

/// The place of an id's change, if there is one.
fn place_of(items: &[NodeChange], places: &[u32], id: u32) -> Option<usize>
    requires { ArePlaced items.now places.now }
    ensures { MatchOption result (get nat_cmp (map_of items.now) id ≡ None)
        (IsPlaceOf items.now id) }
{
    if places.len() <= id as usize {
        return None;
    }
    let place = places[id as usize] as usize;
    if items.len() <= place {
        return None;
    }
    if items[place].node.0 == id {
        Some(place)
    } else {
        None
    }
}

/// Puts a change into the list, for the one that its node had or as a new one.
fn put(
    items: &mut Vec<NodeChange>,
    places: &mut Vec<u32>,
    change: NodeChange,
) -> Result<(), NoMemory>
    requires { ArePlaced items.old.items places.old.items }
    ensures placed { ArePlaced items.new.items places.new.items }
    ensures here { OnOk result (get nat_cmp (map_of items.new.items) change.node.0 ≡ Some change) }
    ensures elsewhere { OnOk result ((j : ℕ) → j ≢ change.node.0 →
        get nat_cmp (map_of items.new.items) j ≡ get nat_cmp (map_of items.old.items) j) }
{
    match place_of(items, places, change.node.0) {
        Some(place) => {
            items[place] = change;
            Ok(())
        }
        None => add(items, places, change),
    }
}

/// Puts a change of a node that had none behind the list.
fn add(
    items: &mut Vec<NodeChange>,
    places: &mut Vec<u32>,
    change: NodeChange,
) -> Result<(), NoMemory>
    requires placed { ArePlaced items.old.items places.old.items }
    requires absent { get nat_cmp (map_of items.old.items) change.node.0 ≡ None }
    ensures placed { ArePlaced items.new.items places.new.items }
    ensures here { OnOk result (get nat_cmp (map_of items.new.items) change.node.0 ≡ Some change) }
    ensures elsewhere { OnOk result ((j : ℕ) → j ≢ change.node.0 →
        get nat_cmp (map_of items.new.items) j ≡ get nat_cmp (map_of items.old.items) j) }
{
    lead(places, change.node.0, items.len())?;
    items.push(change)?;
    Ok(())
}

/// The table leads from the id to this place, and from others where it led. `NoMemory` also where the place
/// doesn't fit 32 bits.
fn lead(places: &mut Vec<u32>, id: u32, place: usize) -> Result<(), NoMemory>
    ensures here { OnOk result (slice_get places.new.items id ≡ Some place) }
    ensures kept { (j p : ℕ) → j ≢ id → slice_get places.old.items j ≡ Some p →
        slice_get places.new.items j ≡ Some p }
{
    let Ok(place) = u32::try_from(place) else {
        return Err(NoMemory);
    };
    lengthen(places, id)?;
    places[id as usize] = place;
    Ok(())
}

/// The table has the id, and leads where it led.
fn lengthen(places: &mut Vec<u32>, id: u32) -> Result<(), NoMemory>
    ensures long { OnOk result (id < length places.new.items) }
    ensures kept { (j p : ℕ) → slice_get places.old.items j ≡ Some p →
        slice_get places.new.items j ≡ Some p }
{
    while places.len() <= id as usize {
        places.push(0)?;
    }
    Ok(())
}
