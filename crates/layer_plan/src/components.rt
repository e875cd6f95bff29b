//! The least item that lies on a cycle, by a search for the components of items that lead to one
//! another. Each item and each entry is looked at once or twice.
ghost use Rattle.std.specs.Prelude.{◌≡◌, ℕ, ◌+◌, ◌<◌, ◌≤◌, ◌^◌, ◌⊎◌, List, [], length, slice_index, slice_index_or, sum_by, IfOk, OnOk};
ghost use Rattle.std.specs.List.{Contains};
ghost use Rattle.layer_plan.specs.Dependencies.{list_of, DependsOn, AreItems};
ghost use Rattle.layer_plan.specs.Nearness.{HasWay, HasCycle, IsLeastOnCycle};
ghost use Rattle.layer_plan.specs.Search.{IsLast};
ghost use Rattle.layer_plan.specs.Components.{AreComponents, KeepsTouched, mark_of, rest_of, place_of, weight, work};

use crate::search::{entry, lengths, list_of};
use cbl_base::NoMemory;
use std::alloc::Global;

/// How far the search has come with an item.
#[derive(Clone, Copy, PartialEq, Eq, Debug)]
enum Mark {
    /// Nothing was done.
    Untouched,
    /// It stands on the path.
    Open,
    /// All of its component was looked at.
    Closed,
}

/// The state of the search.
#[derive(Drop)]
struct Components {
    marks: Vec<Mark>,
    /// How many entries of an item's list, from its front, are still to be looked at.
    rest: Vec<usize>,
    /// Where an open item stands on the path.
    places: Vec<usize>,
    /// The open items, in the order in which they were touched.
    path: Vec<u32>,
    /// The open items whose lists are still looked at, in the same order.
    trail: Vec<u32>,
    /// Where on the path the components begin, each made of items that lead to one another.
    starts: Vec<usize>,
    /// The least item so far that lies on a cycle, or the number of items.
    least: u32,
}

/// The least item that depends on itself, or the number of items.
fn least_on_itself(deps: &[Vec<u32>]) -> u32
    requires few { length deps.now < 2 ^ 32 }
    ensures least { (v : ℕ) → DependsOn deps.now v v → result ≤ v }
    ensures depends { result < length deps.now → DependsOn deps.now result result }
{
    for item in 0..deps.len() as u32 {
        if list_of(deps, item).contains(&item) {
            return item;
        }
    }
    deps.len() as u32
}

/// Closes these items.
fn close_all(marks: &mut Vec<Mark>, items: &[u32])
    requires { (i : ℕ) → i < length items.now → slice_index items.now i < length marks.old.items }
    ensures count { length marks.new.items ≡ length marks.old.items }
    ensures work { sum_by weight marks.new.items ≤ sum_by weight marks.old.items }
    ensures closed { (v : ℕ) → Contains items.now v →
        slice_index_or marks.new.items v Mark.Untouched ≡ Mark.Closed }
    ensures others { (v : ℕ) → (Contains items.now v → ⊥) →
        slice_index_or marks.new.items v Mark.Untouched ≡
        slice_index_or marks.old.items v Mark.Untouched }
{
    for item in items {
        marks[*item as usize] = Mark::Closed;
    }
}

/// The least of the number and, where there are several, the items.
fn least_with(least: u32, items: &[u32]) -> u32
    ensures below { result ≤ least }
    ensures all { 1 < length items.now → (v : ℕ) → Contains items.now v → result ≤ v }
    ensures one { (result ≡ least) ⊎ (1 < length items.now × Contains items.now result) }
{
    if items.len() <= 1 {
        return least;
    }
    let mut result = least;
    for item in items {
        result = result.min(*item);
    }
    result
}

impl Components {
    /// How far the search has come with an item.
    fn mark(&self, item: u32) -> Mark
        requires { item < length self.now.marks.items }
        ensures { mark_of self.now item ≡ result }
    {
        self.marks[item as usize]
    }

    /// Puts an untouched item, to which all of the path leads, on the path, as a component.
    fn open(&mut self, deps: &[Vec<u32>], item: u32) -> Result<(), NoMemory>
        requires sound { AreComponents deps.now self.old }
        requires item { item < length deps.now }
        requires untouched { mark_of self.old item ≡ Mark.Untouched }
        requires leads { (i : ℕ) → i < length self.old.path.items →
            HasWay deps.now (slice_index self.old.path.items i) item }
        ensures sound { OnOk result (AreComponents deps.now self.new) }
        ensures work { OnOk result (work self.new < work self.old) }
        ensures touched { OnOk result (KeepsTouched self.old self.new) }
        ensures self_touched { OnOk result (mark_of self.new item ≡ Mark.Open) }
    {
        let place = self.path.len();
        self.marks[item as usize] = Mark::Open;
        self.places[item as usize] = place;
        self.starts.push(place)?;
        self.path.push(item)?;
        self.trail.push(item)?;
        Ok(())
    }

    /// Closes the last component, which begins at the start, and of which the trail holds nothing.
    fn close(&mut self, deps: &[Vec<u32>], start: usize)
        requires sound { AreComponents deps.now self.old }
        requires start { IsLast self.old.starts.items start }
        requires done { (i : ℕ) → i < length self.old.trail.items →
            place_of self.old (slice_index self.old.trail.items i) < start }
        ensures sound { AreComponents deps.now self.new }
        ensures work { work self.new < work self.old }
        ensures touched { KeepsTouched self.old self.new }
    {
        let items = &self.path[start..];
        self.least = least_with(self.least, items);
        close_all(&mut self.marks, items);
        self.path.truncate(start);
        let _ = self.starts.pop();
    }

    /// Takes the last of the trail, whose list was looked at, off the trail.
    fn leave(&mut self, deps: &[Vec<u32>], item: u32)
        requires sound { AreComponents deps.now self.old }
        requires last { IsLast self.old.trail.items item }
        requires done { rest_of self.old item ≡ 0 }
        ensures sound { AreComponents deps.now self.new }
        ensures work { work self.new < work self.old }
        ensures touched { KeepsTouched self.old self.new }
    {
        let _ = self.trail.pop();
    }

    /// Joins the last component, of which an item depends on one that is open and before its start, to
    /// the component before.
    fn join(&mut self, deps: &[Vec<u32>], start: usize, item: u32, next: u32)
        requires sound { AreComponents deps.now self.old }
        requires start { IsLast self.old.starts.items start }
        requires item { item < length deps.now }
        requires opened { mark_of self.old item ≡ Mark.Open }
        requires behind { start ≤ place_of self.old item }
        requires depends { DependsOn deps.now item next }
        requires next { next < length deps.now }
        requires next_open { mark_of self.old next ≡ Mark.Open }
        requires before { place_of self.old next < start }
        ensures sound { AreComponents deps.now self.new }
        ensures work { work self.new < work self.old }
        ensures touched { KeepsTouched self.old self.new }
    {
        let _ = self.starts.pop();
    }

    /// Goes past the last entry that is left of the list of the trail's last item: one that is closed,
    /// or in the last component.
    fn pass(&mut self, deps: &[Vec<u32>], start: usize, item: u32, place: usize, next: u32)
        requires sound { AreComponents deps.now self.old }
        requires start { IsLast self.old.starts.items start }
        requires last { IsLast self.old.trail.items item }
        requires place { rest_of self.old item ≡ place + 1 }
        requires next { slice_index (list_of deps.now item) place ≡ next }
        requires touched { mark_of self.old next ≡ Mark.Untouched → ⊥ }
        requires behind { mark_of self.old next ≡ Mark.Open → start ≤ place_of self.old next }
        ensures sound { AreComponents deps.now self.new }
        ensures work { work self.new < work self.old }
        ensures touched { KeepsTouched self.old self.new }
    {
        self.rest[item as usize] = place;
    }

    /// Looks at one entry of the list of the trail's last item, which is in the last component, or
    /// leaves that item.
    fn look(&mut self, deps: &[Vec<u32>], start: usize, item: u32) -> Result<(), NoMemory>
        requires items { AreItems deps.now }
        requires sound { AreComponents deps.now self.old }
        requires start { IsLast self.old.starts.items start }
        requires last { IsLast self.old.trail.items item }
        requires behind { start ≤ place_of self.old item }
        ensures sound { OnOk result (AreComponents deps.now self.new) }
        ensures work { OnOk result (work self.new < work self.old) }
        ensures touched { OnOk result (KeepsTouched self.old self.new) }
    {
        let left = self.rest[item as usize];
        if left == 0 {
            self.leave(deps, item);
            return Ok(());
        }
        let next = entry(deps, item, left - 1);
        match self.mark(next) {
            Mark::Untouched => self.open(deps, next)?,
            Mark::Open => {
                if self.places[next as usize] < start {
                    self.join(deps, start, item, next);
                } else {
                    self.pass(deps, start, item, left - 1, next);
                }
            }
            Mark::Closed => self.pass(deps, start, item, left - 1, next),
        }
        Ok(())
    }

    /// One step, where there is a component.
    fn step(&mut self, deps: &[Vec<u32>], start: usize) -> Result<(), NoMemory>
        requires items { AreItems deps.now }
        requires sound { AreComponents deps.now self.old }
        requires start { IsLast self.old.starts.items start }
        ensures sound { OnOk result (AreComponents deps.now self.new) }
        ensures work { OnOk result (work self.new < work self.old) }
        ensures touched { OnOk result (KeepsTouched self.old self.new) }
    {
        if let Some(item) = self.trail.last().copied() {
            if self.places[item as usize] >= start {
                return self.look(deps, start, item);
            }
        }
        self.close(deps, start);
        Ok(())
    }

    /// Closes the item and all that it leads to, unless that was done.
    fn visit(&mut self, deps: &[Vec<u32>], root: u32) -> Result<(), NoMemory>
        requires items { AreItems deps.now }
        requires sound { AreComponents deps.now self.old }
        requires root { root < length deps.now }
        requires empty { self.old.starts.items ≡ [] }
        ensures sound { OnOk result (AreComponents deps.now self.new) }
        ensures empty { OnOk result (self.new.starts.items ≡ []) }
        ensures touched { OnOk result (KeepsTouched self.old self.new) }
        ensures root { OnOk result (mark_of self.new root ≡ Mark.Untouched → ⊥) }
    {
        self.begin(deps, root)?;
        while let Some(start) = self.starts.last().copied() {
            self.step(deps, start)?;
        }
        Ok(())
    }

    /// Puts an untouched item on the empty path.
    fn begin(&mut self, deps: &[Vec<u32>], root: u32) -> Result<(), NoMemory>
        requires sound { AreComponents deps.now self.old }
        requires root { root < length deps.now }
        requires empty { self.old.starts.items ≡ [] }
        ensures sound { OnOk result (AreComponents deps.now self.new) }
        ensures touched { OnOk result (KeepsTouched self.old self.new) }
        ensures root { OnOk result (mark_of self.new root ≡ Mark.Untouched → ⊥) }
    {
        match self.mark(root) {
            Mark::Untouched => self.open(deps, root),
            Mark::Open | Mark::Closed => Ok(()),
        }
    }

    /// Nothing was done with any item.
    fn new(alloc: Global, deps: &[Vec<u32>]) -> Result<Components, NoMemory>
        requires few { length deps.now < 2 ^ 32 }
        ensures sound { IfOk result (λ search. AreComponents deps.now search) }
        ensures empty { IfOk result (λ search. search.starts.items ≡ []) }
    {
        let count = deps.len();
        let least = least_on_itself(deps);
        Ok(Components {
            marks: vec![in alloc; Mark::Untouched; count]?,
            rest: lengths(alloc, deps)?,
            places: vec![in alloc; 0; count]?,
            path: Vec::new(alloc),
            trail: Vec::new(alloc),
            starts: Vec::new(alloc),
            least,
        })
    }
}

/// The least item that lies on a cycle, where there is one.
pub(crate) fn least_on_cycle(alloc: Global, deps: &[Vec<u32>]) -> Result<u32, NoMemory>
    requires few { length deps.now < 2 ^ 32 }
    requires items { AreItems deps.now }
    requires cycle { HasCycle deps.now }
    ensures { IfOk result (λ root. IsLeastOnCycle deps.now root) }
{
    let mut search = Components::new(alloc, deps)?;
    for root in 0..deps.len() as u32 {
        search.visit(deps, root)?;
    }
    Ok(search.least)
}
