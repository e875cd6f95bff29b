//! The layers of all items, by a search in depth with a stack of its own.
ghost use Rattle.std.specs.Prelude.{◌≡◌, ℕ, ◌+◌, ◌<◌, ◌^◌, List, [], length, slice_index, slice_index_or, IfOk, IfErr, OnOk};
ghost use Rattle.layer_plan.specs.Dependencies.{list_of, DependsOn, AreItems};
ghost use Rattle.layer_plan.specs.Paths.{IsLongest};
ghost use Rattle.layer_plan.specs.Cycles.{IsCycle};
ghost use Rattle.layer_plan.specs.Search.{stage_of, rest_of, work, IsSound, LeadsOn, IsTrueStop, IsLast, KeepsTouched};

use cbl_base::NoMemory;
use std::alloc::Global;

/// How far the search has come with an item.
#[derive(Clone, Copy, PartialEq, Eq, Debug)]
enum Stage {
    /// Nothing was done.
    Untouched,
    /// It stands on the stack.
    Open,
    /// Its layer is known.
    Placed,
}

/// Why the search ends early.
pub(crate) enum SearchStop {
    /// Items depend on one another in a circle.
    Cycle,
    NoMemory,
}

impl From<NoMemory> for SearchStop {
    ghost use Rattle.std.specs.Prelude.{◌≡◌};
    ghost use Rattle.layer_plan.specs.declared.search.SearchStop.TheVariants.{NoMemory as WithoutMemory};

    ghost from_gives = { λ _ stop. stop ≡ WithoutMemory };

    fn from(_error: NoMemory) -> SearchStop {
        SearchStop::NoMemory
    }
}

/// The state of the search.
#[derive(Drop)]
struct Search {
    stages: Vec<Stage>,
    /// The layer of a placed item, and of the others that which their list makes necessary so far.
    layers: Vec<u32>,
    /// How many entries of an item's list, from its front, are still to be looked at.
    rest: Vec<usize>,
    /// The open items, each depending on the next.
    stack: Vec<u32>,
}

/// An item's list.
pub(crate) fn list_of(deps: &[Vec<u32>], item: u32) -> &[u32]
    requires { item < length deps.now }
    ensures { result.now ≡ list_of deps.now item }
{
    deps[item as usize].as_slice()
}

/// The entry of an item's list at a place from 0.
pub(crate) fn entry(deps: &[Vec<u32>], item: u32, place: usize) -> u32
    requires items { AreItems deps.now }
    requires item { item < length deps.now }
    requires place { place < length (list_of deps.now item) }
    ensures value { slice_index (list_of deps.now item) place ≡ result }
    ensures depends { DependsOn deps.now item result }
    ensures within { result < length deps.now }
{
    list_of(deps, item)[place]
}

impl Search {
    /// How far the search has come with an item.
    fn stage(&self, item: u32) -> Stage
        requires { item < length self.now.stages.items }
        ensures { stage_of self.now item ≡ result }
    {
        self.stages[item as usize]
    }

    /// Puts an untouched item, on which the last of the stack depends, on the stack.
    fn open(&mut self, deps: &[Vec<u32>], item: u32) -> Result<(), NoMemory>
        requires sound { IsSound deps.now self.old }
        requires item { item < length deps.now }
        requires untouched { stage_of self.old item ≡ Stage.Untouched }
        requires leads { LeadsOn deps.now self.old.stack.items item }
        ensures sound { OnOk result (IsSound deps.now self.new) }
        ensures work { OnOk result (work self.new < work self.old) }
        ensures touched { OnOk result (KeepsTouched self.old self.new) }
        ensures self_touched { OnOk result (stage_of self.new item ≡ Stage.Open) }
    {
        self.stages[item as usize] = Stage::Open;
        self.stack.push(item)?;
        Ok(())
    }

    /// Takes the last of the stack, whose list was looked at, off the stack.
    fn close(&mut self, deps: &[Vec<u32>], item: u32)
        requires sound { IsSound deps.now self.old }
        requires item { item < length deps.now }
        requires last { IsLast self.old.stack.items item }
        requires done { rest_of self.old item ≡ 0 }
        ensures sound { IsSound deps.now self.new }
        ensures work { work self.new < work self.old }
        ensures touched { KeepsTouched self.old self.new }
    {
        self.stages[item as usize] = Stage::Placed;
        let _ = self.stack.pop();
    }

    /// Goes past the last entry that is left of an item's list, which is placed.
    fn pass(&mut self, deps: &[Vec<u32>], item: u32, place: usize, next: u32)
        requires sound { IsSound deps.now self.old }
        requires item { item < length deps.now }
        requires few { length deps.now < 2 ^ 32 }
        requires opened { stage_of self.old item ≡ Stage.Open }
        requires place { rest_of self.old item ≡ place + 1 }
        requires next { slice_index (list_of deps.now item) place ≡ next }
        requires next_in { next < length deps.now }
        requires placed { stage_of self.old next ≡ Stage.Placed }
        ensures sound { IsSound deps.now self.new }
        ensures work { work self.new < work self.old }
        ensures touched { KeepsTouched self.old self.new }
    {
        let least = self.layers[next as usize] + 1;
        self.rest[item as usize] = place;
        self.layers[item as usize] = self.layers[item as usize].max(least);
    }

    /// Looks at one entry of the list of the last of the stack, or takes that off the stack.
    fn step(&mut self, deps: &[Vec<u32>], item: u32) -> Result<(), SearchStop>
        requires few { length deps.now < 2 ^ 32 }
        requires items { AreItems deps.now }
        requires sound { IsSound deps.now self.old }
        requires item { item < length deps.now }
        requires last { IsLast self.old.stack.items item }
        ensures sound { OnOk result (IsSound deps.now self.new) }
        ensures work { OnOk result (work self.new < work self.old) }
        ensures touched { OnOk result (KeepsTouched self.old self.new) }
        ensures stop { IfErr result (λ stop. IsTrueStop deps.now stop) }
    {
        let left = self.rest[item as usize];
        if left == 0 {
            self.close(deps, item);
            return Ok(());
        }
        let next = entry(deps, item, left - 1);
        match self.stage(next) {
            Stage::Untouched => {
                self.open(deps, next)?;
                Ok(())
            }
            Stage::Open => Err(SearchStop::Cycle),
            Stage::Placed => {
                self.pass(deps, item, left - 1, next);
                Ok(())
            }
        }
    }

    /// Places the item and all that it leads to, unless that was done.
    fn visit(&mut self, deps: &[Vec<u32>], root: u32) -> Result<(), SearchStop>
        requires few { length deps.now < 2 ^ 32 }
        requires items { AreItems deps.now }
        requires sound { IsSound deps.now self.old }
        requires root { root < length deps.now }
        requires empty { self.old.stack.items ≡ [] }
        ensures sound { OnOk result (IsSound deps.now self.new) }
        ensures empty { OnOk result (self.new.stack.items ≡ []) }
        ensures touched { OnOk result (KeepsTouched self.old self.new) }
        ensures root { OnOk result (stage_of self.new root ≡ Stage.Untouched → ⊥) }
        ensures stop { IfErr result (λ stop. IsTrueStop deps.now stop) }
    {
        self.begin(deps, root)?;
        while let Some(item) = self.stack.last().copied() {
            self.step(deps, item)?;
        }
        Ok(())
    }

    /// Puts an untouched item on the empty stack.
    fn begin(&mut self, deps: &[Vec<u32>], root: u32) -> Result<(), NoMemory>
        requires sound { IsSound deps.now self.old }
        requires root { root < length deps.now }
        requires empty { self.old.stack.items ≡ [] }
        ensures sound { OnOk result (IsSound deps.now self.new) }
        ensures touched { OnOk result (KeepsTouched self.old self.new) }
        ensures root { OnOk result (stage_of self.new root ≡ Stage.Untouched → ⊥) }
    {
        match self.stage(root) {
            Stage::Untouched => self.open(deps, root),
            Stage::Open | Stage::Placed => Ok(()),
        }
    }

    /// Nothing was done with any item.
    fn new(alloc: Global, deps: &[Vec<u32>]) -> Result<Search, NoMemory>
        ensures sound { IfOk result (λ search. IsSound deps.now search) }
        ensures empty { IfOk result (λ search. search.stack.items ≡ []) }
    {
        let count = deps.len();
        Ok(Search {
            stages: vec![in alloc; Stage::Untouched; count]?,
            layers: vec![in alloc; 0; count]?,
            rest: lengths(alloc, deps)?,
            stack: Vec::new(alloc),
        })
    }
}

/// How long the lists are.
pub(crate) fn lengths(alloc: Global, deps: &[Vec<u32>]) -> Result<Vec<usize>, NoMemory>
    ensures count { IfOk result (λ v. length v.items ≡ length deps.now) }
    ensures each { IfOk result (λ v. (item : ℕ) → item < length deps.now →
        slice_index v.items item ≡ length (list_of deps.now item)) }
{
    let mut lengths = Vec::with_capacity(alloc, deps.len())?;
    for list in deps {
        lengths.push(list.len())?;
    }
    Ok(lengths)
}

/// The layer of each item, unless items depend on one another in a circle.
pub(crate) fn layers_of(alloc: Global, deps: &[Vec<u32>]) -> Result<Vec<u32>, SearchStop>
    requires few { length deps.now < 2 ^ 32 }
    requires items { AreItems deps.now }
    ensures count { IfOk result (λ layers. length layers.items ≡ length deps.now) }
    ensures longest { IfOk result (λ layers. (item : ℕ) → item < length deps.now →
        IsLongest deps.now item (slice_index layers.items item)) }
    ensures none { OnOk result ((list : List ℕ) → IsCycle deps.now list → ⊥) }
    ensures stop { IfErr result (λ stop. IsTrueStop deps.now stop) }
{
    let mut search = Search::new(alloc, deps)?;
    for root in 0..deps.len() as u32 {
        search.visit(deps, root)?;
    }
    Ok(search.layers)
}
