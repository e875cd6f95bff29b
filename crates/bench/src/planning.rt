//! How long made-up dependencies take to plan. Each item depends on the one before and on EACH - 1 others
//! before it that are drawn. As `layers` that is all; as `cycle` the first item depends on the last.
ghost use Rattle.std.specs.Prelude.{◌≡◌, ◌<◌, ◌≤◌, ◌^◌, length, IfOk};
ghost use Rattle.std.specs.List.{All};
ghost use Rattle.layer_plan.specs.Dependencies.{AreItems};

use crate::draws::Draws;
use crate::stop::Stop;
use cbl_base::NoMemory;
use layer_plan::{Layers, PlanStop, plan};
use std::alloc::Global;

/// What is planned.
#[derive(Drop)]
struct Shape {
    items: u32,
    each: u32,
    closes: bool,
}

/// The item before and others before it.
fn earlier_items(
    alloc: Global,
    draws: &mut Draws,
    item: u32,
    each: u32,
) -> Result<Vec<u32>, NoMemory>
    requires { 0 < item }
    ensures { IfOk result (λ list. All (λ entry. entry < item) list.items) }
{
    let mut list = vec![in alloc; item - 1]?;
    for _other in 1..each {
        list.push(draws.below(item))?;
    }
    Ok(list)
}

/// The list of an item.
fn list_of_item(
    alloc: Global,
    draws: &mut Draws,
    shape: &Shape,
    item: u32,
) -> Result<Vec<u32>, NoMemory>
    requires { item < shape.now.items }
    ensures { IfOk result (λ list. All (λ entry. entry < shape.now.items) list.items) }
{
    if item > 0 {
        let list = earlier_items(alloc, draws, item, shape.each)?;
        Ok(list)
    } else if shape.closes {
        let list = vec![in alloc; shape.items - 1]?;
        Ok(list)
    } else {
        Ok(Vec::new(alloc))
    }
}

/// The lists of all items.
fn dependencies(alloc: Global, shape: &Shape) -> Result<Vec<Vec<u32>>, NoMemory>
    ensures count { IfOk result (λ deps. length deps.items ≡ shape.now.items) }
    ensures few { IfOk result (λ deps. length deps.items < 2 ^ 32) }
    ensures items { IfOk result (λ deps. AreItems deps.items) }
{
    let mut draws = Draws::new();
    let mut deps = Vec::new(alloc);
    for item in 0..shape.items {
        let list = list_of_item(alloc, &mut draws, shape, item)?;
        deps.push(list)?;
    }
    Ok(deps)
}

/// What the words say.
fn shape_of(words: &[String]) -> Option<Shape> {
    match words {
        [items, each, kind] => Some(Shape {
            items: items.parse::<u32>().ok()?,
            each: each.parse::<u32>().ok()?,
            closes: kind.as_str() == "cycle",
        }),
        _ => None,
    }
}

/// Plans what the words say, and prints the highest layer or the length of the cycle.
pub(crate) fn time_plan<R: Print + AllocGlobal>(rt: &R, words: &[String]) -> Result<(), Stop> {
    let shape = shape_of(words).ok_or(Stop::Words)?;
    let number = measure(rt.alloc(), &shape)?;
    println!(rt; "{number}")?;
    Ok(())
}

/// Plans, and gives the highest layer or the length of the cycle.
fn measure(alloc: Global, shape: &Shape) -> Result<usize, NoMemory> {
    let deps = dependencies(alloc, shape)?;
    match plan(alloc, deps.as_slice()) {
        Ok(layers) => Ok(highest(&layers, shape.items)),
        Err(PlanStop::Cycle(list)) => Ok(list.len()),
        Err(PlanStop::NoMemory) => Err(NoMemory),
    }
}

/// The highest layer of so many items, and 0 where there are none.
fn highest(layers: &Layers, items: u32) -> usize
    requires { items ≤ length layers.now }
{
    let mut highest = 0;
    for item in 0..items {
        highest = highest.max(layers.layer(item));
    }
    highest as usize
}
