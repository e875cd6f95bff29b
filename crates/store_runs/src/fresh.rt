//! What the ids of a graph come to, by plain recursion.
use crate::graphs::Graph;
use crate::moves::is_moved;
use cbl_base::{NoMemory, VarId};
use std::alloc::Global;

/// What an id comes to: a number, or the least failing node on which it stands.
pub(crate) type Came = Result<i64, u32>;

/// Deeper than any graph.
const DEEP: u32 = 3_000;

/// What an id comes to over these numbers of the variables.
fn came(graph: &Graph, numbers: &[i64], id: u32, deep: u32) -> Came {
    let at = id as usize;
    let Some(list) = graph.lists.get(at) else {
        return Err(id);
    };
    if deep == 0 {
        return Err(id);
    }
    if at < numbers.len() && list.is_empty() {
        return Ok(numbers[at]);
    }
    let mut total: i128 = 0;
    let mut least = u32::MAX;
    for input in list {
        match came(graph, numbers, *input, deep - 1) {
            Ok(number) => total = total.wrapping_add(number as i128),
            Err(node) => least = least.min(node),
        }
    }
    if least < u32::MAX {
        return Err(least);
    }
    match i64::try_from(total) {
        Ok(number) => Ok(number),
        Err(_) => Err(id),
    }
}

/// What each id comes to.
pub(crate) fn all_came(
    alloc: Global,
    graph: &Graph,
    numbers: &[i64],
) -> Result<Vec<Came>, NoMemory> {
    let mut all = Vec::new(alloc);
    for id in 0..u32::try_from(graph.lists.len()).unwrap_or(0) {
        all.push(came(graph, numbers, id, DEEP))?;
    }
    Ok(all)
}

/// What an id came to.
pub(crate) fn came_at(all: &[Came], id: u32) -> Came {
    all.get(id as usize).copied().unwrap_or(Err(id))
}

/// The least node that fails, and a number that no node has where none does.
pub(crate) fn least_failing(all: &[Came]) -> u32 {
    let mut least = u32::MAX;
    for came in all {
        if let Err(node) = came {
            least = least.min(*node);
        }
    }
    least
}

/// The numbers after moves.
pub(crate) fn moved(
    alloc: Global,
    numbers: &[i64],
    moves: &[(VarId, i64)],
) -> Result<Vec<i64>, NoMemory> {
    let mut after = Vec::from_slice(alloc, numbers)?;
    for (var, number) in moves {
        if let Some(place) = after.get_mut(var.index as usize) {
            *place = *number;
        }
    }
    Ok(after)
}

/// How much moves touch, and how many ids come to another number.
#[derive(Clone, Copy, Drop)]
pub(crate) struct Touch {
    /// The places at which what differs is used, and twice the ids that are moved or have an input that
    /// differs.
    pub(crate) touch: u64,
    pub(crate) differing: usize,
}

/// What moves touch, that make of these values those.
pub(crate) fn touch_of(
    graph: &Graph,
    moves: &[(VarId, i64)],
    before: &[Came],
    after: &[Came],
) -> Touch {
    let mut touch: u64 = 0;
    let mut differing: usize = 0;
    for id in 0..u32::try_from(graph.lists.len()).unwrap_or(0) {
        let mut is_touched = is_moved(moves, id);
        for input in &graph.lists[id as usize] {
            if came_at(before, *input) != came_at(after, *input) {
                touch = touch.saturating_add(1);
                is_touched = true;
            }
        }
        if is_touched {
            touch = touch.saturating_add(2);
        }
        if came_at(before, id) != came_at(after, id) {
            differing = differing.saturating_add(1);
        }
    }
    Touch { touch, differing }
}
