//! Numbers that wait for the end of a `with`.
ghost use Rattle.std.specs.Prelude.{◌≡◌, ◌<◌, ◌^◌, Some, None, is_some, option_map, replicate, length, slice_set, zip, IfOk};
ghost use Rattle.run_solvers.specs.Waiting.{moves_from, waiting_behind};

use cbl_base::{NoMemory, VarId};
use std::alloc::Global;

/// No number for so many variables.
pub(crate) fn nothing_waiting(alloc: Global, count: usize) -> Result<Vec<Option<i64>>, NoMemory>
    ensures { IfOk result (λ waiting. waiting.items ≡ replicate count None) }
{
    Ok(vec![in alloc; None; count]?)
}

/// The number of the variable at an index waits.
fn wait(waiting: &mut Vec<Option<i64>>, index: u32, number: i64)
    ensures { waiting.new.items ≡ slice_set waiting.old.items index (Some number) }
{
    let index = index as usize;
    if index < waiting.len() {
        waiting[index] = Some(number);
    }
}

/// The number of the variable at an index waits, where numbers wait; tells whether they do.
pub(crate) fn wait_in(waiting: &mut Option<Vec<Option<i64>>>, index: u32, number: i64) -> bool
    ensures waits { result ≡ is_some waiting.old }
    ensures written { option_map (λ w. w.items) waiting.new ≡
        option_map (λ w. slice_set w.items index (Some number)) waiting.old }
{
    match waiting {
        Some(waiting) => {
            wait(waiting, index, number);
            true
        }
        None => false,
    }
}

/// The numbers of the variables at as many indices wait, where numbers wait; the last one of a variable counts.
pub(crate) fn wait_for_all(waiting: &mut Option<Vec<Option<i64>>>, indices: &[u32], numbers: &[i64])
    requires { length indices.now ≡ length numbers.now }
    ensures { option_map (λ w. w.items) waiting.new ≡
        option_map (λ w. waiting_behind (zip indices.now numbers.now) w.items) waiting.old }
{
    match waiting {
        Some(waiting) => wait_each(waiting, indices, numbers),
        None => {}
    }
}

/// The numbers of the variables at as many indices wait.
fn wait_each(waiting: &mut Vec<Option<i64>>, indices: &[u32], numbers: &[i64])
    requires { length indices.now ≡ length numbers.now }
    ensures { waiting.new.items ≡ waiting_behind (zip indices.now numbers.now) waiting.old.items }
{
    for place in 0..indices.len() {
        wait(waiting, indices[place], numbers[place]);
    }
}

/// What waits, as moves of the variables of the solver with a number.
pub(crate) fn moves_of(
    alloc: Global,
    solver: u32,
    waiting: &[Option<i64>],
) -> Result<Vec<(VarId, i64)>, NoMemory>
    requires { length waiting.now < 2 ^ 32 }
    ensures { IfOk result (λ moves. moves.items ≡ moves_from solver 0 waiting.now) }
{
    let mut moves = Vec::new(alloc);
    for index in 0..waiting.len() {
        if let Some(number) = waiting[index] {
            let variable = VarId {
                solver,
                index: index as u32,
            };
            moves.push((variable, number))?;
        }
    }
    Ok(moves)
}
