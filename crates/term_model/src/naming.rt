//! Whether numbers name each thing of a kind once: the definitions that were posted, and the users' constraints.
ghost use Rattle.std.specs.Prelude.{◌≡◌, ◌++◌, [], ◌∷◌, IfOk, OnOk, filter_map, length};
ghost use Rattle.std.specs.Bool.{OnTrue};
ghost use Rattle.std.specs.List.{list_all};
ghost use Rattle.term_model.specs.Depth.{depth_of};
ghost use Rattle.term_model.specs.Naming.{AreMarked, IsMarkedFirst, NamesEachOnce, users_of, users_posted, users_where, user_number};
ghost use Rattle.term_model.specs.Posting.{define_number, term_posted};

use crate::model::{Model, Posted};
use crate::posting::term_posted;
use crate::term::Term;
use cbl_base::NoMemory;
use cbl_operations::Op;
use std::alloc::Global;

/// Marks a number, unless it is marked already or isn't one of those below the count.
fn mark(marks: &mut Vec<bool>, number: u32) -> bool
    ensures length { length marks.new.items ≡ length marks.old.items }
    ensures marked { OnTrue result (IsMarkedFirst marks.old.items marks.new.items number) }
{
    let place = number as usize;
    if place >= marks.len() {
        return false;
    }
    if marks[place] {
        return false;
    }
    marks[place] = true;
    true
}

/// Whether all are marked.
fn are_all_marked(marks: &[bool]) -> bool
    ensures { result ≡ list_all (λ mark. mark) marks.now }
{
    marks.iter().all(|mark| *mark)
}

/// Whether the numbers are those below the count, each once and in any order.
#[tactic(auto, using(crate::proofs::NamingLaws::marked_none))]
fn names_each_once(alloc: Global, numbers: &[u32], count: usize) -> Result<bool, NoMemory>
    ensures { IfOk result (λ is. OnTrue is (NamesEachOnce numbers.now count)) }
{
    let mut marks = vec![in alloc; false; count]?;
    for number in numbers {
        if !mark(&mut marks, *number) {
            return Ok(false);
        }
    }
    Ok(are_all_marked(&marks))
}

/// The number of a definition that was posted, behind those in the list.
fn push_define(posted: Posted, into: &mut Vec<u32>) -> Result<(), NoMemory>
    ensures { OnOk result (into.new.items ≡
        into.old.items ++ filter_map define_number (posted ∷ [])) }
{
    match posted {
        Posted::Define(number) => Ok(into.push(number)?),
        _ => Ok(()),
    }
}

/// The numbers of the definitions that were posted.
fn define_numbers(alloc: Global, model: &Model) -> Result<Vec<u32>, NoMemory>
    ensures { IfOk result (λ v. v.items ≡ filter_map define_number model.now.posted.items) }
{
    let mut numbers = Vec::new(alloc);
    for turn in 0..model.posted.len() {
        push_define(model.posted[turn], &mut numbers)?;
    }
    Ok(numbers)
}

/// Whether each definition was posted once, and no other.
pub(crate) fn are_defined_once(alloc: Global, model: &Model) -> Result<bool, NoMemory>
    ensures { IfOk result (λ is. OnTrue is
        (NamesEachOnce (filter_map define_number model.now.posted.items)
        (length model.now.defs.items))) }
{
    let numbers = define_numbers(alloc, model)?;
    names_each_once(alloc, &numbers, model.defs.len())
}

/// Puts the number of a user's constraint behind those in the list.
fn push_user(op: &Op, into: &mut Vec<u32>) -> Result<(), NoMemory>
    ensures { OnOk result (into.new.items ≡ into.old.items ++ user_number op.now) }
{
    match op {
        Op::User { number } => Ok(into.push(*number)?),
        _ => Ok(()),
    }
}

/// Puts the numbers of the users' constraints in a term, in post-order, behind those in the list.
pub fn push_users(term: &Term, into: &mut Vec<u32>) -> Result<(), NoMemory>
    ensures { OnOk result (into.new.items ≡ into.old.items ++ users_of term.now) }
{
    match term {
        Term::Const(_) => Ok(()),
        Term::ConstSet(_) => Ok(()),
        Term::Var(_) => Ok(()),
        Term::Node { op, args, place: _ } => {
            for arg in args {
                push_users(arg, into)?;
            }
            push_user(op, into)
        }
    }
}

/// Puts the numbers of the users' constraints in what was posted behind those in the list.
fn push_users_posted(model: &Model, posted: Posted, into: &mut Vec<u32>) -> Result<(), NoMemory>
    ensures { OnOk result (into.new.items ≡
        into.old.items ++ users_where (term_posted model.now posted)) }
{
    match term_posted(model, posted) {
        Some(term) => push_users(term, into),
        None => Ok(()),
    }
}

/// The numbers of the users' constraints in all that was posted.
fn user_numbers(alloc: Global, model: &Model) -> Result<Vec<u32>, NoMemory>
    ensures { IfOk result (λ v. v.items ≡ users_posted model.now model.now.posted.items) }
{
    let mut numbers = Vec::new(alloc);
    for turn in 0..model.posted.len() {
        push_users_posted(model, model.posted[turn], &mut numbers)?;
    }
    Ok(numbers)
}

/// Whether the users' constraints have each number below their count once.
pub(crate) fn are_users_once(alloc: Global, model: &Model) -> Result<bool, NoMemory>
    ensures { IfOk result (λ is. OnTrue is
        (NamesEachOnce (users_posted model.now model.now.posted.items)
        (length (users_posted model.now model.now.posted.items)))) }
{
    let numbers = user_numbers(alloc, model)?;
    names_each_once(alloc, &numbers, numbers.len())
}
