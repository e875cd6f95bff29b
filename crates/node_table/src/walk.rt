//! A node on its way from state to state, beside what it is to answer.
ghost use Rattle.std.specs.Prelude.{◌≡◌, ◌<◌, ◌^◌, length, IfOk, IsTrue, OnOk};
ghost use Rattle.cbl_base.specs.Changes.{AreChanges, after_changes};
ghost use Rattle.cbl_base.specs.Inputs.{kinds_of};

use crate::answers::{probed_text, told_of_node};
use crate::from_scratch::told_from_scratch;
use crate::given::{givens, inputs_of, read_places};
use crate::subject::{Subject, subject_of};
use crate::zeros::NoZeros;
use cbl_base::{Change, Input, NodeRule};
use cbl_operations::Op;
use node_kinds::{Kind, KindOf};
use node_states::{Places, are_numbers, are_so_many, changes_at, changes_between, takes};
use std::alloc::Global;
use table_file::Stop;
use user_constraint::UserConstraint;

/// How many inputs a node of a table has at most.
const MOST_INPUTS: usize = 1000;

/// How many states a node came to, and what it answered otherwise than it should: nothing.
#[derive(Drop)]
pub(crate) struct Walked {
    pub(crate) states: usize,
    pub(crate) differs: String,
}

impl Walked {
    /// Nothing, since a line isn't in form.
    pub(crate) fn out_of_form(alloc: Global) -> Result<Walked, Stop> {
        Ok(Walked {
            states: 0,
            differs: String::from_str(alloc, "\n  not in form")?,
        })
    }
}

/// What comes of the node that the head names, with the inputs that it begins with, on its way through the
/// rows. The box is for it where it is the user's constraint of that name.
pub(crate) fn walk_of(
    alloc: Global,
    head: &str,
    rows: &str,
    boxed: Box<dyn UserConstraint>,
) -> Result<Walked, Stop> {
    let (named, start) = head.split_once(':').ok_or(Stop::Form)?;
    let named = named.trim();
    let subject = if named == boxed.name() {
        Subject::Boxed
    } else {
        subject_named(alloc, named)?
    };
    let start = givens(alloc, start)?;
    let start = inputs_of(alloc, start.as_slice())?;
    walk_of_subject(alloc, &subject, start, rows, boxed)
}

/// What a name and what is kept beside it name.
fn subject_named(alloc: Global, named: &str) -> Result<Subject, Stop> {
    let (name, kept) = named.split_once(' ').unwrap_or((named, ""));
    let kept = givens(alloc, kept)?;
    subject_of(alloc, name, kept.as_slice())
}

fn walk_of_subject(
    alloc: Global,
    subject: &Subject,
    start: Vec<Input>,
    rows: &str,
    boxed: Box<dyn UserConstraint>,
) -> Result<Walked, Stop> {
    match subject {
        Subject::Operation(op) if takes(op, start.as_slice()) => {
            follow(alloc, Kind::of(alloc, op, None)?, subject, start, rows)
        }
        Subject::Constant(value) if start.is_empty() => {
            let node = Kind::constant(value.clone()?);
            follow(alloc, node, subject, start, rows)
        }
        Subject::Total(members) if are_so_many(start.as_slice(), *members as usize * 2) => {
            follow(alloc, Kind::total(alloc, *members), subject, start, rows)
        }
        Subject::Repeat if are_so_many(start.as_slice(), 1) => {
            follow(alloc, Kind::repeat(alloc), subject, start, rows)
        }
        Subject::NoZeros if are_numbers(start.as_slice()) => {
            let op = Op::User { number: 0 };
            let node = KindOf::of(alloc, &op, Some(NoZeros::new(alloc)))?;
            follow(alloc, node, subject, start, rows)
        }
        Subject::Boxed if are_numbers(start.as_slice()) => {
            let op = Op::User { number: 0 };
            let node = Kind::of(alloc, &op, Some(boxed))?;
            follow(alloc, node, subject, start, rows)
        }
        _ => Err(Stop::Form),
    }
}

/// The node begins with these inputs, and comes to each row in turn.
fn follow<N: NodeRule>(
    alloc: Global,
    node: N,
    subject: &Subject,
    start: Vec<Input>,
    rows: &str,
) -> Result<Walked, Stop>
    requires takes { IsTrue ((N.rule node).takes (kinds_of start.items)) }
{
    let mut node = node;
    node.reset(start.as_slice())?;
    let mut held = start;
    let mut differs = String::new(alloc);
    let mut states = 0usize;
    for row in rows.lines() {
        let (front, want) = row.split_once('=').ok_or(Stop::Form)?;
        let (places, state) = places_and_state(front);
        let to = givens(alloc, state)?;
        let to = inputs_of(alloc, to.as_slice())?;
        let changes = changes_to(alloc, held.as_slice(), to.as_slice(), places)?;
        if held.len() != to.len() || to.len() > MOST_INPUTS {
            return Err(Stop::Form);
        }
        let way = Way {
            from: held.as_slice(),
            to: to.as_slice(),
            changes: changes.as_slice(),
        };
        let line = step(alloc, &mut node, subject, &way, want.trim())?;
        differs.push_str(line.as_str())?;
        states = states.saturating_add(1);
        held = to;
    }
    Ok(Walked { states, differs })
}

/// A state, and in front of it the places that change, where a row names them.
fn places_and_state(front: &str) -> (Option<&str>, &str) {
    match front.split_once('>') {
        Some((places, state)) => (Some(places), state),
        None => (None, front),
    }
}

/// The changes to a state: at the places that the row names, in their order, and else among numbers alone
/// where they differ, and among others at all places.
fn changes_to(
    alloc: Global,
    held: &[Input],
    to: &[Input],
    places: Option<&str>,
) -> Result<Vec<Change>, Stop>
    ensures changes { IfOk result (λ changes. AreChanges held.now changes.items) }
    ensures after { IfOk result (λ changes. after_changes held.now changes.items ≡ to.now) }
{
    let found = match places {
        Some(places) => {
            let places = read_places(alloc, places)?;
            changes_at(alloc, held, to, places.as_slice())?
        }
        None => {
            let places = if are_numbers(held) {
                Places::Differing
            } else {
                Places::All
            };
            changes_between(alloc, held, to, places)?
        }
    };
    found.ok_or(Stop::Form)
}

/// From the inputs that a node holds to others.
#[derive(Clone, Copy)]
struct Way<'a> {
    from: &'a [Input],
    to: &'a [Input],
    changes: &'a [Change],
}

/// Makes the changes. The node is asked before, while they are probed, and when they are made.
fn step<N: NodeRule>(
    alloc: Global,
    node: &mut N,
    subject: &Subject,
    way: &Way<'_>,
    want: &str,
) -> Result<String, Stop>
    requires ready { N.ready node.old }
    requires held { N.held node.old ≡ way.now.from.now }
    requires few { length way.now.from.now < 2 ^ 32 }
    requires few_then { length way.now.to.now < 2 ^ 32 }
    requires changes { AreChanges way.now.from.now way.now.changes.now }
    requires after { after_changes way.now.from.now way.now.changes.now ≡ way.now.to.now }
    ensures ready { OnOk result (N.ready node.new) }
    ensures held { OnOk result (N.held node.new ≡ way.now.to.now) }
{
    let meant_before = told_from_scratch(alloc, subject, way.from)?.whole;
    let before = told_of_node(alloc, node, way.from.len())?.whole;
    let probed = probed_text(alloc, node.probe(way.changes))?;
    let still = told_of_node(alloc, node, way.from.len())?.whole;
    node.apply(way.changes)?;
    let after = told_of_node(alloc, node, way.to.len())?.whole;
    let meant = told_from_scratch(alloc, subject, way.to)?;
    let stays = meant_before == before && before == still;
    let comes = meant.value == probed && meant.whole == after && after.as_str() == want;
    if stays && comes {
        return Ok(String::new(alloc));
    }
    Ok(format!(in alloc;
        "\n  wanted {want}: the node gives {after}, probed {probed}, from scratch {}; before {before}, {still}, from scratch {meant_before}",
        meant.whole
    )?)
}
