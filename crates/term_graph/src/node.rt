//! What is kept of a distinct subterm.
ghost use Rattle.std.specs.Prelude.{◌≡◌, IfOk};
ghost use Rattle.term_graph.specs.Heads.{IsHeadOf, IsPlaceOf};
ghost use Rattle.term_graph.specs.declared.head.Head.TheVariants.{ConstSet, Op as Operation};

use crate::head::Head;
use cbl_base::{IntSet, NoMemory, NodeId, Place};
use term_model::{Op, Term};

/// What is kept of a distinct subterm: what it computes, where it stands in the text, and the ids of its arguments.
#[derive(Drop)]
pub struct Node {
    pub head: Head,
    pub place: Place,
    pub inputs: Vec<NodeId>,
}

/// No place.
const NOWHERE: Place = Place { line: 0, col: 0 };

/// The head of a set.
fn set_head(set: &IntSet) -> Result<Head, NoMemory>
    ensures { IfOk result (λ head. head ≡ ConstSet set.now) }
{
    Ok(Head::ConstSet(set.clone()?))
}

/// The head of an operation.
fn operation_head(op: &Op) -> Result<Head, NoMemory>
    ensures { IfOk result (λ head. head ≡ Operation op.now) }
{
    Ok(Head::Op(op.clone()?))
}

/// The head of a term, which is of no use where the term is a variable.
fn head_of(term: &Term) -> Result<Head, NoMemory>
    ensures { IfOk result (λ head. IsHeadOf term.now head) }
{
    match term {
        Term::Const(number) => Ok(Head::Const(*number)),
        Term::ConstSet(set) => set_head(set),
        Term::Var(_) => Ok(Head::Const(0)),
        Term::Node {
            op,
            args: _,
            place: _,
        } => operation_head(op),
    }
}

/// The place of a term, which is of no use where the term is no operation.
fn place_of(term: &Term) -> Place
    ensures { IsPlaceOf term.now result }
{
    match term {
        Term::Node {
            op: _,
            args: _,
            place,
        } => *place,
        _ => NOWHERE,
    }
}

/// What is kept of a term whose arguments have these ids.
pub(crate) fn node_of(term: &Term, inputs: Vec<NodeId>) -> Result<Node, NoMemory>
    ensures head { IfOk result (λ node. IsHeadOf term.now node.head) }
    ensures place { IfOk result (λ node. IsPlaceOf term.now node.place) }
    ensures inputs { IfOk result (λ node. node.inputs ≡ inputs) }
{
    let head = head_of(term)?;
    Ok(Node {
        head,
        place: place_of(term),
        inputs,
    })
}
