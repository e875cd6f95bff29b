//! A term is added, with all below it.
ghost use Rattle.std.specs.Prelude.{◌≡◌, ◌<◌, ◌++◌, ◌∷◌, [], false, List, length, take, nat_lt};
ghost use Rattle.std.specs.Prelude.{IfOk, IfErr, is_ok, if◌then◌else◌};
ghost use Rattle.cbl_base.specs.declared.limits.TheConstants.{MAX_TERM_NODES};
ghost use Rattle.term_count.specs.Numbering.{terms_after};
ghost use Rattle.term_graph.specs.Adding.{FitsIn, IsGrown, StandsIn, TakesIn};
ghost use Rattle.term_graph.specs.Graphs.{IsGraphOf, StopsAt, end_of};
ghost use Rattle.term_graph.specs.Ids.{HasCells};
ghost use Rattle.term_graph.specs.declared.stop.GraphStop.TheVariants.{TooMany};
ghost use Rattle.term_model.specs.Subterms.{with_subterm};
ghost use Rattle.term_model.specs.declared.term.Term.{Term};

use crate::codes::{keep_code, names_of};
use crate::graph::Graph;
use crate::node::{Node, node_of};
use crate::stop::GraphStop;
use cbl_base::NodeId;
use cbl_base::limits::MAX_TERM_NODES;
use term_count::{node_code, number_code, set_code};
use term_model::{Op, Term};

/// Whether one node more is within the limit.
fn has_room(count: usize) -> bool
    ensures { result ≡ nat_lt count MAX_TERM_NODES }
{
    count < MAX_TERM_NODES
}

/// Puts a node behind the others, and answers its id.
fn put(graph: &mut Graph, node: Node) -> Result<NodeId, GraphStop>
    ensures cells { graph.new.cells ≡ graph.old.cells }
    ensures codes { graph.new.codes.keys ≡ graph.old.codes.keys }
    ensures nodes { graph.new.nodes.items
        ≡ (if is_ok result then graph.old.nodes.items ++ node ∷ [] else graph.old.nodes.items) }
    ensures id { IfOk result (λ id. id.0 ≡ end_of graph.old) }
    ensures full { IfErr result (λ stop. stop ≡ TooMany →
        nat_lt (length graph.old.nodes.items) MAX_TERM_NODES ≡ false) }
{
    let count = graph.nodes.len();
    if !has_room(count) {
        return Err(GraphStop::TooMany);
    }
    let id = NodeId(graph.cells + count as u32);
    graph.nodes.push(node)?;
    Ok(id)
}

/// Keeps a term whose arguments stand there, unless it is there, and answers its id.
fn keep(
    graph: &mut Graph,
    term: &Term,
    code: Vec<i64>,
    inputs: Vec<NodeId>,
) -> Result<NodeId, GraphStop>
    ensures grown { IsGrown graph.old graph.new }
    ensures below { IfOk result (λ id. id.0 < end_of graph.new) }
    ensures kept { IfOk result (λ id. (ts : List Term) →
        FitsIn graph.old ts term.now code.items inputs.items →
        StandsIn graph.old.cells graph.new (with_subterm ts term.now) term.now id) }
    ensures stop { IfErr result (λ stop. (ts : List Term) →
        FitsIn graph.old ts term.now code.items inputs.items →
        StopsAt (with_subterm ts term.now) stop) }
{
    let place = keep_code(&mut graph.codes, code)?;
    if place < graph.nodes.len() {
        return Ok(NodeId(graph.cells + place as u32));
    }
    let node = node_of(term, inputs)?;
    put(graph, node)
}

/// Keeps an operation of arguments that have these ids.
fn keep_operation(
    graph: &mut Graph,
    term: &Term,
    op: &Op,
    inputs: Vec<NodeId>,
) -> Result<NodeId, GraphStop>
    ensures grown { IsGrown graph.old graph.new }
    ensures below { IfOk result (λ id. id.0 < end_of graph.new) }
    ensures kept { IfOk result (λ id. (ts : List Term) →
        TakesIn graph.old ts term.now op.now inputs.items →
        StandsIn graph.old.cells graph.new (with_subterm ts term.now) term.now id) }
    ensures stop { IfErr result (λ stop. (ts : List Term) →
        TakesIn graph.old ts term.now op.now inputs.items →
        StopsAt (with_subterm ts term.now) stop) }
{
    let names = names_of(graph.alloc, graph.cells, &inputs)?;
    let code = node_code(graph.alloc, op, &names)?;
    keep(graph, term, code, inputs)
}

/// Adds a term with all below it, and answers its id.
pub(crate) fn add_to(graph: &mut Graph, term: &Term) -> Result<NodeId, GraphStop>
    requires { HasCells graph.old.cells term.now }
    ensures grown { IsGrown graph.old graph.new }
    ensures below { IfOk result (λ id. id.0 < end_of graph.new) }
    ensures added { IfOk result (λ id. (ts : List Term) → IsGraphOf graph.old ts →
        StandsIn graph.old.cells graph.new (terms_after ts term.now) term.now id) }
    ensures stop { IfErr result (λ stop. (ts : List Term) → IsGraphOf graph.old ts →
        StopsAt (terms_after ts term.now) stop) }
{
    match term {
        Term::Const(number) => {
            let code = number_code(graph.alloc, number)?;
            keep(graph, term, code, Vec::new(graph.alloc))
        }
        Term::ConstSet(set) => {
            let code = set_code(graph.alloc, set.as_slice())?;
            keep(graph, term, code, Vec::new(graph.alloc))
        }
        Term::Var(var) => Ok(NodeId(var.index)),
        Term::Node { op, args, place: _ } => {
            let mut inputs = Vec::new(graph.alloc);
            for arg in args {
                let id = add_to(graph, arg)?;
                inputs.push(id)?;
            }
            keep_operation(graph, term, op, inputs)
        }
    }
}

/// Leaves the first codes and nodes alone.
pub(crate) fn cut(graph: &mut Graph, codes: usize, nodes: usize)
    ensures cells { graph.new.cells ≡ graph.old.cells }
    ensures codes { graph.new.codes.keys ≡ take codes graph.old.codes.keys }
    ensures nodes { graph.new.nodes.items ≡ take nodes graph.old.nodes.items }
{
    graph.codes.truncate(codes);
    graph.nodes.truncate(nodes);
}
