//! The terms that were posted, and the id of each.
ghost use Rattle.std.specs.Prelude.{◌≡◌, ◌+◌, ◌≤◌, ◌^◌, ◌∷◌, ◌++◌, [], List, Some, IfOk, OnOk};
ghost use Rattle.cbl_base.specs.declared.limits.TheConstants.{MAX_TERM_NODES};
ghost use Rattle.model_nodes.specs.PostedIds.{ArePostedIds, HasPostedCells};
ghost use Rattle.term_graph.specs.Graphs.{IsGraphOf};
ghost use Rattle.term_count.specs.Numbering.{terms_after};
ghost use Rattle.term_graph.specs.Ids.{HasCells, id_among};
ghost use Rattle.term_model.specs.Posting.{term_posted};
ghost use Rattle.term_model.specs.Subterms.{distinct_subterms, once, subterms_posted};
ghost use Rattle.term_model.specs.declared.model.Posted.{Posted};
ghost use Rattle.term_model.specs.declared.term.Term.{Term};

use cbl_base::{NoMemory, NodeId};
use std::alloc::Global;
use term_graph::Graph;
use term_model::{Model, Posted, Term, term_posted};

/// The nodes of a model's distinct subterms, and in order of posting the id of each term.
#[derive(Drop)]
pub(crate) struct Terms {
    pub(crate) graph: Graph,
    pub(crate) ids: Vec<NodeId>,
}

/// Adds a term, and answers its id.
fn add_term(graph: &mut Graph, term: &Term) -> Result<NodeId, NoMemory>
    requires { HasCells graph.old.cells term.now }
    ensures graph { OnOk result ((ts : List Term) → IsGraphOf graph.old ts →
        IsGraphOf graph.new (terms_after ts term.now)) }
    ensures id { IfOk result (λ id. (ts : List Term) → IsGraphOf graph.old ts →
        id.0 ≡ id_among graph.old.cells (terms_after ts term.now) term.now) }
    ensures cells { graph.new.cells ≡ graph.old.cells }
{
    match graph.add(term) {
        Ok(id) => Ok(id),
        Err(_) => Err(NoMemory),
    }
}

/// Adds the term of what was posted, and answers its id.
fn add_posted(graph: &mut Graph, model: &Model, posted: Posted) -> Result<NodeId, NoMemory>
    requires { HasPostedCells model.now graph.old.cells }
    ensures graph { OnOk result ((so_far : List Posted) →
        IsGraphOf graph.old (once (subterms_posted model.now so_far)) →
        IsGraphOf graph.new (once (subterms_posted model.now (so_far ++ posted ∷ [])))) }
    ensures id { IfOk result (λ id. (so_far : List Posted) (t : Term) →
        IsGraphOf graph.old (once (subterms_posted model.now so_far)) →
        term_posted model.now posted ≡ Some t → id.0 ≡ id_among graph.old.cells
        (once (subterms_posted model.now (so_far ++ posted ∷ []))) t) }
    ensures cells { graph.new.cells ≡ graph.old.cells }
{
    match term_posted(model, posted) {
        Some(term) => add_term(graph, term),
        None => Ok(NodeId(0)),
    }
}

/// The nodes of a model's distinct subterms, behind so many cells, and the id of each posted term.
pub(crate) fn terms_of(alloc: Global, model: &Model, cells: u32) -> Result<Terms, NoMemory>
    requires low { cells + MAX_TERM_NODES ≤ 2 ^ 32 }
    requires cells { HasPostedCells model.now cells }
    ensures cells { IfOk result (λ terms. terms.graph.cells ≡ cells) }
    ensures graph { IfOk result (λ terms. IsGraphOf terms.graph (distinct_subterms model.now)) }
    ensures ids { IfOk result (λ terms.
        ArePostedIds model.now cells model.now.posted.items terms.ids.items) }
{
    let mut graph = Graph::new(alloc, cells);
    let mut ids = Vec::new(alloc);
    for turn in 0..model.posted.len() {
        let id = add_posted(&mut graph, model, model.posted[turn])?;
        ids.push(id)?;
    }
    Ok(Terms { graph, ids })
}
