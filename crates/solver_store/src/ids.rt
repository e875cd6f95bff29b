//! The ids of a model's terms, for what is kept of the violations of its variables.
ghost use Rattle.std.specs.Prelude.{◌≡◌, ◌<◌, ◌^◌, length, IfOk};
ghost use Rattle.graph_values.specs.Graphs.{id_of};
ghost use Rattle.graph_values.specs.Members.{cells_of};
ghost use Rattle.store_shares.specs.Made.{IsSharesOf};
ghost use Rattle.term_graph.specs.Graphs.{IsGraphOf};
ghost use Rattle.term_model.specs.Definitions.{IsAcyclic};
ghost use Rattle.term_model.specs.Subterms.{distinct_subterms};
ghost use Rattle.term_model.specs.Wellformed.{IsWellFormed};

use cbl_base::NoMemory;
use std::alloc::Global;
use store_shares::{Ids, Shares};
use term_graph::Graph;
use term_model::{Model, Term};

/// Who tells the ids of a model's terms.
#[derive(Drop)]
struct ModelIds<'a> {
    graph: Graph,
    model: &'a Model,
}

impl<'a> Ids for ModelIds<'a> {
    ghost use Rattle.std.specs.Prelude.{◌≡◌};
    ghost use Rattle.graph_values.specs.Graphs.{id_of as id_of_term};
    ghost use Rattle.graph_values.specs.Members.{cells_of};
    ghost use Rattle.solver_store.specs.Reads.{is_held};
    ghost use Rattle.term_graph.specs.Graphs.{IsGraphOf};
    ghost use Rattle.term_model.specs.Subterms.{distinct_subterms};
    ghost use Rattle.term_model.specs.Wellformed.{IsWellFormed};

    ghost id_of = { λ i t. id_of_term i.model.now t };

    ghost knows = { λ i t. is_held i.model.now t };

    ghost is_ready = { λ i. IsWellFormed i.model.now × IsGraphOf i.graph (distinct_subterms i.model.now) × (i.graph.cells ≡ cells_of i.model.now) };

    fn id(&mut self, term: &Term) -> Result<u32, NoMemory> {
        match self.graph.add(term) {
            Ok(id) => Ok(id.0),
            Err(_) => Err(NoMemory),
        }
    }
}

/// What is kept of a model for the violations of its variables, from the graph of its terms.
pub(crate) fn shares_of(alloc: Global, model: &Model, graph: Graph) -> Result<Shares, NoMemory>
    requires formed { IsWellFormed model.now }
    requires acyclic { IsAcyclic model.now }
    requires few { length model.now.vars.items < 2 ^ 32 }
    requires graph { IsGraphOf graph (distinct_subterms model.now) }
    requires cells { graph.cells ≡ cells_of model.now }
    ensures { IfOk result (λ shares. IsSharesOf model.now (id_of model.now) shares) }
{
    let mut ids = ModelIds { graph, model };
    Shares::new(alloc, model, &mut ids)
}
