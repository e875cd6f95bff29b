//! What holds of the nodes and inputs of a model.
ghost use Rattle.std.specs.Prelude.{ℕ, List, Vec};
ghost use Rattle.std.specs.declared.alloc.Global.{Global};
ghost use Rattle.cbl_base.specs.NodeLaw.{Rule};
ghost use Rattle.cbl_base.specs.NumberRule.{NumberRule};
ghost use Rattle.cbl_base.specs.declared.ids.NodeId.{NodeId};
ghost use Rattle.graph_values.specs.Links.{AreModelLinks, AreTakers};
ghost use Rattle.graph_values.specs.Members.{cells_of};
ghost use Rattle.graph_values.specs.WholeGraphs.{total_id};
ghost use Rattle.model_nodes.specs.WholeNodes.{AreWholeNodes};
ghost use Rattle.store_build.specs.Aims.{graph_over};
ghost use Rattle.store_laws.specs.ModelTouch.{IsWhole};
ghost use Rattle.term_model.specs.declared.model.Model.{Model};

/// What has the rules and the inputs of a model's nodes is the graph of the model with its totals, in size,
/// inputs, free cells and operations; it links the nodes as a store of the model asks, and each rule takes
/// what its part of the model takes.
pub fn nodes_law()
    ensures graph { (users : ℕ → NumberRule) (M : Model) (rules : List Rule) →
        (lists : List (Vec NodeId Global)) → AreWholeNodes users M rules lists →
        IsWhole users M (graph_over rules (cells_of M) lists) }
    ensures links { (users : ℕ → NumberRule) (M : Model) (rules : List Rule) →
        (lists : List (Vec NodeId Global)) → AreWholeNodes users M rules lists →
        AreModelLinks users M rules lists (total_id M) }
    ensures takers { (users : ℕ → NumberRule) (M : Model) (rules : List Rule) →
        (lists : List (Vec NodeId Global)) → AreWholeNodes users M rules lists →
        AreTakers users M rules lists (total_id M) }
{}
