//! What holds of a store over a model's graph, whatever the model's terms are.
ghost use Rattle.std.specs.Prelude.{◌≡◌, ◌+◌, ◌<◌, ◌≤◌, ℕ, ℤ, true, List, Ok, Some, Vec, length};
ghost use Rattle.std.specs.Prelude.{slice_get};
ghost use Rattle.std.specs.declared.alloc.Global.{Global};
ghost use Rattle.cbl_base.specs.NodeLaw.{Rule};
ghost use Rattle.cbl_base.specs.NumberRule.{NumberRule};
ghost use Rattle.cbl_base.specs.declared.faults.RunFault.{RunFault};
ghost use Rattle.cbl_base.specs.declared.ids.NodeId.{NodeId};
ghost use Rattle.cbl_base.specs.declared.input.Input.{Input};
ghost use Rattle.graph_values.specs.Graphs.{HoldsTerms, count_of, model_graph, value_by};
ghost use Rattle.graph_values.specs.LeastFaults.{IsLeast, IsLeastFailure, least_failure};
ghost use Rattle.graph_values.specs.Links.{AreAssigned, AreLinks, AreModelLinks, AreTakers, IsModelStop, value_of_head};
ghost use Rattle.graph_values.specs.Members.{cells_of, numbers_of};
ghost use Rattle.graph_values.specs.Outcomes.{HasLayers, IsGiven, MeansFresh, fresh_at};
ghost use Rattle.graph_values.specs.Taken.{AreTaken};
ghost use Rattle.graph_values.specs.Totals.{HoldsModel, IsFaultAt, IsRepeat, MeansRepeats, MeansTotals, values_at};
ghost use Rattle.graph_values.specs.WholeGraphs.{first_repeat, total_id, whole_graph};
ghost use Rattle.model_values.specs.Failures.{fails};
ghost use Rattle.model_values.specs.Fresh.{fresh_of};
ghost use Rattle.model_values.specs.VarOutcomes.{outcome_of_var};
ghost use Rattle.model_values.specs.declared.failure.Failure.{Failure};
ghost use Rattle.model_values.specs.declared.wholes.Whole.{Whole};
ghost use Rattle.model_values.specs.declared.wholes.Whole.TheVariants.{Objective};
ghost use Rattle.store_build.specs.Aims.{Takes, graph_over, start_of};
ghost use Rattle.store_build.specs.Frames.{cell_of};
ghost use Rattle.store_build.specs.Kept.{IsKept};
ghost use Rattle.store_build.specs.Stops.{FailsFirst, IsStop};
ghost use Rattle.store_build.specs.declared.parts.StoreFault.{StoreFault};
ghost use Rattle.store_turns.specs.Meaning.{AreLayers, Graph, IsMeaning, graph_of};
ghost use Rattle.store_turns.specs.declared.frame.Frame.{Frame};
ghost use Rattle.store_turns.specs.declared.outcome.Outcome.{Outcome};
ghost use Rattle.store_turns.specs.declared.outcome.Outcome.TheVariants.{Value};
ghost use Rattle.term_graph.specs.Heads.{head_of};
ghost use Rattle.term_graph.specs.declared.head.Head.{Head};
ghost use Rattle.term_model.specs.Definitions.{IsAcyclic};
ghost use Rattle.term_model.specs.Subterms.{distinct_subterms};
ghost use Rattle.term_model.specs.Users.{user_rules};
ghost use Rattle.term_model.specs.Wellformed.{HasDefinedSets, IsWellFormed};
ghost use Rattle.term_model.specs.declared.model.Model.{Model};
ghost use Rattle.term_model.specs.declared.term.Term.{Term};
ghost use Rattle.term_model.specs.declared.term.Term.TheViews.{out-Term};

/// What the ids of a model's graph come to is what evaluating the model afresh gives. The ids of a well
/// formed, acyclic model can be laid in layers; fresh values are a meaning of its graph; and in each graph
/// that holds the model's terms they are the only one.
pub fn fresh_values_law()
    ensures layers { (users : ℕ → NumberRule) (M : Model) →
        IsWellFormed M → IsAcyclic M → HasLayers users M }
    ensures meaning { (users : ℕ → NumberRule) (M : Model) (a : List ℤ) → IsGiven M a →
        IsMeaning (model_graph users M) (start_of (numbers_of M a)) (fresh_at users M a) }
    ensures values { (users : ℕ → NumberRule) (M : Model) (a : List ℤ) (g : Graph) → IsGiven M a →
        HoldsTerms users M g → MeansFresh users M a g }
{}

/// Where a subterm of a model fails, the node of the least numbered one that does is the least id of the
/// graph whose own operation fails though all its inputs have values, with the same fault, at the same place.
/// Where such an id is that of a variable or a subterm, a subterm fails, and it is that of the least numbered
/// one. And no failing subterm stands before such an id.
pub fn least_fault_law()
    ensures there { (users : ℕ → NumberRule) (M : Model) (a : List ℤ) (g : Graph) →
        IsGiven M a → HoldsTerms users M g →
        (o : ℕ → Outcome) → IsMeaning g (start_of (numbers_of M a)) o →
        (failure : Failure) → least_failure users M a ≡ Some failure →
        (id : ℕ) × IsLeast M a g id failure }
    ensures only { (users : ℕ → NumberRule) (M : Model) (a : List ℤ) (g : Graph) →
        IsGiven M a → HoldsTerms users M g →
        (id : ℕ) (fault : RunFault) → FailsFirst g (start_of (numbers_of M a)) id fault → id < count_of M →
        IsLeastFailure users M a id fault }
    ensures least { (users : ℕ → NumberRule) (M : Model) (a : List ℤ) (g : Graph) →
        IsGiven M a → HoldsTerms users M g →
        (id : ℕ) (fault : RunFault) → FailsFirst g (start_of (numbers_of M a)) id fault →
        (k : ℕ) (t : Term) → slice_get (distinct_subterms M) k ≡ Some t →
        fails users (outcome_of_var users M a) t ≡ true → id ≤ cells_of M + k }
{}

/// The graph of a model with its totals holds the model, has a repeat of each objective's total, and can be
/// laid in layers where the model is acyclic. In each graph that holds a model, the node of each system and
/// objective comes to its total, as the model says, and a node that repeats it to the same number, or nothing.
pub fn totals_law()
    ensures whole { (users : ℕ → NumberRule) (M : Model) →
        HoldsModel users M (whole_graph users M) (total_id M) }
    ensures again { (users : ℕ → NumberRule) (M : Model) (k : ℕ) → k < length M.objectives.items →
        IsRepeat (whole_graph users M) (first_repeat M + k) (total_id M (Objective k)) }
    ensures layers { (users : ℕ → NumberRule) (M : Model) → IsWellFormed M → IsAcyclic M →
        (layer : ℕ → ℕ) × AreLayers (whole_graph users M) layer }
    ensures totals { (users : ℕ → NumberRule) (M : Model) (a : List ℤ) (g : Graph) (total : Whole → ℕ) →
        IsGiven M a → HoldsModel users M g total → MeansTotals users M a g total }
    ensures repeats { (users : ℕ → NumberRule) (M : Model) (a : List ℤ) (g : Graph) (total : Whole → ℕ) →
        IsGiven M a → HoldsModel users M g total → MeansRepeats users M a g total }
{}

/// Where all ids of a graph that holds a model have values, these are the model's. Where one fails, the
/// model has a fault: that of the least failing id, at the place of its subterm, or where its system or
/// objective was declared.
pub fn model_law()
    ensures values { (users : ℕ → NumberRule) (M : Model) (a : List ℤ) (g : Graph) →
        (total : Whole → ℕ) → IsGiven M a → HoldsModel users M g total →
        (x : ℕ → Input) → IsMeaning g (start_of (numbers_of M a)) (λ id. Value (x id)) →
        fresh_of users M a ≡ Ok (values_at M total x) }
    ensures fault { (users : ℕ → NumberRule) (M : Model) (a : List ℤ) (g : Graph) →
        (total : Whole → ℕ) → IsGiven M a → HoldsModel users M g total →
        (id : ℕ) (fault : RunFault) → FailsFirst g (start_of (numbers_of M a)) id fault →
        IsFaultAt users M a total id fault }
{}

/// What a store is given for a model holds the model's terms, where a subterm's rule gives what its head
/// says, and all of the model with its totals. A store that can be used and holds a model, whose free cells
/// hold the numbers of an assignment, has the model's values; and the fault by which one isn't built, or a
/// commit ends it, is the model's.
pub fn store_law()
    ensures heads { (users : ℕ → NumberRule) (t : Term) (head : Head) (xs : List Input) →
        head_of t ≡ Some head → value_by users (out-Term t) xs ≡ value_of_head users head xs }
    ensures links { (users : ℕ → NumberRule) (M : Model) (rules : List Rule) →
        (inputs : List (Vec NodeId Global)) → AreLinks users M rules inputs →
        HoldsTerms users M (graph_over rules (cells_of M) inputs) }
    ensures model { (users : ℕ → NumberRule) (M : Model) (rules : List Rule) →
        (inputs : List (Vec NodeId Global)) (total : Whole → ℕ) → AreModelLinks users M rules inputs total →
        HoldsModel users M (graph_over rules (cells_of M) inputs) total }
    ensures values { (users : ℕ → NumberRule) (M : Model) (a : List ℤ) (total : Whole → ℕ) →
        (rules : List Rule) (helds : List (List Input)) (frame : Frame) (cells : List Input) →
        IsGiven M a → HoldsModel users M (graph_of rules frame) total →
        IsKept rules helds frame cells →
        AreAssigned (graph_of rules frame) (numbers_of M a) (cell_of cells) →
        fresh_of users M a ≡ Ok (values_at M total (cell_of cells)) }
    ensures stop { (users : ℕ → NumberRule) (M : Model) (a : List ℤ) (total : Whole → ℕ) →
        (g : Graph) (free : ℕ → Input) → IsGiven M a → HoldsModel users M g total →
        AreAssigned g (numbers_of M a) free → (stop : StoreFault) → IsStop g free stop →
        IsModelStop users M a total stop }
{}

/// In a graph that holds a model whose free variables are numbers, the node of each subterm, of each total and
/// of each repeat of a total takes what its inputs come to, where all have values. So where the rules take what
/// these do, what a store is given for the model is such that one may be built of it.
pub fn taken_law()
    ensures nodes { (viol_of : ℕ → List ℤ → ℤ) (viol_at : ℕ → List ℤ → ℕ → ℤ) (M : Model) (a : List ℤ) →
        IsGiven M a → HasDefinedSets M → (g : Graph) (total : Whole → ℕ) →
        HoldsModel (user_rules viol_of viol_at) M g total →
        (o : ℕ → Outcome) → IsMeaning g (start_of (numbers_of M a)) o →
        AreTaken (user_rules viol_of viol_at) M g total o }
    ensures rules { (viol_of : ℕ → List ℤ → ℤ) (viol_at : ℕ → List ℤ → ℕ → ℤ) (M : Model) (a : List ℤ) →
        IsGiven M a → HasDefinedSets M →
        (rules : List Rule) (inputs : List (Vec NodeId Global)) (total : Whole → ℕ) →
        AreModelLinks (user_rules viol_of viol_at) M rules inputs total →
        AreTakers (user_rules viol_of viol_at) M rules inputs total →
        (o : ℕ → Outcome) → IsMeaning (graph_over rules (cells_of M) inputs) (start_of (numbers_of M a)) o →
        Takes rules (cells_of M) inputs o }
{}
