//! What holds of trials over a graph that holds a model.
ghost use Rattle.std.specs.Prelude.{◌≡◌, ◌<◌, ◌+◌, ℕ, ℤ, Bool, true, false, List, Ok, Some, Result, length, slice_get};
ghost use Rattle.cbl_base.specs.NumberRule.{NumberRule};
ghost use Rattle.cbl_base.specs.declared.faults.RunFault.{RunFault};
ghost use Rattle.cbl_base.specs.declared.ids.NodeId.{NodeId};
ghost use Rattle.cbl_base.specs.declared.ids.VarId.{VarId};
ghost use Rattle.cbl_base.specs.declared.input.Input.{Input};
ghost use Rattle.cbl_base.specs.declared.input.Input.TheVariants.{Int};
ghost use Rattle.graph_values.specs.Members.{cells_of, numbers_of};
ghost use Rattle.graph_values.specs.Links.{AreAssigned};
ghost use Rattle.graph_values.specs.Outcomes.{IsGiven};
ghost use Rattle.graph_values.specs.Totals.{HoldsModel};
ghost use Rattle.graph_values.specs.WholeGraphs.{total_id};
ghost use Rattle.model_values.specs.Delta.{delta_of, moves_defined, value_of};
ghost use Rattle.model_values.specs.Support.{stands_on};
ghost use Rattle.model_values.specs.Wholes.{IsOf};
ghost use Rattle.model_values.specs.declared.deltas.Move.{Move};
ghost use Rattle.model_values.specs.declared.wholes.Whole.{Whole};
ghost use Rattle.store_laws.specs.Deltas.{HasFreeCells, IsFailureAt, IsMoveOf, IsProper, IsTarget};
ghost use Rattle.store_laws.specs.Deltas.{IsTold};
ghost use Rattle.store_laws.specs.ModelTouch.{AreUses, IsWhole, model_touch};
ghost use Rattle.store_laws.specs.Standing.{IsBelow, IsVarBelow};
ghost use Rattle.store_build.specs.Aims.{start_of};
ghost use Rattle.store_turns.specs.Cones.{StandsOn};
ghost use Rattle.store_turns.specs.Meaning.{Graph, IsMeaning};
ghost use Rattle.store_turns.specs.Touch.{differs, touch};
ghost use Rattle.store_turns.specs.declared.outcome.Outcome.{Outcome};
ghost use Rattle.store_turns.specs.declared.outcome.Outcome.TheVariants.{Value};
ghost use Rattle.term_model.specs.Definitions.{IsAcyclic};
ghost use Rattle.term_model.specs.Subterms.{distinct_subterms};
ghost use Rattle.term_model.specs.Wellformed.{IsWellFormed};
ghost use Rattle.term_model.specs.declared.model.Model.{Model};
ghost use Rattle.term_model.specs.declared.term.Term.{Term};
ghost use Rattle.trial.specs.Differences.{FailsBelow};
ghost use Rattle.trial.specs.Parts.{TellsApart};
ghost use Rattle.trial.specs.declared.fault.DifferenceFault.{DifferenceFault};

/// In a graph that holds a model, a total stands on the nodes of exactly those subterms on which its system or
/// objective stands, and on the cells of exactly those variables on which a member depends. What else it
/// stands on is itself and its weights.
pub fn standing_law()
    ensures below { (users : ℕ → NumberRule) (M : Model) (g : Graph) (total : Whole → ℕ) →
        IsWellFormed M → IsAcyclic M → HoldsModel users M g total →
        (whole : Whole) → IsOf M whole → (id : ℕ) → StandsOn g.inputs (total whole) id →
        IsBelow M g whole (total whole) id }
    ensures subterms { (users : ℕ → NumberRule) (M : Model) (g : Graph) (total : Whole → ℕ) →
        IsWellFormed M → IsAcyclic M → HoldsModel users M g total →
        (whole : Whole) → IsOf M whole → (k : ℕ) (t : Term) →
        slice_get (distinct_subterms M) k ≡ Some t → stands_on M whole t ≡ true →
        StandsOn g.inputs (total whole) (cells_of M + k) }
    ensures vars { (users : ℕ → NumberRule) (M : Model) (g : Graph) (total : Whole → ℕ) →
        IsWellFormed M → IsAcyclic M → HoldsModel users M g total →
        (whole : Whole) → IsOf M whole → (i : ℕ) → IsVarBelow M whole i →
        StandsOn g.inputs (total whole) i }
{}

/// In a graph that holds a model, the number to which the total of a system or an objective comes, or a node
/// that repeats it, is what it comes to in the model. Where an id on which that stands fails, it comes to a
/// failure: that of the least such id, at its place. So the least failing id below is that of the least
/// numbered failing subterm on which it stands, or where its members have values its own total's.
pub fn failure_law()
    ensures value { (users : ℕ → NumberRule) (M : Model) (a : List ℤ) (g : Graph) (total : Whole → ℕ) →
        IsGiven M a → HoldsModel users M g total → (free : ℕ → Input) → AreAssigned g (numbers_of M a) free →
        (whole : Whole) → IsOf M whole → (target : ℕ) → IsTarget g total whole target →
        (o : ℕ → Outcome) → IsMeaning g free o → (x : ℤ) → o target ≡ Value (Int x) →
        value_of users M a whole ≡ Ok x }
    ensures failure { (users : ℕ → NumberRule) (M : Model) (a : List ℤ) (g : Graph) (total : Whole → ℕ) →
        IsGiven M a → HoldsModel users M g total → (free : ℕ → Input) → AreAssigned g (numbers_of M a) free →
        (whole : Whole) → IsOf M whole → (target : ℕ) → IsTarget g total whole target →
        (o : ℕ → Outcome) → IsMeaning g free o →
        (id : ℕ) (fault : RunFault) → FailsBelow g o target id fault →
        IsFailureAt users M a total whole id fault }
{}

/// In a graph that holds a model, and whose free cells hold the numbers of an assignment, what a trial tells
/// of a move of free variables at the total of a system or an objective, or at a node that repeats it, is the
/// model's delta of the move: the same number; or the same fault, at the node's place in the model; or that of
/// the difference.
pub fn delta_law()
    ensures { (users : ℕ → NumberRule) (M : Model) (a : List ℤ) (g : Graph) (total : Whole → ℕ) →
        IsGiven M a → HoldsModel users M g total → HasFreeCells M g →
        (free : ℕ → Input) → AreAssigned g (numbers_of M a) free →
        (whole : Whole) → IsOf M whole → (target : ℕ) → IsTarget g total whole target →
        (change : Move) → IsProper M change → moves_defined M change ≡ false →
        (ms : List (VarId × ℤ)) → IsMoveOf a change ms →
        (uses : ℕ → List (NodeId × ℕ)) (result : Result ℤ DifferenceFault) (base steps : ℕ) →
        TellsApart g uses free ms target result base steps →
        IsTold M total (delta_of users M a whole change) result }
{}

/// In the graph of a model with its totals, and in one that is the same, all of whose ids have values now, what
/// a change touches is what it touches of the model's own variables, weights, distinct subterms, totals and
/// repeats. The change is a move, or also one to another model with the same graph, as by a weight that is set.
pub fn touch_law()
    ensures { (users : ℕ → NumberRule) (M N : Model) (g : Graph) → IsWhole users M g → IsWhole users N g →
        (a b : List ℤ) → IsGiven M a → IsGiven N b →
        (before : ℕ → Input) → IsMeaning g (start_of (numbers_of M a)) (λ j. Value (before j)) →
        (o : ℕ → Outcome) → IsMeaning g (start_of (numbers_of N b)) o →
        (uses : ℕ → List (NodeId × ℕ)) → AreUses g uses → (moved : ℕ → Bool) →
        touch moved (λ j. differs (o j) (before j)) g.inputs uses g.size ≡
        model_touch users M a N b moved }
{}

/// A graph that is the one of a model with its totals holds the model, with each total at its place there.
pub fn whole_law()
    ensures { (users : ℕ → NumberRule) (M : Model) (g : Graph) → IsWhole users M g →
        HoldsModel users M g (total_id M) }
{}
