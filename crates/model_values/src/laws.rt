//! What holds of models, whatever their terms are: a defined variable equals its expression, and the values of a
//! closed model are determined by its free variables alone.
ghost use Rattle.std.specs.Prelude.{◌≡◌, ◌<◌, ℕ, ℤ, List, length};
ghost use Rattle.cbl_base.specs.NumberRule.{NumberRule};
ghost use Rattle.model_values.specs.Closed.{AgreeOnFree};
ghost use Rattle.term_model.specs.Definitions.{IsAcyclic, definition_of};
ghost use Rattle.model_values.specs.Delta.{value_of};
ghost use Rattle.model_values.specs.VarOutcomes.{outcome_by, outcome_of_var};
ghost use Rattle.term_model.specs.Wellformed.{IsWellFormed};
ghost use Rattle.term_model.specs.declared.model.Model.{Model};
ghost use Rattle.model_values.specs.declared.wholes.Whole.{Whole};

/// In an acyclic model a defined variable always equals its expression: it comes to what its definition's term comes to,
/// where the other variables come to what they do; and a free one comes to its number.
#[tactic(auto, using(crate::proofs::VarLaws::equals_definition))]
pub fn defined_variable_law()
    ensures { (users : ℕ → NumberRule) (M : Model) (a : List ℤ) → IsAcyclic M → (i : ℕ) → i < length M.vars.items →
        outcome_of_var users M a i ≡ outcome_by users M a (outcome_of_var users M a) i (definition_of M i) }
{}

/// Assignments that agree on the free variables of a model give the same outcomes: the same value or the
/// same failure of each variable, each system and each objective.
#[tactic(auto, using(crate::proofs::ClosedLaws::same_vars, crate::proofs::ClosedLaws::same_values))]
pub fn closed_model_law()
    ensures vars { (users : ℕ → NumberRule) (M : Model) (a b : List ℤ) → IsWellFormed M → IsAcyclic M → AgreeOnFree M a b →
        (i : ℕ) → i < length M.vars.items → outcome_of_var users M a i ≡ outcome_of_var users M b i }
    ensures wholes { (users : ℕ → NumberRule) (M : Model) (a b : List ℤ) → IsWellFormed M → IsAcyclic M → length a ≡ length M.vars.items → length b ≡ length M.vars.items →
        AgreeOnFree M a b → (whole : Whole) → value_of users M a whole ≡ value_of users M b whole }
{}
