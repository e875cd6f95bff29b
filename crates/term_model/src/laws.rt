//! What holds of terms and models, whatever they are: equality of terms is an equivalence, what the numbered list
//! of the distinct subterms has, and when a model is acyclic.
ghost use Rattle.std.specs.Prelude.{◌≡◌, ◌↔◌, ◌++◌, [], ◌∷◌, ℕ, Bool, true, List, Some, slice_get};
ghost use Rattle.std.specs.Cmp.{IsEquivalence};
ghost use Rattle.std.specs.List.{find, list_any};
ghost use Rattle.cbl_operations.specs.declared.op.Op.{Op};
ghost use Rattle.term_model.specs.Cycles.{DependsOnItself};
ghost use Rattle.term_model.specs.Definitions.{IsAcyclic};
ghost use Rattle.term_model.specs.Posting.{term_posted};
ghost use Rattle.term_model.specs.SameOperations.{same_operation};
ghost use Rattle.term_model.specs.SameTerms.{same_term};
ghost use Rattle.term_model.specs.Subterms.{distinct_subterms, once, subterms_posted};
ghost use Rattle.term_model.specs.Wellformed.{IsWellFormed};
ghost use Rattle.term_model.specs.declared.model.Model.{Model};
ghost use Rattle.term_model.specs.declared.model.Posted.{Posted};
ghost use Rattle.term_model.specs.declared.term.Term.{Term};

/// Equality of terms is an equivalence. Operations are the same exactly where they are identical.
pub fn equal_terms_law()
    ensures terms { IsEquivalence same_term }
    ensures operations { (a b : Op) → (same_operation a b ≡ true) ↔ (a ≡ b) }
{}

/// The distinct subterms of a model are equal to those that were posted, and no two of them to each other. What
/// is the first of them with a property that equal terms share is the first one posted, so that each stands where
/// it was posted first. A term that was posted before, at whatever place, adds none.
pub fn distinct_subterms_law()
    ensures all { (M : Model) (t : Term) →
        list_any (same_term t) (distinct_subterms M) ≡
        list_any (same_term t) (subterms_posted M M.posted.items) }
    ensures apart { (M : Model) (i j : ℕ) (t u : Term) →
        slice_get (distinct_subterms M) i ≡ Some t → slice_get (distinct_subterms M) j ≡ Some u →
        same_term t u ≡ true → i ≡ j }
    ensures first { (M : Model) (p : Term → Bool) →
        ((t u : Term) → same_term t u ≡ true → p t ≡ p u) →
        find p (distinct_subterms M) ≡ find p (subterms_posted M M.posted.items) }
    ensures again { (M : Model) (posted : List Posted) (k : ℕ) (p q : Posted) (t u : Term) → slice_get posted k ≡ Some q → term_posted M q ≡ Some t → term_posted M p ≡ Some u →
        same_term t u ≡ true → once (subterms_posted M (posted ++ p ∷ [])) ≡ once (subterms_posted M posted) }
{}

/// A well formed model is acyclic exactly where no variable depends on itself, also through others.
pub fn acyclic_law()
    ensures ranked { (M : Model) (i : ℕ) → IsAcyclic M → DependsOnItself M i → ⊥ }
    ensures none { (M : Model) → IsWellFormed M → ((i : ℕ) → DependsOnItself M i → ⊥) →
        IsAcyclic M }
{}
