//! What holds of terms that are added one after another.
ghost use Rattle.std.specs.Prelude.{◌≡◌, ◌++◌, ◌∷◌, [], ℕ, List, Some, map, true};
ghost use Rattle.term_count.specs.Codes.{is_known};
ghost use Rattle.term_count.specs.Numbering.{terms_after};
ghost use Rattle.term_graph.specs.Ids.{HasCells, id_among};
ghost use Rattle.term_model.specs.Posting.{term_posted};
ghost use Rattle.term_model.specs.SameTerms.{same_term};
ghost use Rattle.term_model.specs.Subterms.{joined_terms, once, subterms, subterms_posted};
ghost use Rattle.term_model.specs.declared.model.Model.{Model};
ghost use Rattle.term_model.specs.declared.model.Posted.{Posted};
ghost use Rattle.term_model.specs.declared.term.Term.{Term};

/// Terms that are added one after another to none give the numbered list of their distinct
/// subterms, and those that were posted to a model give the model's.
pub fn numbered_law()
    ensures terms { (us : List Term) (t : Term) →
        terms_after (once (joined_terms (map subterms us))) t
        ≡ once (joined_terms (map subterms (us ++ t ∷ []))) }
    ensures posted { (M : Model) (posted : List Posted) (p : Posted) (t : Term) →
        term_posted M p ≡ Some t →
        terms_after (once (subterms_posted M posted)) t
        ≡ once (subterms_posted M (posted ++ p ∷ [])) }
{}

/// Equal terms have one id, and terms that are there have different ids where they aren't equal.
/// A term that was added is there, and one that is there stays and keeps its id.
pub fn shared_law()
    ensures one { (cells : ℕ) (ts : List Term) (t u : Term) →
        same_term t u ≡ true → id_among cells ts t ≡ id_among cells ts u }
    ensures apart { (cells : ℕ) (ts : List Term) (t u : Term) →
        is_known ts t ≡ true → HasCells cells t → HasCells cells u →
        id_among cells ts t ≡ id_among cells ts u → same_term t u ≡ true }
    ensures known { (ts : List Term) (t : Term) → is_known (terms_after ts t) t ≡ true }
    ensures stays { (cells : ℕ) (ts : List Term) (t u : Term) → is_known ts t ≡ true →
        (is_known (terms_after ts u) t ≡ true)
        × (id_among cells (terms_after ts u) t ≡ id_among cells ts t) }
{}
