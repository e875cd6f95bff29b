//! What holds of systems and objectives in models that are seen without where their lists lie.
ghost use Rattle.std.specs.Prelude.{◌≡◌, ℕ, ℤ, List, [], ◌∷◌, ◌++◌, length, Some, slice_get, slice_set};
ghost use Rattle.cbl_base.specs.NumberRule.{NumberRule};
ghost use Rattle.cbl_base.specs.declared.place.Place.{Place};
ghost use Rattle.comet_meaning.specs.Members.{with_member, with_objective, with_system};
ghost use Rattle.model_values.specs.Delta.{delta_of, value_of};
ghost use Rattle.model_values.specs.declared.deltas.Move.{Move};
ghost use Rattle.model_values.specs.declared.wholes.Whole.{Whole};
ghost use Rattle.model_values.specs.declared.wholes.Whole.TheVariants.{Objective, System};
ghost use Rattle.comet_meaning.specs.OfModelView.Plain.{plain_member, plain_model};
ghost use Rattle.term_model.specs.declared.model.Member.{Member};
ghost use Rattle.term_model.specs.declared.model.Model.{Model};
ghost use Rattle.term_model.specs.declared.model.Posted.TheVariants.{Constrain, Part};
ghost use Rattle.term_model.specs.declared.model.Total.{Total};
ghost use Rattle.comet_meaning.specs.OfViolationShares.VariableViolations.{variable_violations_of};

/// Systems and objectives have the values, the deltas and the variables' violations that they have where it isn't told
/// where lists lie.
pub fn plain_totals_law()
    ensures value { (users : ℕ → NumberRule) (M : Model) (a : List ℤ) (whole : Whole) →
        value_of users (plain_model M) a whole ≡ value_of users M a whole }
    ensures delta { (users : ℕ → NumberRule) (M : Model) (a : List ℤ) (whole : Whole)
        (move : Move) → delta_of users (plain_model M) a whole move ≡
        delta_of users M a whole move }
    ensures violations { (users : ℕ → NumberRule) (M : Model) (a : List ℤ) (s x : ℕ) →
        variable_violations_of users (plain_model M) a s x ≡ variable_violations_of users M a s x }
{}

/// A model that has one more system or objective has a twin that has it, too.
pub fn gained_totals_law()
    ensures system { (M N : Model) (last : Total) (at : Place) → N.vars.items ≡ M.vars.items → N.defs.items ≡ M.defs.items → N.posted.items ≡ M.posted.items → last.place ≡ at → last.members.items ≡ [] →
        N.systems.items ≡ M.systems.items ++ last ∷ [] → N.objectives.items ≡ M.objectives.items → plain_model N ≡ with_system (plain_model M) at }
    ensures objective { (M N : Model) (last : Total) (at : Place) → N.vars.items ≡ M.vars.items → N.defs.items ≡ M.defs.items → N.posted.items ≡ M.posted.items → last.place ≡ at → last.members.items ≡ [] →
        N.objectives.items ≡ M.objectives.items ++ last ∷ [] → N.systems.items ≡ M.systems.items → plain_model N ≡ with_objective (plain_model M) at }
{}

/// A model in which a system or an objective has one more member, which is posted last, has such a twin.
pub fn gained_members_law()
    ensures constraint { (M N : Model) (k : ℕ) (old new : Total) (x : Member) → N.vars.items ≡ M.vars.items → N.defs.items ≡ M.defs.items → new.place ≡ old.place →
        new.members.items ≡ old.members.items ++ x ∷ [] → slice_get M.systems.items k ≡ Some old → N.systems.items ≡ slice_set M.systems.items k new → N.objectives.items ≡ M.objectives.items →
        N.posted.items ≡ M.posted.items ++ Constrain k (length old.members.items) ∷ [] → plain_model N ≡ with_member (plain_model M) (System k) (plain_member x) }
    ensures part { (M N : Model) (k : ℕ) (old new : Total) (x : Member) → N.vars.items ≡ M.vars.items → N.defs.items ≡ M.defs.items → new.place ≡ old.place →
        new.members.items ≡ old.members.items ++ x ∷ [] → slice_get M.objectives.items k ≡ Some old → N.objectives.items ≡ slice_set M.objectives.items k new → N.systems.items ≡ M.systems.items →
        N.posted.items ≡ M.posted.items ++ Part k (length old.members.items) ∷ [] → plain_model N ≡ with_member (plain_model M) (Objective k) (plain_member x) }
{}
