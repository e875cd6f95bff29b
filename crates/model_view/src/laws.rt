//! What holds of models that are seen without where their lists lie, and of the cycle that is named.
ghost use Rattle.std.specs.Prelude.{◌≡◌, ◌<◌, ℕ, ℤ, Bool, List, [], ◌∷◌, ◌++◌, map, length, Option, Some, None, Vec};
ghost use Rattle.std.specs.declared.alloc.Global.{Global};
ghost use Rattle.cbl_base.specs.Inputs.{InputKind};
ghost use Rattle.cbl_base.specs.NumberRule.{NumberRule};
ghost use Rattle.cbl_base.specs.declared.ids.VarId.{VarId};
ghost use Rattle.layer_plan.specs.Cycles.{IsCycle};
ghost use Rattle.layer_plan.specs.Dependencies.{AreItems, DependsOn};
ghost use Rattle.layer_plan.specs.NamedCycle.{IsNamedCycle};
ghost use Rattle.term_model.specs.Definitions as models;
ghost use Rattle.term_model.specs.Definitions.{definition_of, vars_of};
ghost use Rattle.term_model.specs.Depth.{depth_of};
ghost use Rattle.term_model.specs.Kinds.{kind_of_term};
ghost use Rattle.term_model.specs.Naming.{users_of};
ghost use Rattle.term_model.specs.SameTerms.{same_term};
ghost use Rattle.term_model.specs.Subterms.{subterms, distinct_subterms};
ghost use Rattle.term_model.specs.declared.model.Definition.{Definition};
ghost use Rattle.term_model.specs.declared.model.Model.{Model};
ghost use Rattle.term_model.specs.declared.model.Posted.TheVariants.{Define};
ghost use Rattle.term_model.specs.declared.model.VarDecl.{VarDecl};
ghost use Rattle.term_model.specs.declared.term.Term.{Term};
ghost use Rattle.model_values.specs.Fresh.{fresh_of};
ghost use Rattle.model_values.specs.Outcomes.{Outcome, outcome_of};
ghost use Rattle.model_values.specs.VarOutcomes.{outcome_of_var};
ghost use Rattle.model_view.specs.Building.{with_variable, with_definition};
ghost use Rattle.model_view.specs.Naming.{named_cycle, dependencies};
ghost use Rattle.model_view.specs.Plain.{plain_term, plain_model};
ghost use Rattle.model_view.specs.Variables.{all_variables};

/// A term has the depth, the variables, the kind, the users' constraints, the subterms and the value that it has without
/// where its lists lie, and is equal to the same terms.
pub fn plain_terms_law()
    ensures depth { (t : Term) → depth_of (plain_term t) ≡ depth_of t }
    ensures vars { (t : Term) → vars_of (plain_term t) ≡ vars_of t }
    ensures kind { (kinds : ℕ → Option InputKind) (t : Term) →
        kind_of_term kinds (plain_term t) ≡ kind_of_term kinds t }
    ensures users { (t : Term) → users_of (plain_term t) ≡ users_of t }
    ensures passes { (p : VarId → Bool) (t : Term) →
        all_variables p (plain_term t) ≡ all_variables p t }
    ensures subterms { (t : Term) → subterms (plain_term t) ≡ map plain_term (subterms t) }
    ensures value { (users : ℕ → NumberRule) (env : ℕ → Outcome) (t : Term) →
        outcome_of users env (plain_term t) ≡ outcome_of users env t }
    ensures equal { (t u : Term) → same_term (plain_term t) (plain_term u) ≡ same_term t u }
    ensures again { (t : Term) → plain_term (plain_term t) ≡ plain_term t }
{}

/// A model has the definitions, the distinct subterms and the values, or the fault, that it has without where its lists
/// lie.
pub fn plain_models_law()
    ensures definitions { (M : Model) (i : ℕ) →
        definition_of (plain_model M) i ≡ definition_of M i }
    ensures distinct { (M : Model) → distinct_subterms (plain_model M) ≡
        map plain_term (distinct_subterms M) }
    ensures variables { (users : ℕ → NumberRule) (M : Model) (a : List ℤ) →
        outcome_of_var users (plain_model M) a ≡ outcome_of_var users M a }
    ensures fresh { (users : ℕ → NumberRule) (M : Model) (a : List ℤ) →
        fresh_of users (plain_model M) a ≡ fresh_of users M a }
    ensures dependencies { (M : Model) → dependencies (plain_model M) ≡ dependencies M }
{}

/// Models with the same lists have one plain twin, and a model that has one more variable or definition has a twin that has
/// it, too.
pub fn plain_changes_law()
    ensures same { (M N : Model) → N.vars.items ≡ M.vars.items → N.defs.items ≡ M.defs.items → N.systems.items ≡ M.systems.items → N.objectives.items ≡ M.objectives.items →
        N.posted.items ≡ M.posted.items → plain_model N ≡ plain_model M }
    ensures variable { (M N : Model) (v : VarDecl) → N.vars.items ≡ M.vars.items ++ v ∷ [] → N.defs.items ≡ M.defs.items → N.systems.items ≡ M.systems.items → N.objectives.items ≡ M.objectives.items →
        N.posted.items ≡ M.posted.items → plain_model N ≡ with_variable (plain_model M) v }
    ensures definition { (M N : Model) (def : Definition) → N.vars.items ≡ M.vars.items → N.defs.items ≡ M.defs.items ++ def ∷ [] → N.systems.items ≡ M.systems.items → N.objectives.items ≡ M.objectives.items →
        N.posted.items ≡ M.posted.items ++ Define (length M.defs.items) ∷ [] → plain_model N ≡ with_definition (plain_model M) def.var (plain_term def.term) }
{}

/// The items of a model depend on one another exactly as its variables do.
pub fn dependencies_law()
    ensures count { (M : Model) → length (dependencies M) ≡ length M.vars.items }
    ensures items { (M : Model) → AreItems (dependencies M) }
    ensures depends { (M : Model) (i d : ℕ) → i < length M.vars.items →
        DependsOn (dependencies M) i d → models.DependsOn M i d × (d < length M.vars.items) }
    ensures all { (M : Model) (i d : ℕ) → i < length M.vars.items → d < length M.vars.items →
        models.DependsOn M i d → DependsOn (dependencies M) i d }
{}

/// What the search finds is the named cycle, it finds one exactly where there is a cycle, and there is one named cycle at
/// most.
pub fn named_cycle_law()
    ensures found { (deps : List (Vec ℕ Global)) (list : List ℕ) → AreItems deps →
        named_cycle deps ≡ Some list → IsNamedCycle deps list }
    ensures none { (deps : List (Vec ℕ Global)) (list : List ℕ) → AreItems deps →
        named_cycle deps ≡ None → IsCycle deps list → ⊥ }
    ensures once { (deps : List (Vec ℕ Global)) (a b : List ℕ) → IsNamedCycle deps a →
        IsNamedCycle deps b → a ≡ b }
{}
