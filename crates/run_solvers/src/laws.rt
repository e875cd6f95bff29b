//! The acts of a program on its solvers are the changes of one solver.
ghost use Rattle.std.specs.Prelude.{◌≡◌, ℕ, ℤ, List, length};
ghost use Rattle.cbl_base.specs.declared.ids.VarId.{VarId};
ghost use Rattle.cbl_base.specs.declared.place.Place.{Place};
ghost use Rattle.term_model.specs.declared.model.VarDecl.{VarDecl};
ghost use Rattle.term_model.specs.declared.term.Term.{Term};
ghost use Rattle.term_model.specs.declared.posting.Side.TheVariants.{Objectives, Systems};
ghost use Rattle.model_values.specs.declared.wholes.Whole.{Whole};
ghost use Rattle.posted_users.specs.KeptRule.{KeptRule};
ghost use Rattle.comet_meaning.specs.Systems.{adding_objective, make_sum, make_system, post_to, post_user_to};
ghost use Rattle.comet_meaning.specs.Values.{Nothing, Objective, System};
ghost use Rattle.comet_meaning.specs.Solvers.{SolverState};
ghost use Rattle.comet_meaning.specs.State.{State};
ghost use Rattle.comet_meaning.specs.Parts.{solver_at};
ghost use Rattle.comet_meaning.specs.Blocks.{commit_waiting};
ghost use Rattle.comet_meaning.specs.Models.{close, assign, swap, define};
ghost use Rattle.comet_meaning.specs.Variables.{Beginning, next_variable, new_variable};
ghost use Rattle.run_solvers.specs.Changing.{changed, changed_where, closed_one, assigned_one, swapped_one, defined_one, added_one, committed_one, objective_one, posted_one, posted_user_one, total_one};

/// Each act in a state makes of the solver with its number what it makes of one solver, or halts the run in the same way.
pub fn acts_on_one_solver()
    ensures closes { (at : Place) (k : ℕ) (s : State) →
        close at k s ≡ changed Nothing k (closed_one at (solver_at s k)) s }
    ensures assigns { (at : Place) (x : VarId) (z : ℤ) (s : State) →
        assign at x z s ≡ changed tt x.solver (assigned_one at x z (solver_at s x.solver)) s }
    ensures swaps { (at : Place) (x y : VarId) (s : State) →
        swap at x y s ≡ changed tt x.solver (swapped_one at x y (solver_at s x.solver)) s }
    ensures defines { (at : Place) (x : VarId) (t : Term) (s : State) →
        define at x t s ≡ changed tt x.solver (defined_one at x t (solver_at s x.solver)) s }
    ensures commits { (k : ℕ) (s : State) →
        commit_waiting k s ≡ changed_where k
        (committed_one (solver_at s k) (solver_at s k).waiting) s }
    ensures adds { (at : Place) (k : ℕ) (d : VarDecl) (name : List ℕ) (b : Beginning) (s : State) →
        new_variable at k d name b s ≡ changed (next_variable k (solver_at s k)) k
        (added_one at k d name b (solver_at s k)) s }
{}

/// So does each act on systems and objectives.
pub fn totals_of_one_solver()
    ensures systems { (at : Place) (k : ℕ) (s : State) →
        make_system at k s ≡ changed (System k (length (solver_at s k).model.systems.items)) k
        (total_one at Systems (solver_at s k)) s }
    ensures sums { (at : Place) (k : ℕ) (s : State) →
        make_sum at k s ≡ changed (Objective k (length (solver_at s k).model.objectives.items)) k
        (total_one at Objectives (solver_at s k)) s }
    ensures posts { (at : Place) (t : Term) (weight : ℤ) (k : ℕ) (w : Whole) (s : State) →
        post_to at t weight k w s ≡ changed Nothing k
        (posted_one at k w t weight (solver_at s k)) s }
    ensures users { (at : Place) (rule : KeptRule) (ts : List Term) (weight : ℤ) (k : ℕ) (w : Whole)
        (s : State) → post_user_to at rule ts weight k w s ≡
        changed Nothing k (posted_user_one at k w rule ts weight (solver_at s k)) s }
    ensures objectives { (at : Place) (k : ℕ) (t : Term) (m : SolverState) (s : State) →
        adding_objective at k t m s ≡ changed (Objective k (length m.model.objectives.items)) k
        (objective_one at k t m) s }
{}
