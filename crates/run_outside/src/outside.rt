//! What a run has beside its names.
ghost use Rattle.std.specs.Prelude.{◌≡◌, ◌≤◌, ◌++◌, ◌↔◌, ◌∷◌, ℕ, List, [], Option, None, Err, true, IfErr, IfOk, OnOk, length};
ghost use Rattle.cbl_io.specs.Faults.{HasRisen};
ghost use Rattle.run_solvers.specs.OfCometMeaning.Blocks.{commit_waiting};
ghost use Rattle.run_solvers.specs.OfCometMeaning.Models.{assign, close, define, domain_at, make_solver, swap};
ghost use Rattle.run_solvers.specs.OfCometMeaning.Onward.{IsFront};
ghost use Rattle.run_solvers.specs.OfCometMeaning.Parts.{solver_at, variable_value};
ghost use Rattle.run_solvers.specs.OfCometMeaning.Posting.{post_taken};
ghost use Rattle.run_solvers.specs.OfCometMeaning.Solutions.{restoring};
ghost use Rattle.run_solvers.specs.OfCometMeaning.State.{State};
ghost use Rattle.run_solvers.specs.OfCometMeaning.Systems.{delta, make_objective, make_sum, make_system, of_whole, post, variable_violations, whole_value};
ghost use Rattle.run_solvers.specs.OfCometMeaning.TakingUsers.{take_user};
ghost use Rattle.run_solvers.specs.OfCometMeaning.Values as values;
ghost use Rattle.run_solvers.specs.OfCometMeaning.Variables.{new_variable};
ghost use Rattle.run_solvers.specs.OfModelValues.declared.deltas.Move.TheVariants.{Assign, Swap};
ghost use Rattle.run_solvers.specs.Opening.{opened};
ghost use Rattle.run_solvers.specs.Solutions.{kept_numbers};
ghost use Rattle.run_solvers.specs.Stopping.{IsEndOrMemory};
ghost use Rattle.run_solvers.specs.Told.{TellsIn};
ghost use Rattle.run_solvers.specs.Views.{beginning_seen};
ghost use Rattle.run_solvers.specs.OfRunValues.Did.{Did, IsFaultOrMemory};
ghost use Rattle.run_solvers.specs.OfRunValues.Views.{bounds_seen, value_seen};
ghost use Rattle.run_solvers.specs.OfRunValues.declared.stop.OutStop.TheVariants.{Full, Failed};
ghost use Rattle.run_solvers.specs.OfRunValues.declared.stop.Stop.TheVariants.{NoMemory};
ghost use Rattle.run_outside.specs.Shares.{is_short, share_behind};
ghost use Rattle.run_outside.specs.Told.{Told, beside, with_printed};

use cbl_base::{Place, Text, VarId};
use ls_events::{Solution, VarChange};
use run_solvers::values_of_runs::{Bounds, OutStop, Stop, Value};
use run_solvers::{Beginning, Built};
use std::alloc::Global;
use term_model::VarDecl;

/// What a run has beside its names: an output; the solvers, each of which is known by its number from 0; and the users'
/// constraints, numbered in the order in which they were handed in. Each call does of them what the meaning of programs says,
/// whatever the names hold; after a stop the run is over.
pub trait Outside {
    /// What was printed, the solvers, and the users' constraints.
    ghost told: { Self → Told };

    /// How many bytes the output still takes, where it tells that.
    ghost share: { Self → Option ℕ };

    /// How often the output has failed.
    ghost faults: { Self → ℕ };

    /// Prints all bytes. `Full` comes exactly where the output tells that it has no room for so many, and then it is as
    /// before. `Failed` comes only where the count of faults rises. After any stop a front of the bytes was printed.
    #[inline]
    fn put(&mut self, bytes: &[u8]) -> Result<(), OutStop>
        ensures ok { OnOk result ((told self.new).printed ≡ (told self.old).printed ++ bytes.now) }
        ensures lowered { OnOk result (share self.new ≡
            share_behind (share self.old) (length bytes.now)) }
        ensures full { (result ≡ Err Full) ↔ (is_short (share self.old) (length bytes.now) ≡ true) }
        ensures kept { result ≡ Err Full →
            ((told self.new).printed ≡ (told self.old).printed) ×
            (share self.new ≡ share self.old) }
        ensures begun { IsFront (told self.old).printed (told self.new).printed }
        ensures front { IsFront (told self.new).printed ((told self.old).printed ++ bytes.now) }
        ensures untold { share self.old ≡ None → share self.new ≡ None }
        ensures failed { result ≡ Err Failed → HasRisen (faults self.old) (faults self.new) }
        ensures never_falls { faults self.old ≤ faults self.new }
        ensures solvers { (told self.new).solvers ≡ (told self.old).solvers }
        ensures users { (told self.new).users ≡ (told self.old).users };

    /// A new solver, which is open and has no variables; answers its number. `NoMemory` where there is none for it; there is
    /// no other stop.
    fn make_solver(&mut self, alloc: Global) -> Result<usize, Stop>
        ensures did { (s : State) → Did (λ k. values.Solver k) result (beside (told self.new) s)
            (make_solver (beside (told self.old) s)) }
        ensures memory { IfErr result (λ stop. stop ≡ NoMemory) }
        ensures printed { (told self.new).printed ≡ (told self.old).printed }
        ensures output { (share self.new ≡ share self.old) × (faults self.new ≡ faults self.old) };

    /// The value of a variable that is read at a place. `WrongSolver` there exactly where its solver has no such variable,
    /// and `NotClosed` exactly where only a closed solver has its value.
    fn read_variable(&self, at: Place, variable: VarId) -> Result<Value, Stop>
        ensures did { (s : State) → Did value_seen result (beside (told self.now) s)
            (variable_value at variable.index (solver_at (beside (told self.now) s) variable.solver)
            (beside (told self.now) s)) }
        ensures stop { IfErr result IsFaultOrMemory };

    /// The domain of a variable that is asked at a place. `WrongSolver` there exactly where its solver has no such variable.
    fn domain(&self, at: Place, variable: VarId) -> Result<Bounds, Stop>
        ensures did { (s : State) → Did (λ d.
            values.Range (bounds_seen d)) result (beside (told self.now) s)
            (domain_at at variable (solver_at (beside (told self.now) s) variable.solver)
            (beside (told self.now) s)) }
        ensures stop { IfErr result IsFaultOrMemory };

    /// Closes the solver with a number, and evaluates its variables. `AlreadyClosed` at this place exactly where it is
    /// closed, else the named cycle of its definitions at this place, and else the fault of its variables where it was met.
    fn close(&mut self, at: Place, number: usize) -> Result<(), Stop>
        ensures did { (s : State) → Did (λ _. values.Nothing) result (beside (told self.new) s)
            ((close at number) (beside (told self.old) s)) }
        ensures stop { IfErr result IsEndOrMemory }
        ensures printed { (told self.new).printed ≡ (told self.old).printed }
        ensures output { (share self.new ≡ share self.old) × (faults self.new ≡ faults self.old) };

    /// Gives a variable a number, which waits while a `with` is open. At this place `WrongSolver` where its solver has no
    /// such variable, and then `DefinedVariable` where it has a definition; and else the fault of a closed solver's variables
    /// where it was met. Tells what changed.
    fn assign(&mut self, at: Place, variable: VarId, number: i64) -> Result<Vec<VarChange>, Stop>
        ensures did { (s : State) → Did (λ _.
            tt) result (beside (told self.new) s)
            ((assign at variable number) (beside (told self.old) s)) }
        ensures told { TellsIn variable.solver (told self.old).solvers
            (told self.new).solvers result }
        ensures stop { IfErr result IsFaultOrMemory }
        ensures printed { (told self.new).printed ≡ (told self.old).printed }
        ensures output { (share self.new ≡ share self.old) × (faults self.new ≡ faults self.old) };

    /// Gives each of two variables the number that the other has, which wait while a `with` is open. The stops are those of
    /// `assign`, of both variables; `WrongSolver` also where they aren't of one solver. Tells what changed.
    fn swap(&mut self, at: Place, x: VarId, y: VarId) -> Result<Vec<VarChange>, Stop>
        ensures did { (s : State) → Did (λ _.
            tt) result (beside (told self.new) s) ((swap at x y) (beside (told self.old) s)) }
        ensures told { TellsIn x.solver (told self.old).solvers (told self.new).solvers result }
        ensures stop { IfErr result IsFaultOrMemory }
        ensures printed { (told self.new).printed ≡ (told self.old).printed }
        ensures output { (share self.new ≡ share self.old) × (faults self.new ≡ faults self.old) };

    /// Defines a variable by a term. At this place `AlreadyClosed` where its solver is closed; then `WrongSolver` where the
    /// variable, or one in the term, isn't the solver's; then `DefinedVariable` where it has a definition; and then `TooMany`
    /// term nodes.
    fn define(&mut self, at: Place, variable: VarId, built: Built) -> Result<(), Stop>
        ensures did { (s : State) → Did (λ _.
            tt) result (beside (told self.new) s)
            ((define at variable built) (beside (told self.old) s)) }
        ensures stop { IfErr result IsFaultOrMemory }
        ensures printed { (told self.new).printed ≡ (told self.old).printed }
        ensures output { (share self.new ≡ share self.old) × (faults self.new ≡ faults self.old) };

    /// A new variable of the solver with a number, as it is declared, with a name, which begins with a number or a
    /// definition. At this place `AlreadyClosed` where the solver is closed, then `TooMany` variables, and then the stops of
    /// `define`.
    fn add_variable(
        &mut self,
        at: Place,
        number: usize,
        decl: VarDecl,
        name: Text,
        beginning: Beginning,
    ) -> Result<VarId, Stop>
        ensures did { (s : State) → Did (λ x.
            x) result (beside (told self.new) s)
            ((new_variable at number decl name (beginning_seen beginning))
            (beside (told self.old) s)) }
        ensures stop { IfErr result IsFaultOrMemory }
        ensures printed { (told self.new).printed ≡ (told self.old).printed }
        ensures output { (share self.new ≡ share self.old) × (faults self.new ≡ faults self.old) };

    /// Opens a `with` on the solver with a number, and tells whether it is the outermost. `NotClosed` at this place exactly
    /// where the solver is open.
    fn open_block(&mut self, at: Place, number: usize) -> Result<bool, Stop>
        ensures did { (s : State) → Did (λ b.
            b) result (beside (told self.new) s) ((opened at number) (beside (told self.old) s)) }
        ensures stop { IfErr result IsFaultOrMemory }
        ensures printed { (told self.new).printed ≡ (told self.old).printed }
        ensures output { (share self.new ≡ share self.old) × (faults self.new ≡ faults self.old) };

    /// Commits what waits in the solver with a number, at the end of the outermost `with`, and tells what changed. The stop
    /// is the fault of the solver's variables where it was met.
    fn commit_waiting(&mut self, alloc: Global, number: usize) -> Result<Vec<VarChange>, Stop>
        ensures did { (s : State) → Did (λ _.
            tt) result (beside (told self.new) s)
            ((commit_waiting number) (beside (told self.old) s)) }
        ensures told { TellsIn number (told self.old).solvers (told self.new).solvers result }
        ensures stop { IfErr result IsFaultOrMemory }
        ensures printed { (told self.new).printed ≡ (told self.old).printed }
        ensures output { (share self.new ≡ share self.old) × (faults self.new ≡ faults self.old) };

    /// A new system of the solver with a number, which is declared at a place. `AlreadyClosed` there exactly where the solver
    /// is closed.
    fn new_system(&mut self, at: Place, number: usize) -> Result<Value, Stop>
        ensures did { (s : State) → Did value_seen result (beside (told self.new) s)
            ((make_system at number) (beside (told self.old) s)) }
        ensures stop { IfErr result IsFaultOrMemory }
        ensures printed { (told self.new).printed ≡ (told self.old).printed }
        ensures output { (share self.new ≡ share self.old) × (faults self.new ≡ faults self.old) };

    /// A new sum of the solver with a number, which is declared at a place. `AlreadyClosed` there exactly where the solver is
    /// closed.
    fn new_sum(&mut self, at: Place, number: usize) -> Result<Value, Stop>
        ensures did { (s : State) → Did value_seen result (beside (told self.new) s)
            ((make_sum at number) (beside (told self.old) s)) }
        ensures stop { IfErr result IsFaultOrMemory }
        ensures printed { (told self.new).printed ≡ (told self.old).printed }
        ensures output { (share self.new ≡ share self.old) × (faults self.new ≡ faults self.old) };

    /// A new objective of one term, in the solver of the first variable in it. The stops are at this place: `WrongSolver`
    /// where there is no variable, `AlreadyClosed` where its solver is closed, and then those of `post`.
    fn new_objective(&mut self, at: Place, built: Built) -> Result<Value, Stop>
        ensures did { (s : State) → Did value_seen result (beside (told self.new) s)
            ((make_objective at built) (beside (told self.old) s)) }
        ensures stop { IfErr result IsFaultOrMemory }
        ensures printed { (told self.new).printed ≡ (told self.old).printed }
        ensures output { (share self.new ≡ share self.old) × (faults self.new ≡ faults self.old) };

    /// One more constraint of a system, or one more term of an objective, with its weight. At this place `AlreadyClosed`,
    /// then `WrongSolver`, then `OutOfRange` for a negative weight, and then `TooMany` term nodes.
    fn post(&mut self, at: Place, whole: &Value, built: Built, weight: i64) -> Result<(), Stop>
        ensures did { (s : State) → Did (λ _. values.Nothing) result (beside (told self.new) s)
            ((post at built weight (value_seen whole.now)) (beside (told self.old) s)) }
        ensures stop { IfErr result IsFaultOrMemory }
        ensures printed { (told self.new).printed ≡ (told self.old).printed }
        ensures output { (share self.new ≡ share self.old) × (faults self.new ≡ faults self.old) };

    /// Takes the first user's constraint that is free and has this name, and answers its number. At this place `UserSpent`
    /// exactly where all that have the name are taken, and `UnknownUser` exactly where none has it.
    fn take_user(&mut self, at: Place, name: &[u8]) -> Result<usize, Stop>
        ensures did { (s : State) → Did (λ n.
            n) result (beside (told self.new) s)
            ((take_user at name.now) (beside (told self.old) s)) }
        ensures stop { IfErr result IsFaultOrMemory }
        ensures printed { (told self.new).printed ≡ (told self.old).printed }
        ensures output { (share self.new ≡ share self.old) × (faults self.new ≡ faults self.old) };

    /// Posts the user's constraint with a number over places with a weight to a system; to what is no system nothing is
    /// posted. The stops are those of `post`. `NoMemory` also where the constraint was posted before, for an objective, and
    /// where a place is no number or as deep as a term may be: no checked program posts such.
    fn post_user(
        &mut self,
        at: Place,
        whole: &Value,
        taken: usize,
        places: Vec<Built>,
        weight: i64,
    ) -> Result<(), Stop>
        ensures did { (s : State) → Did (λ _. values.Nothing) result (beside (told self.new) s)
            ((post_taken at taken places.items weight (value_seen whole.now))
            (beside (told self.old) s)) }
        ensures stop { IfErr result IsFaultOrMemory }
        ensures printed { (told self.new).printed ≡ (told self.old).printed }
        ensures output { (share self.new ≡ share self.old) × (faults self.new ≡ faults self.old) };

    /// The violations of a system, and the value of an objective.
    fn whole_value(&self, at: Place, whole: &Value) -> Result<Value, Stop>
        ensures did { (s : State) → Did value_seen result (beside (told self.now) s)
            ((of_whole (whole_value at) (value_seen whole.now)) (beside (told self.now) s)) }
        ensures stop { IfErr result IsFaultOrMemory };

    /// How much of a system's violations is a variable's.
    fn violations_of(&self, at: Place, whole: &Value, x: VarId) -> Result<Value, Stop>
        ensures did { (s : State) → Did value_seen result (beside (told self.now) s)
            ((of_whole (variable_violations at x) (value_seen whole.now))
            (beside (told self.now) s)) }
        ensures stop { IfErr result IsFaultOrMemory };

    /// How the value of a system or an objective would change if a variable got another number.
    fn assign_delta(&self, at: Place, whole: &Value, x: VarId, number: i64) -> Result<Value, Stop>
        ensures did { (s : State) → Did value_seen result (beside (told self.now) s)
            ((of_whole (delta at (x ∷ []) (Assign x.index number)) (value_seen whole.now))
            (beside (told self.now) s)) }
        ensures stop { IfErr result IsFaultOrMemory };

    /// How the value of a system or an objective would change if two variables exchanged their numbers.
    fn swap_delta(&self, at: Place, whole: &Value, x: VarId, y: VarId) -> Result<Value, Stop>
        ensures did { (s : State) → Did value_seen result (beside (told self.now) s)
            ((of_whole (delta at (x ∷ y ∷ []) (Swap x.index y.index)) (value_seen whole.now))
            (beside (told self.now) s)) }
        ensures stop { IfErr result IsFaultOrMemory };

    /// The numbers of the free variables of the solver with a number. `NotClosed` at this place exactly where it is open.
    fn snapshot(&self, at: Place, number: usize) -> Result<Solution, Stop>
        ensures did { (s : State) → Did (λ x. x.values) result (beside (told self.now) s)
            (kept_numbers at (solver_at (beside (told self.now) s) number)
            (beside (told self.now) s)) }
        ensures number { IfOk result (λ x. x.solver ≡ number) }
        ensures stop { IfErr result IsFaultOrMemory };

    /// Gives all free variables of a solution's solver its numbers at once, which wait while a `with` is open; tells what
    /// changed. At this place `NotClosed` where the solver is open, and then `WrongSolver` where the solution hasn't as many
    /// numbers as there are free variables; and else the fault of the variables where it was met.
    fn restore(&mut self, at: Place, solution: &Solution) -> Result<Vec<VarChange>, Stop>
        ensures did { (s : State) → Did (λ _.
            tt) result (beside (told self.new) s)
            (restoring at solution.now.solver solution.now.values
            (solver_at (beside (told self.old) s) solution.now.solver) (beside (told self.old) s)) }
        ensures told { TellsIn solution.now.solver (told self.old).solvers
            (told self.new).solvers result }
        ensures stop { IfErr result IsFaultOrMemory }
        ensures printed { (told self.new).printed ≡ (told self.old).printed }
        ensures output { (share self.new ≡ share self.old) × (faults self.new ≡ faults self.old) };
}
