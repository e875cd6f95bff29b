//! Draws, moves, solutions, handlers and events of a run.
ghost use Rattle.std.specs.Prelude.{◌≡◌, ℕ, List, Some, IfErr, IfOk, is_some, map, option_map};
ghost use Rattle.checked_tree.specs.Tasks.{work_of};
ghost use Rattle.comet_meaning.specs.Changes.{Change};
ghost use Rattle.comet_meaning.specs.Draws.{draw, drawn_of};
ghost use Rattle.comet_meaning.specs.Events.{closed_over};
ghost use Rattle.comet_meaning.specs.Moves as moves;
ghost use Rattle.comet_meaning.specs.Outcome.{Went};
ghost use Rattle.comet_meaning.specs.Selection.{chosen_of};
ghost use Rattle.comet_meaning.specs.Solutions as solutions;
ghost use Rattle.comet_meaning.specs.Solutions.{add_solution};
ghost use Rattle.comet_meaning.specs.Values as values;
ghost use Rattle.run_outside.specs.OfRunSolvers.Told.{told};
ghost use Rattle.run_values.specs.Did.{Did, IsFault, IsFaultOrMemory};
ghost use Rattle.run_values.specs.Views.{bounds_seen, value_seen};
ghost use Rattle.run_values.specs.declared.stop.Stop.TheVariants.{NoMemory};
ghost use Rattle.run_state.specs.SearchActs.{queued, submitted, watched};
ghost use Rattle.run_search.specs.Searches.{closure_seen, move_seen, solution_seen};
ghost use Rattle.run_outside.specs.Told.{Told};
ghost use Rattle.run_state.specs.Views.{state_seen};

use crate::state::State;
use cbl_base::{Place, RunFault};
use checked_tree::{EventSlots, Later};
use run_outside::Outside;
use run_search::{Closure, KeptMove, Reaction, Solution, Ties, VarChange};
use run_values::{Bounds, Stop, Value};

impl State {
    /// A number that a distribution gives, of the next word, and nothing of what is none. `EmptyRange` at this place
    /// exactly where its range is empty, and then no word is taken.
    #[tactic(auto, unfolding(comet_meaning::specs::Draws::draw))]
    pub fn draw(&mut self, at: Place, distribution: &Value) -> Result<Value, Stop>
        ensures did { (told : Told) → Did value_seen result (state_seen self.new told)
            (draw at (value_seen distribution.now) (state_seen self.old told)) }
        ensures stop { IfErr result IsFault }
        ensures fuel { self.new.fuel ≡ self.old.fuel }
    {
        match distribution {
            Value::Distribution(bounds) => self.drawn_of(at, *bounds),
            _ => Ok(Value::Nothing),
        }
    }

    /// A number of a range.
    #[tactic(auto, unfolding(comet_meaning::specs::Draws::below, comet_meaning::specs::Draws::next_word))]
    fn drawn_of(&mut self, at: Place, bounds: Bounds) -> Result<Value, Stop>
        ensures did { (told : Told) → Did value_seen result (state_seen self.new told)
            (drawn_of at (bounds_seen bounds) (state_seen self.old told)) }
        ensures stop { IfErr result IsFault }
        ensures fuel { self.new.fuel ≡ self.old.fuel }
    {
        let size = bounds.size();
        if size == 0 {
            return Err(Stop::Fault(at, RunFault::EmptyRange));
        }
        let behind = self.search.below(size);
        Ok(Value::Number((bounds.low as i128 + behind as i128) as i64))
    }

    /// One of the tied candidates: none where there is none, and the only one where there is one, without a word; else one
    /// of them, by the next word.
    #[tactic(auto, unfolding(comet_meaning::specs::Selection::chosen_of))]
    pub fn pick(&mut self, ties: &Ties) -> Option<u64>
        ensures did { (told : Told) → chosen_of ties.now (state_seen self.old told) ≡
            Went result (state_seen self.new told) }
        ensures fuel { self.new.fuel ≡ self.old.fuel }
    {
        self.search.pick(ties)
    }

    /// A statement that runs later, with the names that it sees now. `NoMemory` where there is none for it.
    #[tactic(auto, unfolding(comet_meaning::specs::Events::closed_over))]
    pub fn closed_over(&self, body: &Later) -> Result<Closure, Stop>
        ensures did { (told : Told) → Did (λ c.
            Some (closure_seen c)) result (state_seen self.now told)
            (closed_over (work_of body.now.value.value) (state_seen self.now told)) }
        ensures memory { IfErr result (λ stop. stop ≡ NoMemory) }
    {
        let frame = self.copied_frame()?;
        let body = body.clone()?;
        Ok(Closure { body, frame })
    }

    /// A new selector, which keeps nothing.
    #[tactic(auto, unfolding(comet_meaning::specs::Moves::make_selector, run_search::specs::Searches::moves_seen))]
    pub fn make_selector(&mut self) -> Result<Value, Stop>
        ensures did { (told : Told) → Did value_seen result (state_seen self.new told)
            (moves.make_selector (state_seen self.old told)) }
        ensures memory { IfErr result (λ stop. stop ≡ NoMemory) }
        ensures fuel { self.new.fuel ≡ self.old.fuel }
    {
        let number = self.moves.len();
        self.moves.push(None)?;
        Ok(Value::Selector(number))
    }

    /// Gives a selector a statement with its delta, which is kept where nothing is yet, or the delta is less. What is no
    /// selector keeps nothing.
    #[tactic(auto, unfolding(comet_meaning::specs::Events::closed_over))]
    pub fn submit(&mut self, delta: i64, selector: &Value, body: &Later) -> Result<(), Stop>
        ensures did { (told : Told) → Did (λ _.
            tt) result (state_seen self.new told)
            (submitted delta (value_seen selector.now) (work_of body.now.value.value)
            (state_seen self.old told)) }
        ensures memory { IfErr result (λ stop. stop ≡ NoMemory) }
        ensures fuel { self.new.fuel ≡ self.old.fuel }
    {
        match selector {
            Value::Selector(number) => self.submit_to(delta, *number, body),
            _ => Ok(()),
        }
    }

    /// The same of the selector with a number.
    #[tactic(auto, unfolding(comet_meaning::specs::Events::closed_over, run_search::specs::Searches::moves_seen))]
    fn submit_to(&mut self, delta: i64, number: usize, body: &Later) -> Result<(), Stop>
        ensures did { (told : Told) → Did (λ _.
            tt) result (state_seen self.new told)
            (submitted delta (values.Selector number) (work_of body.now.value.value)
            (state_seen self.old told)) }
        ensures memory { IfErr result (λ stop. stop ≡ NoMemory) }
        ensures fuel { self.new.fuel ≡ self.old.fuel }
    {
        if !self.is_better(delta, number) {
            return Ok(());
        }
        let closure = self.closed_over(body)?;
        self.put_move(number, KeptMove { delta, closure });
        Ok(())
    }

    /// Whether a delta is less than that of the move that a selector keeps, or it keeps none.
    #[tactic(auto, unfolding(run_search::specs::Searches::moves_seen))]
    fn is_better(&self, delta: i64, number: usize) -> bool
        ensures { (told : Told) → result ≡
            moves.is_better delta (moves.kept_in (state_seen self.now told) number) }
    {
        match self.kept(number) {
            Some(kept) => delta < kept.delta,
            None => true,
        }
    }

    /// The move that the selector with a number keeps.
    #[tactic(auto, unfolding(run_search::specs::Searches::moves_seen))]
    fn kept(&self, number: usize) -> Option<&KeptMove>
        ensures { (told : Told) → option_map (λ m. move_seen m.now) result ≡
            moves.kept_in (state_seen self.now told) number }
    {
        match self.moves.get(number) {
            Some(kept) => kept.as_ref(),
            None => None,
        }
    }

    /// The selector with a number keeps this move.
    #[tactic(auto, unfolding(run_search::specs::Searches::moves_seen))]
    fn put_move(&mut self, number: usize, kept: KeptMove)
        ensures did { (told : Told) → moves.put_move number (move_seen kept)
            (state_seen self.old told) ≡ Went tt (state_seen self.new told) }
        ensures fuel { self.new.fuel ≡ self.old.fuel }
    {
        if number < self.moves.len() {
            self.moves[number] = Some(kept);
        }
    }

    /// Whether the selector with a number keeps a move.
    #[tactic(auto, unfolding(run_search::specs::Searches::moves_seen))]
    fn keeps(&self, number: usize) -> bool
        ensures { (told : Told) → result ≡
            is_some (moves.kept_in (state_seen self.now told) number) }
    {
        self.kept(number).is_some()
    }

    /// Whether a selector keeps a move, and nothing of what is no selector.
    #[tactic(auto, unfolding(comet_meaning::specs::Moves::has_move, run_search::specs::Searches::moves_seen))]
    pub fn has_move(&self, selector: &Value) -> Value
        ensures { (told : Told) → moves.has_move (value_seen selector.now)
            (state_seen self.now told) ≡ Went (value_seen result) (state_seen self.now told) }
    {
        match selector {
            Value::Selector(number) => Value::Truth(self.keeps(*number)),
            _ => Value::Nothing,
        }
    }

    /// The move of a selector, and nothing of what is no selector. `NoMove` at this place exactly where it keeps none.
    #[tactic(auto, unfolding(comet_meaning::specs::Moves::get_move, run_search::specs::Searches::moves_seen))]
    pub fn get_move(&self, at: Place, selector: &Value) -> Result<Value, Stop>
        ensures did { (told : Told) → Did value_seen result (state_seen self.now told)
            (moves.get_move at (value_seen selector.now) (state_seen self.now told)) }
        ensures stop { IfErr result IsFault }
    {
        match selector {
            Value::Selector(number) => {
                if self.keeps(*number) {
                    Ok(Value::Move(*number))
                } else {
                    Err(Stop::Fault(at, RunFault::NoMove))
                }
            }
            _ => Ok(Value::Nothing),
        }
    }

    /// A copy of what the move is that a selector keeps; `None` where it keeps none.
    #[tactic(auto, unfolding(run_search::specs::Searches::moves_seen))]
    pub fn kept_closure(&self, number: usize) -> Result<Option<Closure>, Stop>
        ensures kept { (told : Told) → IfOk result (λ c.
            option_map closure_seen c ≡ option_map (λ m.
            m.closure) (moves.kept_in (state_seen self.now told) number)) }
        ensures memory { IfErr result (λ stop. stop ≡ NoMemory) }
    {
        match self.kept(number) {
            Some(kept) => {
                let closure = kept.closure.copied(self.alloc)?;
                Ok(Some(closure))
            }
            None => Ok(None),
        }
    }

    /// Attaches a handler to a variable, which runs this statement, with the names that it sees now, and with the cells of
    /// the old and the new value. What is no variable gets none.
    #[tactic(auto, unfolding(comet_meaning::specs::Events::closed_over))]
    pub fn attach(
        &mut self,
        variable: &Value,
        names: Option<EventSlots>,
        body: &Later,
    ) -> Result<(), Stop>
        ensures did { (told : Told) → Did (λ _.
            tt) result (state_seen self.new told)
            (watched (value_seen variable.now) names (work_of body.now.value.value)
            (state_seen self.old told)) }
        ensures memory { IfErr result (λ stop. stop ≡ NoMemory) }
        ensures fuel { self.new.fuel ≡ self.old.fuel }
    {
        match variable {
            Value::Variable(variable) => {
                let closure = self.closed_over(body)?;
                self.search.attach(*variable, Reaction { names, closure })
            }
            _ => Ok(()),
        }
    }

    /// Keeps a solution; it gets the next number.
    pub fn keep_solution(&mut self, solution: Solution) -> Result<Value, Stop>
        ensures did { (told : Told) → Did value_seen result (state_seen self.new told)
            (add_solution (solution_seen solution) (state_seen self.old told)) }
        ensures memory { IfErr result (λ stop. stop ≡ NoMemory) }
        ensures fuel { self.new.fuel ≡ self.old.fuel }
    {
        match self.search.keep(solution) {
            Ok(number) => Ok(Value::Solution(number)),
            Err(stop) => Err(stop),
        }
    }

    /// Queues the events of changes.
    pub fn notice(&mut self, changes: &[VarChange]) -> Result<(), Stop>
        ensures did { (outside : Told) (k : ℕ) (cs : List Change) → changes.now ≡ map (told k) cs →
            Did (λ _. tt) result (state_seen self.new outside)
            (queued k cs (state_seen self.old outside)) }
        ensures memory { IfErr result (λ stop. stop ≡ NoMemory) }
        ensures fuel { self.new.fuel ≡ self.old.fuel }
    {
        self.search.queue(changes)
    }

    /// Restores the solution that a value is, and queues the events of what changes. At this place `NotClosed` where its
    /// solver is open, and then `WrongSolver` where that has other free variables by now; and else the fault of the
    /// variables where it was met.
    #[tactic(auto, unfolding(comet_meaning::specs::Solutions::restore))]
    pub fn restore<O: Outside>(
        &mut self,
        out: &mut O,
        at: Place,
        solution: &Value,
    ) -> Result<Value, Stop>
        ensures did { Did value_seen result (state_seen self.new (O.told out.new))
            (solutions.restore at (value_seen solution.now)
            (state_seen self.old (O.told out.old))) }
        ensures printed { (O.told out.new).printed ≡ (O.told out.old).printed }
        ensures stop { IfErr result IsFaultOrMemory }
        ensures fuel { self.new.fuel ≡ self.old.fuel }
    {
        match solution {
            Value::Solution(number) => self.restore_one(out, at, *number),
            _ => Ok(Value::Nothing),
        }
    }

    /// The same of the solution with a number.
    #[tactic(auto, unfolding(comet_meaning::specs::Solutions::restore))]
    fn restore_one<O: Outside>(
        &mut self,
        out: &mut O,
        at: Place,
        number: usize,
    ) -> Result<Value, Stop>
        ensures did { Did value_seen result (state_seen self.new (O.told out.new))
            (solutions.restore at (values.Solution number) (state_seen self.old (O.told out.old))) }
        ensures printed { (O.told out.new).printed ≡ (O.told out.old).printed }
        ensures stop { IfErr result IsFaultOrMemory }
        ensures fuel { self.new.fuel ≡ self.old.fuel }
    {
        let Some(solution) = self.search.solution(number) else {
            return Ok(Value::Nothing);
        };
        let changes = out.restore(at, solution)?;
        self.search.queue(&changes)?;
        Ok(Value::Nothing)
    }
}
