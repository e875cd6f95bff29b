//! How the parts inside a part are executed, one level further in. The functions of all forms are generic in it, so that
//! none of them is in a cycle with another: only what makes an `Inside` is.
ghost use Rattle.std.specs.Prelude.{◌≡◌, ℕ, List};
ghost use Rattle.checked_tree.specs.Tasks.{work_of};
ghost use Rattle.comet_meaning.specs.Levels as levels;
ghost use Rattle.comet_meaning.specs.Parts as parts;
ghost use Rattle.comet_meaning.specs.Program.{level};
ghost use Rattle.run_objects.specs.OfRunState.InTerms.{in_term_seen};
ghost use Rattle.run_objects.specs.OfRunState.Targets.{target_seen};
ghost use Rattle.run_objects.specs.OfRunOutside.Told.{Told};
ghost use Rattle.run_objects.specs.OfRunState.Views.{state_seen};
ghost use Rattle.run_steps.specs.Does.{Does};
ghost use Rattle.run_steps.specs.Inside.{Defines, Evaluates, Executes, Locates};
ghost use Rattle.run_steps.specs.Spending.{TakesFuel};
ghost use Rattle.run_steps.specs.Views.{code_seen, flow_seen, part};
ghost use Rattle.run_values.specs.Views.{value_seen};

use crate::code::{Code, Flow};
use crate::short_calls::called_number;
use checked_tree::{Task, Typed};
use run_objects::state_of_runs::{InTerm, Outside, State, Target};
use run_values::{Stop, Value};

/// How the parts inside a part are executed: each with the program's functions, and with room for so many parts inside
/// each other.
pub trait Within<O: Outside> {
    /// The program's functions.
    ghost code: { Self → levels.Code };

    /// How many parts may still be executed inside each other.
    ghost depth: { Self → ℕ };

    /// Whether parts may be evaluated and executed.
    ghost is_ready: { Self → Type 0 };

    /// How many parts may still be executed inside each other.
    fn room(&self) -> u32
        ensures { result ≡ depth self.now };

    /// The number of a part that is a short call, or a chain with short calls, where there is room and fuel for it. Where
    /// nothing is answered, the state is as it was.
    fn called_number(&self, s: &mut State, e: &Typed) -> Option<i64>
        ensures given { (told : Told) → TakesFuel result (state_seen s.old told)
            (state_seen s.new told) (parts.value (level (code self.now) (depth self.now))
            (part e.now) (state_seen s.old told)) };

    /// The value of an expression; of a variable the variable itself.
    fn evaluate(&self, s: &mut State, out: &mut O, e: &Typed) -> Result<Value, Stop>
        requires { is_ready self.now }
        ensures did { Does value_seen result (state_seen s.new (O.told out.new))
            ((level (code self.now) (depth self.now)).expr (part e.now)
            (state_seen s.old (O.told out.old))) };

    /// What a statement does, and how it ends.
    fn execute(&self, s: &mut State, out: &mut O, t: &Task) -> Result<Flow, Stop>
        requires { is_ready self.now }
        ensures did { Does flow_seen result (state_seen s.new (O.told out.new))
            ((level (code self.now) (depth self.now)).stmt (work_of t.now)
            (state_seen s.old (O.told out.old))) };
}

/// The same, where parts stand in a term, too.
pub trait Defining<O: Outside>: Within<O> {
    /// Whether terms may be asked for.
    ghost can_define: { Self → Type 0 };

    /// What an expression stands for in a term.
    fn define(&self, s: &mut State, out: &mut O, e: &Typed) -> Result<InTerm, Stop>
        requires { can_define self.now }
        ensures did { Does in_term_seen result (state_seen s.new (O.told out.new))
            ((level (Self.code self.now) (Self.depth self.now)).term (part e.now)
            (state_seen s.old (O.told out.old))) };
}

/// The same, where parts are written, too.
pub trait Around<O: Outside>: Defining<O> {
    /// Whether targets may be asked for.
    ghost can_locate: { Self → Type 0 };

    /// What an expression stands for where it is written.
    fn locate(&self, s: &mut State, out: &mut O, e: &Typed) -> Result<Target, Stop>
        requires { can_locate self.now }
        ensures did { Does target_seen result (state_seen s.new (O.told out.new))
            ((level (Self.code self.now) (Self.depth self.now)).target (part e.now)
            (state_seen s.old (O.told out.old))) };
}

/// The same, by a function for each kind of part; where none is asked for, `()` stands in its place.
#[derive(Drop)]
pub struct Inside<'a, 'p, V, X, T, L> {
    pub code: &'a Code<'p>,
    pub room: u32,
    pub evaluate: V,
    pub execute: X,
    pub define: T,
    pub locate: L,
}

impl<
    'a,
    'p,
    O: Outside,
    V: Fn(&mut State, &mut O, &Typed) -> Result<Value, Stop>,
    X: Fn(&mut State, &mut O, &Task) -> Result<Flow, Stop>,
    T,
    L,
> Within<O> for Inside<'a, 'p, V, X, T, L> {
    ghost code = { λ i. code_seen i.code.now };

    ghost depth = { λ i. i.room };

    ghost is_ready = { λ i. (V.IsAlwaysCallable i.evaluate ×
        Evaluates O.told (V.post i.evaluate) (code_seen i.code.now) i.room) ×
        (X.IsAlwaysCallable i.execute × Executes O.told (X.post i.execute)
        (code_seen i.code.now) i.room) };

    fn room(&self) -> u32 {
        self.room
    }

    fn called_number(&self, s: &mut State, e: &Typed) -> Option<i64> {
        called_number(s, self.code, self.room, e)
    }

    fn evaluate(&self, s: &mut State, out: &mut O, e: &Typed) -> Result<Value, Stop> {
        (self.evaluate)(s, out, e)
    }

    fn execute(&self, s: &mut State, out: &mut O, t: &Task) -> Result<Flow, Stop> {
        (self.execute)(s, out, t)
    }
}

impl<
    'a,
    'p,
    O: Outside,
    V: Fn(&mut State, &mut O, &Typed) -> Result<Value, Stop>,
    X: Fn(&mut State, &mut O, &Task) -> Result<Flow, Stop>,
    T: Fn(&mut State, &mut O, &Typed) -> Result<InTerm, Stop>,
    L,
> Defining<O> for Inside<'a, 'p, V, X, T, L> {
    ghost can_define = { λ i. T.IsAlwaysCallable i.define ×
        Defines O.told (T.post i.define) (code_seen i.code.now) i.room };

    fn define(&self, s: &mut State, out: &mut O, e: &Typed) -> Result<InTerm, Stop> {
        (self.define)(s, out, e)
    }
}

impl<
    'a,
    'p,
    O: Outside,
    V: Fn(&mut State, &mut O, &Typed) -> Result<Value, Stop>,
    X: Fn(&mut State, &mut O, &Task) -> Result<Flow, Stop>,
    T: Fn(&mut State, &mut O, &Typed) -> Result<InTerm, Stop>,
    L: Fn(&mut State, &mut O, &Typed) -> Result<Target, Stop>,
> Around<O> for Inside<'a, 'p, V, X, T, L> {
    ghost can_locate = { λ i. L.IsAlwaysCallable i.locate ×
        Locates O.told (L.post i.locate) (code_seen i.code.now) i.room };

    fn locate(&self, s: &mut State, out: &mut O, e: &Typed) -> Result<Target, Stop> {
        (self.locate)(s, out, e)
    }
}
