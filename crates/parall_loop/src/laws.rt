//! Laws of loops over their definitions alone.
ghost use Rattle.std.specs.Prelude.{ℕ, List};
ghost use Rattle.parall_loop.specs.Iteration.{Next};
ghost use Rattle.parall_loop.specs.Schedule.{MayAsk, Schedules};

use best_turn::Replays;

/// On every schedule, at each point, the history is legal and the entries of each iteration are a front of what
/// it asks. Where all iterations have ended the history fits the loop. Each history that fits is that of the
/// schedule of its own iteration numbers.
pub fn schedule<S: Replays, T>()
    ensures { (start : S) (asks : ℕ → List S.Reply → Next S.Request T) (n : ℕ) →
        MayAsk S.takes S.after S.answer start asks n →
        Schedules S.takes S.after S.answer start asks n }
{}
