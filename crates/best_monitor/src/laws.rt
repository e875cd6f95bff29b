//! Laws of monitors over their definitions alone.
ghost use Rattle.std.specs.Prelude.{ℕ, ◌<◌, List, length};
ghost use Rattle.best_turn.specs.declared.replays.Entry.{Entry};
ghost use Rattle.best_monitor.specs.declared.monitor.Monitor.{Monitor};
ghost use Rattle.best_monitor.specs.declared.request.Request.{Request};
ghost use Rattle.best_monitor.specs.declared.request.Reply.{Reply};
ghost use Rattle.best_monitor.specs.History.{fold, IsLegal};
ghost use Rattle.best_monitor.specs.Least.{best_of, offers_of, IsLeastOf};

/// After a legal history a monitor has a best exactly where it had one or a report stands in the history.
/// Its pair of value and second value is the least of all these. Its list is the one that it had where
/// that has this pair, else that of the first report with it.
pub fn least()
    ensures { (board : List Monitor) (entries : List (Entry Request Reply)) (m : ℕ) →
        m < length board → IsLegal board entries →
        IsLeastOf (offers_of board entries m) (best_of (fold board entries) m) }
{}
