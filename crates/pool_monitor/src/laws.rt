//! Laws of pools over their definitions alone.
ghost use Rattle.std.specs.Prelude.{◌≡◌, ℕ, List, Some, slice_get, IsSomeAnd};
ghost use Rattle.best_turn.specs.declared.replays.Entry.{Entry};
ghost use Rattle.best_monitor.specs.declared.request.Reply.{Reply};
ghost use Rattle.pool_monitor.specs.declared.request.DeskRequest.{DeskRequest};
ghost use Rattle.pool_monitor.specs.Pool.{empty_pool};
ghost use Rattle.pool_monitor.specs.Desk.{DeskState};
ghost use Rattle.pool_monitor.specs.History.{fold, IsLegal};
ghost use Rattle.pool_monitor.specs.KLeast.{all_added, HasLeast};

/// After a legal history a pool that began empty has the first `most` of all solutions that were added to
/// it, in the history's order, sorted stably by value.
pub fn k_least()
    ensures { (desk : DeskState) (entries : List (Entry DeskRequest Reply)) (p most : ℕ) →
        slice_get desk.pools p ≡ Some (empty_pool most) → IsLegal desk entries →
        IsSomeAnd (slice_get (fold desk entries).pools p) (HasLeast most (all_added p entries)) }
{}
