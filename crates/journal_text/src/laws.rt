//! The law of journals' texts over their definitions alone.
ghost use Rattle.std.specs.Prelude.{◌≡◌, ◌↔◌, ℕ, Result, Ok, List};
ghost use Rattle.pool_monitor.specs.declared.journal.LoopHistory.{LoopHistory};
ghost use Rattle.journal_text.specs.Versions.{version_3};
ghost use Rattle.journal_text.specs.Grammar.{IsJournal};
ghost use Rattle.journal_text.specs.Printed.{printed};
ghost use Rattle.journal_text.specs.Refusal.{IsReading};

/// What is read of the text that a journal within the bounds is printed as is that journal, and nothing else.
pub fn round_trip()
    ensures { (journal : List LoopHistory) (told : Result (List LoopHistory) ℕ) →
        IsJournal version_3 journal →
        (IsReading (printed journal) told ↔ told ≡ Ok journal) }
{}
