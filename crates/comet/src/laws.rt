//! What holds of every output.
ghost use Rattle.std.specs.Prelude.{◌≡◌, ℕ, List};
ghost use Rattle.cbl_io.specs.Held.{Held};
ghost use Rattle.comet_meaning.specs.Users.{User};
ghost use Rattle.comet.specs.declared.report.Cause.{Cause};
ghost use Rattle.comet.specs.Output.{RunOutput};

/// Users' constraints, words and held files have at most one output: one cause, and one list of printed bytes.
pub fn one_output()
    ensures { (users : List User) (words : List (List ℕ)) (held : Held) (cause other : Cause) (printed others : List ℕ) →
        RunOutput users words held cause printed → RunOutput users words held other others → (cause ≡ other) × (printed ≡ others) }
{}
