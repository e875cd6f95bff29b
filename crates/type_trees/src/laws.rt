//! What holds of every two programs.
ghost use Rattle.std.specs.Prelude.{◌≡◌};
ghost use Rattle.comet_syntax.specs.declared.tree.program.Program.{Program};
ghost use Rattle.comet_types.specs.Program.{judged};
ghost use Rattle.parse_unique.specs.Bare.{SameProgram};

/// Programs that are the same without their pointers are judged alike: accepted with the same checked tree, or
/// refused at the same place with the same code.
pub fn programs_alike()
    ensures { (p q : Program) → SameProgram p q → judged p ≡ judged q }
{}
