//! Laws over the definitions alone.
ghost use Rattle.std.specs.Prelude.{◌≡◌, ℕ, List};
ghost use Rattle.cbl_base.specs.declared.place.Place.{Place};
ghost use Rattle.checked_tree.specs.Tasks.{Whole};
ghost use Rattle.comet_syntax.specs.declared.stop.FormCause.{FormCause};
ghost use Rattle.comet_front.specs.Reading.{HasProgram, IsIllFormed, IsIllTyped};

/// A text is at most one checked program, or its form is refused at one place for one cause, or its types are at
/// one place with one code; and no two of these.
pub fn one_reading()
    ensures program { (text : List ℕ) (program other : Whole) →
        HasProgram text program → HasProgram text other → program ≡ other }
    ensures refusal { (text : List ℕ) (place other : Place) (cause another : FormCause) →
        IsIllFormed text place cause → IsIllFormed text other another → (place ≡ other) × (cause ≡ another) }
    ensures either { (text : List ℕ) (program : Whole) (place : Place) (cause : FormCause) →
        HasProgram text program → IsIllFormed text place cause → ⊥ }
    ensures typing { (text : List ℕ) (place other : Place) (code another : ℕ) →
        IsIllTyped text place code → IsIllTyped text other another → (place ≡ other) × (code ≡ another) }
    ensures typed { (text : List ℕ) (program : Whole) (place : Place) (code : ℕ) →
        HasProgram text program → IsIllTyped text place code → ⊥ }
    ensures formed { (text : List ℕ) (place other : Place) (cause : FormCause) (code : ℕ) →
        IsIllFormed text place cause → IsIllTyped text other code → ⊥ }
{}
