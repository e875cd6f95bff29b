//! Which of some variables have a mark.
ghost use Rattle.std.specs.Prelude.{◌≡◌};
ghost use Rattle.std.specs.List.{list_any};
ghost use Rattle.model_values.specs.Dependence.{marked};

/// Whether a variable has a mark.
pub fn is_marked(marks: &[bool], index: usize) -> bool
    ensures { result ≡ marked marks.now index }
{
    marks.get(index).copied().unwrap_or(false)
}

/// Whether one of these variables has a mark.
pub fn is_one_marked(marks: &[bool], names: &[u32]) -> bool
    ensures { result ≡ list_any (marked marks.now) names.now }
{
    names.iter().any(|name| is_marked(marks, *name as usize))
}
