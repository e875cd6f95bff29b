//! Violations of a whole list of numbers, which are those at each of its places too.
ghost use Rattle.std.specs.Prelude.{◌≡◌, pos};
ghost use Rattle.main_constraints.specs.WholeRule.{capped};

/// The most violations that a constraint tells.
const MOST_VIOLATIONS: u128 = 1 << 40;

/// So many violations, or the most that are told.
pub(crate) fn capped(violations: u128) -> i64
    ensures { result ≡ pos (capped violations) }
{
    violations.min(MOST_VIOLATIONS) as i64
}
