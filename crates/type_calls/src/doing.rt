//! What parts do beyond giving a value, where it may be done.
ghost use Rattle.std.specs.Prelude.{◌≡◌, []};
ghost use Rattle.std.specs.List.{list_any};
ghost use Rattle.type_scopes.specs.Did.{Did};
ghost use Rattle.type_scopes.specs.Names as names;
ghost use Rattle.type_calls.specs.Doing as calls;

use cbl_base::Place;
use checked_tree::{Cause, Slot, Stop};
use type_rules::rules::is_pure;
use type_scopes::{Checker, Doing, Scope};

fn is_any_outside(scope: Scope, roots: &[Slot]) -> bool
    ensures { result ≡ list_any (names.is_outside scope) roots.now }
{
    roots.iter().any(|slot| scope.is_outside(*slot))
}

fn doing_fault(scope: Scope, doing: Doing, roots: &[Slot]) -> Option<Cause>
    ensures { result ≡ calls.doing_fault scope doing roots.now }
{
    let in_parall = scope.parall.is_some();
    if doing.impure && is_pure(scope.context) {
        Some(Cause::NotPure)
    } else if doing.not_in_term {
        Some(Cause::NotInTerm)
    } else if (in_parall && doing.global) || is_any_outside(scope, roots) {
        Some(Cause::WritesOuter)
    } else if in_parall && doing.forbidden {
        Some(Cause::NotInParall)
    } else {
        None
    }
}

/// Does what a part does beyond giving a value, where it may.
#[tactic(auto, unfolding(crate::specs::Doing::act_on))]
pub fn act_on(
    checker: &mut Checker,
    place: Place,
    scope: Scope,
    doing: Doing,
    roots: &[Slot],
) -> Result<(), Stop>
    ensures { Did (λ _. tt) result checker.new
        (calls.act_on place scope doing roots.now checker.old) }
{
    match doing_fault(scope, doing, roots) {
        Some(cause) => Err(Stop::Fault(place, cause)),
        None => {
            checker.do_this(doing, roots);
            Ok(())
        }
    }
}

/// The cells of no name.
pub fn no_root() -> &'static [Slot]
    ensures { result.now ≡ [] }
{
    &[]
}
