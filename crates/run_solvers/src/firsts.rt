//! The first variable in a term.
ghost use Rattle.std.specs.Prelude.{◌≡◌};
ghost use Rattle.comet_meaning.specs.Systems.{first_variable};

use cbl_base::VarId;
use term_model::Term;

/// The first variable in a term, in the order of the operations' arguments.
pub(crate) fn first_variable(term: &Term) -> Option<VarId>
    ensures { result ≡ first_variable term.now }
{
    match term {
        Term::Const(_) => None,
        Term::ConstSet(_) => None,
        Term::Var(variable) => Some(*variable),
        Term::Node {
            op: _,
            args,
            place: _,
        } => {
            for arg in args {
                if let Some(variable) = first_variable(arg) {
                    return Some(variable);
                }
            }
            None
        }
    }
}
