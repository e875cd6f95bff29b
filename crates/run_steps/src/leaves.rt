//! What forms ask of their parts and of values, where nothing is evaluated.
ghost use Rattle.std.specs.Prelude.{◌≡◌, option_map};
ghost use Rattle.std.specs.Option.{option_copied};
ghost use Rattle.checked_tree.specs.Actions.{deed_of};
ghost use Rattle.checked_tree.specs.Shape.{seen};
ghost use Rattle.comet_meaning.specs.Parts as parts;
ghost use Rattle.run_steps.specs.Copies.{is_array};
ghost use Rattle.run_steps.specs.Returns.{returned_by};
ghost use Rattle.run_steps.specs.Views.{part};

use cbl_base::Place;
use checked_tree::{Action, Form, Kind, Typed};

/// Where a variable is read: at its name or its index, also in parentheses.
#[tactic(auto, unfolding(checked_tree::specs::Shape::shape_of))]
pub fn read_place(e: &Typed) -> Place
    ensures { result ≡ parts.read_place (part e.now) }
{
    match &e.form {
        Form::Parentheses(inner) => read_place(inner),
        _ => e.place,
    }
}

/// The value that an action returns, where it is a `return`.
#[tactic(auto, unfolding(checked_tree::specs::Actions::deed_of))]
pub fn returned(action: &Action) -> Option<&Option<Typed>>
    ensures { option_map (option_map seen) (option_copied result) ≡
        returned_by (deed_of action.now) }
{
    match action {
        Action::Return(value) => Some(value),
        Action::Empty => None,
        Action::Declare { .. } => None,
        Action::DeclareArray { .. } => None,
        Action::DeclareVariable(_) => None,
        Action::Make { .. } => None,
        Action::Write { .. } => None,
        Action::Swap { .. } => None,
        Action::Step { .. } => None,
        Action::Do(_) => None,
        Action::Choose(_) => None,
        Action::Print(_) => None,
    }
}

/// Whether a name of this kind has an array that is copied at its declaration.
pub fn is_array(kind: Kind) -> bool
    ensures { result ≡ is_array kind }
{
    matches!(kind, Kind::Array)
}
