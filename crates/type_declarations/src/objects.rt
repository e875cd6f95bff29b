//! The making of objects.
ghost use Rattle.std.specs.Prelude.{◌≡◌, map, IfOk};
ghost use Rattle.tree_makers.specs.Makes.{Makes};
ghost use Rattle.checked_tree.specs.Shape.{seen};
ghost use Rattle.checked_tree.specs.Actions.{deed_of};
ghost use Rattle.type_scopes.specs.Did.{Did};
ghost use Rattle.type_scopes.specs.Names as names;
ghost use Rattle.type_declarations.specs.Objects as objects;
ghost use Rattle.type_declarations.specs.View.{handing_of};

use crate::parts::rule;
use cbl_base::Place;
use checked_tree::{Action, Cause, Kind, Slot, Stop, Typed};
use comet_syntax::tree::{Argument, Class, Maker, Name};
use std::alloc::Global;
use tree_makers::kept::{behind, beside};
use tree_makers::make_actions::make_object;
use type_calls::{act_on, arguments_fault, roots_of};
use type_expressions::check_arguments;
use type_rules::Context;
use type_rules::classes::{class_is_ls, class_kind, class_wants};
use type_rules::kinds::is_same;
use type_scopes::{Checker, Doing, Scope, Slots};

fn made_kind(class: &Class, maker: &Maker) -> Kind
    ensures { result ≡ objects.made_kind class.now maker.now }
{
    match maker {
        Maker::Direct(_) => class_kind(&class.kind),
        Maker::New { made, .. } => class_kind(&made.kind),
    }
}

fn is_made_ls(maker: &Maker) -> bool
    ensures { result ≡ objects.is_made_ls maker.now }
{
    match maker {
        Maker::Direct(_) => true,
        Maker::New { made, .. } => class_is_ls(&made.kind),
    }
}

fn maker_arguments(maker: &Maker) -> &[Argument]
    ensures { result.now ≡ objects.maker_arguments maker.now }
{
    match maker {
        Maker::Direct(arguments) => arguments.as_slice(),
        Maker::New { arguments, .. } => arguments.as_slice(),
    }
}

fn making_context(kind: Kind, context: Context) -> Context
    ensures { result ≡ objects.making_context kind context }
{
    match kind {
        Kind::Objective => Context::Term,
        _ => context,
    }
}

/// The arguments, and the incremental variables that they name as terms.
#[derive(Drop)]
pub struct Handing {
    pub arguments: Vec<Typed>,
    terms: Vec<Slot>,
}

/// Judges the arguments of the making of an object of this class. Refused at the first argument that is;
/// `NoMemory` where memory runs out.
#[tactic(auto, unfolding(crate::specs::Objects::handed_form))]
pub fn check_handed(
    checker: &mut Checker,
    scope: Scope,
    kind: Kind,
    arguments: &[Argument],
) -> Result<Handing, Stop>
    ensures { Did handing_of result checker.new
        (objects.handed_form kind arguments.now scope checker.old) }
{
    let count = checker.term_count();
    let context = making_context(kind, scope.context);
    let arguments = check_arguments(checker, context, scope, arguments)?;
    let terms = Vec::from_slice(checker.alloc(), checker.terms_behind(count));
    let (arguments, terms) = beside(arguments, terms)?;
    Ok(Handing { arguments, terms })
}

fn first_roots(alloc: Global, arguments: &[Typed]) -> Result<Vec<Slot>, Stop>
    ensures { Makes (λ roots. roots.items) result (objects.first_roots (map seen arguments.now)) }
{
    match arguments.first() {
        None => Ok(Vec::new(alloc)),
        Some(first) => roots_of(alloc, first),
    }
}

/// The cells of what the making writes: a system's and a sum's solver, a `FunctionExpr`'s variables. The error is
/// `NoMemory` alone.
pub fn making_roots(alloc: Global, kind: Kind, handed: &Handing) -> Result<Vec<Slot>, Stop>
    ensures { Makes (λ roots. roots.items) result
        (objects.making_roots kind (handing_of handed.now)) }
{
    match kind {
        Kind::System => first_roots(alloc, &handed.arguments),
        Kind::Total => first_roots(alloc, &handed.arguments),
        Kind::Objective => {
            let terms = Vec::from_slice(alloc, &handed.terms)?;
            Ok(terms)
        }
        _ => Ok(Vec::new(alloc)),
    }
}

/// The cells of the solver that a solution belongs to, and none of any other object. The error is `NoMemory` alone.
pub fn kept_solvers(alloc: Global, kind: Kind, handed: &Handing) -> Result<Vec<Slot>, Stop>
    ensures { Makes (λ roots. roots.items) result
        (objects.kept_solvers kind (handing_of handed.now)) }
{
    match kind {
        Kind::Solution => first_roots(alloc, &handed.arguments),
        _ => Ok(Vec::new(alloc)),
    }
}

/// What the making of an object does: no `parall` makes a monitor.
pub fn object_doing(kind: Kind) -> Doing
    ensures { result ≡ objects.object_doing kind }
{
    Doing {
        impure: true,
        not_in_term: false,
        global: false,
        through: true,
        forbidden: is_same(kind, Kind::Monitor),
    }
}

/// Why these arguments don't make an object of this class, if they don't: their number, then their types.
pub fn making_fault(kind: Kind, arguments: &[Typed]) -> Option<Cause>
    ensures { result ≡ objects.making_fault kind (map seen arguments.now) }
{
    let wants = class_wants(kind);
    arguments_fault(wants, wants.len(), arguments)
}

fn object_fault(is_new: bool, kind: Kind, made: Kind, arguments: &[Typed]) -> Option<Cause>
    ensures { result ≡ objects.object_fault is_new kind made (map seen arguments.now) }
{
    if !is_new {
        Some(Cause::DeclaredTwice)
    } else if is_same(kind, made) {
        making_fault(kind, arguments)
    } else {
        Some(Cause::WrongType)
    }
}

/// The fault of another technology than `LS`.
pub fn ls_fault(is_ls: bool) -> Option<Cause>
    ensures { result ≡ objects.ls_fault is_ls }
{
    if is_ls { None } else { Some(Cause::OnlyLs) }
}

fn declare_object(
    checker: &mut Checker,
    name: &Name,
    kind: Kind,
    handed: Handing,
    scope: Scope,
) -> Result<Action, Stop>
    ensures { Did deed_of result checker.new
        (objects.object_declared name.now kind (handing_of handed) scope checker.old) }
{
    let solvers = kept_solvers(checker.alloc(), kind, &handed);
    let (handed, solvers) = beside(handed, solvers)?;
    let slot = scope.slot_of(checker.count());
    let declared = checker.declare_with(name.text.as_slice(), kind, 0, Slots::new(solvers));
    let handed = behind(declared, handed)?;
    Ok(make_object(slot, kind, handed.arguments))
}

fn is_new(checker: &Checker, name: &Name, scope: Scope) -> bool
    ensures { result ≡ names.is_new name.now.text scope.block checker.now.names }
{
    checker.is_new(name.text.as_slice(), scope.block)
}

/// Where an object is declared, and whether its class and the made one say `LS` where they say something.
#[derive(Clone, Copy)]
struct Made {
    place: Place,
    is_ls: bool,
    kind: Kind,
    made: Kind,
}

fn make_new(
    checker: &mut Checker,
    made: Made,
    name: &Name,
    handed: Handing,
    scope: Scope,
) -> Result<Action, Stop>
    ensures { Did deed_of result checker.new
        (objects.object_made made.place made.is_ls name.now made.kind made.made
        (handing_of handed) scope checker.old) }
{
    let is_new = is_new(checker, name, scope);
    let fault = object_fault(is_new, made.kind, made.made, &handed.arguments);
    let handed = behind(rule(made.place, fault), handed)?;
    let roots = making_roots(checker.alloc(), made.kind, &handed);
    let (handed, roots) = beside(handed, roots)?;
    let done = act_on(checker, made.place, scope, object_doing(made.kind), &roots);
    let handed = behind(done, handed)?;
    let handed = behind(rule(made.place, ls_fault(made.is_ls)), handed)?;
    declare_object(checker, name, made.kind, handed, scope)
}

/// Judges the declaration of an object. Refused at the first argument that is, and else at the class; `NoMemory`
/// where memory runs out.
#[tactic(auto, unfolding(crate::specs::Objects::object_form))]
pub fn check_object(
    checker: &mut Checker,
    scope: Scope,
    class: &Class,
    name: &Name,
    maker: &Maker,
) -> Result<Action, Stop>
    ensures { Did deed_of result checker.new
        (objects.object_form class.now name.now maker.now scope checker.old) }
{
    let kind = class_kind(&class.kind);
    let handed = check_handed(checker, scope, kind, maker_arguments(maker))?;
    let made = Made {
        place: class.place,
        is_ls: class_is_ls(&class.kind) && is_made_ls(maker),
        kind,
        made: made_kind(class, maker),
    };
    make_new(checker, made, name, handed, scope)
}
