//! Terms that statements build.
ghost use Rattle.std.specs.Prelude.{◌≡◌, ◌++◌, ◌∷◌, ℕ, List, [], map, max, IfErr, IfOk, OnOk};
ghost use Rattle.std.specs.Bool.{OnFalse};
ghost use Rattle.cbl_operations.specs.declared.op.Op.TheVariants.{User};
ghost use Rattle.comet_meaning.specs.State.{State};
ghost use Rattle.comet_meaning.specs.Systems.{first_variable};
ghost use Rattle.comet_meaning.specs.TermForms.{node_form};
ghost use Rattle.model_view.specs.Building as building;
ghost use Rattle.model_view.specs.Plain.{plain_term};
ghost use Rattle.run_solvers.specs.Building.{AreBuilt, IsBuilt, IsShallow};
ghost use Rattle.run_values.specs.Did.{Did, IsFaultOrMemory};
ghost use Rattle.term_model.specs.Depth.{depth_of, greatest};
ghost use Rattle.term_model.specs.Naming.{user_number};
ghost use Rattle.term_model.specs.declared.term.Term.{Term as Tree};

use crate::firsts::first_variable;
use cbl_base::limits::MAX_TERM_DEPTH;
use cbl_base::{IntSet, Limit, NoMemory, Place, RunFault, VarId};
use cbl_operations::Op;
use run_values::Stop;
use std::alloc::Global;
use std::marker::Model;
use term_model::Term;

/// A term that is no deeper than a term may be. It is seen as its tree, without where its lists lie.
#[derive(Drop)]
pub struct Built {
    term: Term,
    depth: u32,
}

impl Model for Built {
    ghost use Rattle.term_model.specs.declared.term.Term.{Term as Tree};

    ghost Value = { Tree };

    ghost use Rattle.term_model.specs.contracts.term.Term as terms_seen;

    ghost coded = { terms_seen.the_row.coded };

    ghost use Rattle.model_view.specs.Plain.{plain_term};
    ghost use Rattle.run_solvers.specs.Building.{IsBuilt};

    ghost view = { λ a. plain_term a.term };

    ghost invariant = { λ a. IsBuilt a.term a.depth };
}

/// Terms in a row, and the depth of the deepest.
#[derive(Drop)]
pub(crate) struct Row {
    pub(crate) terms: Vec<Term>,
    pub(crate) deepest: u32,
}

impl Built {
    /// A number.
    pub fn constant(number: i64) -> Built
        ensures { result ≡ building.constant number }
    {
        leaf(Term::Const(number))
    }

    /// A set of numbers.
    pub fn constant_set(members: IntSet) -> Built
        ensures { result ≡ building.constant_set members }
    {
        leaf(Term::ConstSet(members))
    }

    /// A variable.
    pub fn variable(variable: VarId) -> Built
        ensures { result ≡ building.variable variable }
    {
        leaf(Term::Var(variable))
    }

    /// An operation of terms, which stands at a place. `TooMany` term nodes there exactly where it is deeper than a term
    /// may be. `NoMemory` also for a user's constraint, which no program's term has.
    #[tactic(auto, unfolding(comet_meaning::specs::TermForms::node_form))]
    pub fn node(at: Place, op: Op, args: Vec<Built>) -> Result<Built, Stop>
        ensures did { (s : State) → Did (λ t. t) result s (node_form at op args.items s) }
        ensures stop { IfErr result IsFaultOrMemory }
    {
        if is_user(&op) {
            return Err(Stop::NoMemory);
        }
        match row_of(args) {
            Ok(row) => node_over(at, op, row),
            Err(NoMemory) => Err(Stop::NoMemory),
        }
    }

    /// Its depth.
    fn depth(&self) -> u32
        ensures { result ≡ depth_of self.now }
    {
        self.depth
    }

    /// The first variable in it, in the order of the operations' arguments.
    pub(crate) fn first_variable(&self) -> Option<VarId>
        ensures { result ≡ first_variable self.now }
    {
        first_variable(&self.term)
    }

    /// The term itself.
    pub(crate) fn term(self) -> Term
        ensures seen { plain_term result ≡ self }
        ensures built { IsShallow result }
    {
        self.term
    }
}

/// The depth of the deepest of terms, and 0 where there is none.
fn deepest_of(terms: &[Built]) -> u32
    ensures { result ≡ greatest (map depth_of terms.now) }
{
    let mut deepest = 0;
    for term in terms {
        deepest = deeper(deepest, term.depth());
    }
    deepest
}

/// Whether a user's constraint over places is no deeper than a term may be. `TooMany` term nodes at its place exactly where it
/// is; there is no other stop.
#[tactic(auto, unfolding(comet_meaning::specs::TermForms::node_form))]
pub fn user_fits(at: Place, places: &[Built]) -> Result<(), Stop>
    ensures did { (number : ℕ) (s : State) →
        Did (λ _. building.node (User number) places.now at) result s
        (node_form at (User number) places.now s) }
    ensures stop { IfErr result IsFaultOrMemory }
{
    if deepest_of(places) >= MAX_TERM_DEPTH {
        return Err(Stop::Fault(at, RunFault::TooMany(Limit::TermNodes)));
    }
    Ok(())
}

/// A term without arguments.
fn leaf(term: Term) -> Built
    requires { IsBuilt term 0 }
    ensures { result ≡ plain_term term }
{
    Built { term, depth: 0 }
}

/// Whether it is a user's constraint.
fn is_user(op: &Op) -> bool
    ensures { OnFalse result (user_number op.now ≡ []) }
{
    match op {
        Op::User { number: _ } => true,
        _ => false,
    }
}

/// The terms in a row.
pub(crate) fn row_of(args: Vec<Built>) -> Result<Row, NoMemory>
    ensures { IfOk result (λ row. AreBuilt row.terms.items row.deepest args.items) }
{
    let mut row = Row {
        terms: Vec::new(*args.allocator()),
        deepest: 0,
    };
    for built in args {
        push_built(&mut row, built)?;
    }
    Ok(row)
}

/// The greater of two depths.
fn deeper(depth: u32, other: u32) -> u32
    ensures { result ≡ max depth other }
{
    if depth < other { other } else { depth }
}

/// One more term, behind those in a row.
fn push_built(row: &mut Row, built: Built) -> Result<(), NoMemory>
    ensures { OnOk result ((before : List Tree) →
        AreBuilt row.old.terms.items row.old.deepest before →
        AreBuilt row.new.terms.items row.new.deepest (before ++ built ∷ [])) }
{
    let depth = built.depth;
    row.terms.push(built.term)?;
    row.deepest = deeper(row.deepest, depth);
    Ok(())
}

/// An operation of the terms in a row.
#[tactic(auto, unfolding(comet_meaning::specs::TermForms::node_form))]
fn node_over(at: Place, op: Op, row: Row) -> Result<Built, Stop>
    requires built { (plain : List Tree) × AreBuilt row.terms.items row.deepest plain }
    requires users { user_number op ≡ [] }
    ensures did { (plain : List Tree) → AreBuilt row.terms.items row.deepest plain → (s : State) →
        Did (λ t. t) result s (node_form at op plain s) }
    ensures stop { IfErr result IsFaultOrMemory }
{
    if row.deepest >= MAX_TERM_DEPTH {
        return Err(Stop::Fault(at, RunFault::TooMany(Limit::TermNodes)));
    }
    Ok(Built {
        term: Term::Node {
            op,
            args: row.terms,
            place: at,
        },
        depth: row.deepest + 1,
    })
}
