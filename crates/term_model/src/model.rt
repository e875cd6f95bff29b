//! Models.

use crate::term::Term;
use cbl_base::{Place, VarId};

/// What the value of a variable is.
#[derive(Clone, Copy, PartialEq, Eq, Debug)]
pub enum VarKind {
    Number,
    Set,
}

/// A variable, with its domain from `low` to `up`.
#[derive(Clone, Copy, Debug)]
pub struct VarDecl {
    pub kind: VarKind,
    pub low: i64,
    pub up: i64,
}

/// A variable that always equals a term.
#[derive(Drop, Debug)]
pub struct Definition {
    pub var: VarId,
    pub term: Term,
}

/// A constraint of a system, or a term of an objective, with its weight.
#[derive(Drop, Debug)]
pub struct Member {
    pub term: Term,
    pub weight: i64,
}

/// A system, or an objective: the total of its members, each times its weight.
#[derive(Drop, Debug)]
pub struct Total {
    pub place: Place,
    pub members: Vec<Member>,
}

/// What was posted: the definition, the constraint of a system, or the term of an objective with these
/// numbers, each from 0.
#[derive(Clone, Copy, PartialEq, Eq, Debug)]
pub enum Posted {
    Define(u32),
    Constrain { system: u32, member: u32 },
    Part { objective: u32, member: u32 },
}

/// What a solver means: its variables, definitions, systems and objectives in order of declaration, and in
/// order of posting what was posted.
#[derive(Drop, Debug)]
pub struct Model {
    pub vars: Vec<VarDecl>,
    pub defs: Vec<Definition>,
    pub systems: Vec<Total>,
    pub objectives: Vec<Total>,
    pub posted: Vec<Posted>,
}
