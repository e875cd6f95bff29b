//! What is kept of a constraint: how it is made of others, the ids under which these are read, and the slots of their
//! argument places.

ghost use Rattle.std.specs.Prelude.{◌≡◌, ℕ, Bool};
ghost use Rattle.store_shares.specs.Parts.{Reading, told};
ghost use Rattle.store_shares.specs.Slots.{is_flat, kind_of, part_by};

use cbl_operations::Op;
use cbl_violations::Constraint;

/// A constraint, or a term in one. A plain constraint and `!` have a slot for each argument, one behind another; those
/// from the first one to before the end are all in it.
#[derive(Drop)]
pub(crate) enum Part {
    /// A term that tells no violations of its own.
    Leaf {
        id: u32,
    },
    Negation {
        id: u32,
        first: usize,
        end: usize,
    },
    Plain {
        id: u32,
        first: usize,
        end: usize,
    },
    /// All of its parts are to hold.
    Every {
        id: u32,
        first: usize,
        end: usize,
        parts: Vec<Part>,
    },
    /// One of its parts is to hold.
    One {
        id: u32,
        first: usize,
        end: usize,
        parts: Vec<Part>,
    },
}

/// The members of a system: those from the first one on to before the end.
#[derive(Clone, Copy)]
pub(crate) struct Span {
    pub(crate) first: usize,
    pub(crate) end: usize,
}

/// How a constraint is made of others: all are to hold, or one, or the only one isn't to hold; or it is plain.
#[derive(Clone, Copy)]
pub(crate) enum Kind {
    Every,
    One,
    Negation,
    Plain,
}

/// How a constraint is made of others.
pub(crate) fn kind_of(op: &Op) -> Kind
    ensures { result ≡ kind_of op.now }
{
    match op {
        Op::Constraint(Constraint::AllOf) => Kind::Every,
        Op::Constraint(Constraint::AnyOf) => Kind::One,
        Op::Constraint(Constraint::NotHeld) => Kind::Negation,
        _ => Kind::Plain,
    }
}

/// Whether a constraint isn't made of others that tell of the variable.
pub(crate) fn is_flat(kind: Kind) -> bool
    ensures { result ≡ is_flat kind }
{
    match kind {
        Kind::Every => false,
        Kind::One => false,
        Kind::Negation => true,
        Kind::Plain => true,
    }
}

/// The part of a constraint that is made so.
pub(crate) fn part_by(kind: Kind, id: u32, first: usize, end: usize, parts: Vec<Part>) -> Part
    ensures { result ≡ part_by kind id first end parts }
{
    match kind {
        Kind::Every => Part::Every {
            id,
            first,
            end,
            parts,
        },
        Kind::One => Part::One {
            id,
            first,
            end,
            parts,
        },
        Kind::Negation => Part::Negation { id, first, end },
        Kind::Plain => Part::Plain { id, first, end },
    }
}

/// The id under which a part is read.
pub(crate) fn id_of(part: &Part) -> u32
    ensures { (reading : Reading) (test : ℕ → Bool) →
        (told reading test part.now).number ≡ reading.number result }
{
    match part {
        Part::Leaf { id } => *id,
        Part::Negation { id, .. } => *id,
        Part::Plain { id, .. } => *id,
        Part::Every { id, .. } => *id,
        Part::One { id, .. } => *id,
    }
}
