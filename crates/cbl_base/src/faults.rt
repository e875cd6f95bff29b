//! The faults of a run, with the codes and texts that a user sees.
ghost use Rattle.std.specs.Prelude.{◌≡◌};
ghost use Rattle.cbl_base.specs.Faults.{code_of, text_of, limit_text_of};

use std::alloc::{AllocError, AllocFailed};

/// There was no memory.
#[derive(Clone, Copy, PartialEq, Eq, Debug)]
pub struct NoMemory;

impl From<AllocError> for NoMemory {
    fn from(_error: AllocError) -> NoMemory {
        NoMemory
    }
}

impl<T: Drop> From<AllocFailed<T>> for NoMemory {
    fn from(_error: AllocFailed<T>) -> NoMemory {
        NoMemory
    }
}

/// Want of memory, however it is told. An error that `?` makes of it is by one `From` for all of these.
pub trait WantOfMemory: Drop {}

impl WantOfMemory for NoMemory {}

impl WantOfMemory for AllocError {}

impl<T: Drop> WantOfMemory for AllocFailed<T> {}

/// What there can be too many of.
#[derive(Clone, Copy, PartialEq, Eq, Debug)]
pub enum Limit {
    Variables,
    TermNodes,
    Candidates,
    Cells,
    Iterations,
}

/// A fault that ends a run. A user sees its code, F1 to F18 in the order of the variants, and its text.
#[derive(Clone, Copy, PartialEq, Eq, Debug)]
pub enum RunFault {
    Overflow,
    DivideByZero,
    OutOfRange,
    NotClosed,
    AlreadyClosed,
    DefinedVariable,
    NoMove,
    NoBest,
    EmptyRange,
    NoData,
    BadData,
    Depth,
    TooMany(Limit),
    WrongSolver,
    JournalFull,
    OutputFull,
    UnknownUser,
    UserSpent,
}

/// Why a probe of a node gives no value.
#[derive(Clone, Copy, PartialEq, Eq, Debug)]
pub enum NodeFault {
    Run(RunFault),
    NoMemory,
}

impl<E: WantOfMemory> From<E> for NodeFault {
    ghost use Rattle.std.specs.Prelude.{◌≡◌};
    ghost use Rattle.cbl_base.specs.declared.faults.NodeFault.TheVariants.{NoMemory as WithoutMemory};

    ghost from_gives = { λ _ fault. fault ≡ WithoutMemory };

    fn from(_error: E) -> NodeFault {
        NodeFault::NoMemory
    }
}

impl From<RunFault> for NodeFault {
    ghost use Rattle.std.specs.Prelude.{◌≡◌};
    ghost use Rattle.cbl_base.specs.declared.faults.NodeFault.TheVariants.{Run};

    ghost from_gives = { λ fault made. made ≡ Run fault };

    fn from(fault: RunFault) -> NodeFault {
        NodeFault::Run(fault)
    }
}

impl Limit {
    /// The word that a user sees for what there is too many of.
    pub fn text(self) -> &'static str
        ensures { result.now ≡ limit_text_of self }
    {
        match self {
            Limit::Variables => "variables",
            Limit::TermNodes => "terms",
            Limit::Candidates => "candidates",
            Limit::Cells => "cells",
            Limit::Iterations => "iterations",
        }
    }
}

impl RunFault {
    /// The number behind the `F` of its code, from 1 to 18.
    pub fn code(self) -> u8
        ensures { result ≡ code_of self }
    {
        match self {
            RunFault::Overflow => 1,
            RunFault::DivideByZero => 2,
            RunFault::OutOfRange => 3,
            RunFault::NotClosed => 4,
            RunFault::AlreadyClosed => 5,
            RunFault::DefinedVariable => 6,
            RunFault::NoMove => 7,
            RunFault::NoBest => 8,
            RunFault::EmptyRange => 9,
            RunFault::NoData => 10,
            RunFault::BadData => 11,
            RunFault::Depth => 12,
            RunFault::TooMany(_) => 13,
            RunFault::WrongSolver => 14,
            RunFault::JournalFull => 15,
            RunFault::OutputFull => 16,
            RunFault::UnknownUser => 17,
            RunFault::UserSpent => 18,
        }
    }

    /// The text that a user sees, without the code.
    pub fn text(self) -> &'static str
        ensures { result.now ≡ text_of self }
    {
        match self {
            RunFault::Overflow => "overflow",
            RunFault::DivideByZero => "division by zero",
            RunFault::OutOfRange => "out of range",
            RunFault::NotClosed => "solver not closed",
            RunFault::AlreadyClosed => "solver already closed",
            RunFault::DefinedVariable => "variable has a definition",
            RunFault::NoMove => "no move",
            RunFault::NoBest => "no best",
            RunFault::EmptyRange => "empty range",
            RunFault::NoData => "no more data",
            RunFault::BadData => "bad data",
            RunFault::Depth => "depth exceeded",
            RunFault::TooMany(Limit::Variables) => "too many variables",
            RunFault::TooMany(Limit::TermNodes) => "too many terms",
            RunFault::TooMany(Limit::Candidates) => "too many candidates",
            RunFault::TooMany(Limit::Cells) => "too many cells",
            RunFault::TooMany(Limit::Iterations) => "too many iterations",
            RunFault::WrongSolver => "wrong solver",
            RunFault::JournalFull => "journal full",
            RunFault::OutputFull => "output full",
            RunFault::UnknownUser => "unknown user constraint",
            RunFault::UserSpent => "user constraint already posted",
        }
    }
}
