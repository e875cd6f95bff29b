//! What a call of `comet_run` reports.
ghost use Rattle.std.specs.Prelude.{◌≡◌};
ghost use Rattle.comet.specs.Status.{status_of, cause_of_run};

use cbl_base::{Names, Place, RunFault};
use comet_syntax::FormCause;
use stmt_run::RunEnd;

/// What a file is read for.
#[derive(Clone, Copy, PartialEq, Eq, Debug)]
pub enum FileRole {
    Program,
    /// What the program reads.
    Data,
}

/// Why a run ended as it did.
#[derive(Drop, Debug)]
pub enum Cause {
    /// The program ran to its end.
    Done,
    /// The words aren't in form.
    Words,
    /// The program's text is refused at this place.
    IllFormed(Place, FormCause),
    /// A part of the program's tree at this place is refused by the rule of this code, 1 to 12.
    IllTyped(Place, u8),
    /// Definitions lead from a variable back to it at this `close`, with the names of the variables on the cycle, in
    /// order.
    Cyclic(Place, Names),
    /// A fault of the run at this place.
    Run(Place, RunFault),
    /// The fuel is spent, at this place.
    Spent(Place),
    NoMemory,
    /// A file can't be read.
    Read(FileRole),
    /// The output can't be written.
    Write,
}

/// How a run ended: a status from 0 to 9, which is always its cause's.
#[derive(Drop, Debug)]
pub struct Report {
    pub status: u8,
    pub cause: Cause,
}

impl Cause {
    /// The status of a run that ends so: 0 done, 1 words, 2 ill formed, 3 ill typed, 4 a cyclic definition,
    /// 5 a run fault, 6 the fuel is spent, 7 no memory, 8 a file can't be read, 9 the output can't be written.
    pub fn status(&self) -> u8
        ensures { result ≡ status_of self.now }
    {
        match self {
            Cause::Done => 0,
            Cause::Words => 1,
            Cause::IllFormed(..) => 2,
            Cause::IllTyped(..) => 3,
            Cause::Cyclic(..) => 4,
            Cause::Run(..) => 5,
            Cause::Spent(_) => 6,
            Cause::NoMemory => 7,
            Cause::Read(_) => 8,
            Cause::Write => 9,
        }
    }
}

impl Report {
    /// The report of a run that ended so.
    pub(crate) fn of(cause: Cause) -> Report
        ensures cause { result.cause ≡ cause }
        ensures status { result.status ≡ status_of cause }
    {
        Report {
            status: cause.status(),
            cause,
        }
    }
}

impl From<RunEnd> for Cause {
    ghost from_gives = { λ end cause. cause ≡ cause_of_run end };

    fn from(end: RunEnd) -> Cause {
        match end {
            RunEnd::Done => Cause::Done,
            RunEnd::Cyclic(place, names) => Cause::Cyclic(place, names),
            RunEnd::Run(place, fault) => Cause::Run(place, fault),
            RunEnd::Spent(place) => Cause::Spent(place),
            RunEnd::NoMemory => Cause::NoMemory,
            RunEnd::Write => Cause::Write,
        }
    }
}
