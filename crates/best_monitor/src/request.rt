//! What is asked of a board, and what it replies.
ghost use Rattle.std.specs.Prelude.{◌≡◌};
ghost use Rattle.best_monitor.specs.Board.{monitor_of};

use cbl_base::Numbers;

/// What is asked of a board. Monitors are numbered from 0 in the order in which they were declared.
#[derive(Drop, Debug)]
pub enum Request {
    /// A value and a second value were reached, by this list.
    Report {
        monitor: u32,
        value: i64,
        second: i64,
        list: Numbers,
    },
    /// Which value is the best?
    Value {
        monitor: u32,
    },
    /// Which second value has the best?
    Second {
        monitor: u32,
    },
    /// Is there a best?
    Has {
        monitor: u32,
    },
    /// Which list has the best, if it has at most `room` numbers?
    Copy {
        monitor: u32,
        room: u64,
    },
    /// The others are to stop.
    Stop {
        monitor: u32,
    },
    /// Was it told to stop?
    Stopped {
        monitor: u32,
    },
}

/// What a board replies.
#[derive(Drop, Debug)]
pub enum Reply {
    /// To a report whether the best was replaced; to `Has` and `Stopped` the answer.
    Truth(bool),
    /// The best's value or second value.
    Number(i64),
    /// The best's list.
    List(Numbers),
    /// There is no best.
    Missing,
    /// The best's list has this many numbers, more than there is room for.
    Long(u64),
    /// It was told to stop.
    Done,
}

impl Request {
    /// The number of the monitor that is asked.
    pub fn monitor(&self) -> u32
        ensures { result ≡ monitor_of self.now }
    {
        match self {
            Request::Report { monitor, .. } => *monitor,
            Request::Value { monitor } => *monitor,
            Request::Second { monitor } => *monitor,
            Request::Has { monitor } => *monitor,
            Request::Copy { monitor, .. } => *monitor,
            Request::Stop { monitor } => *monitor,
            Request::Stopped { monitor } => *monitor,
        }
    }
}
