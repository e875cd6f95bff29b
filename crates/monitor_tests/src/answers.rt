//! A reply as what can be compared: of a list its length and its first number.
use best_monitor::Reply;

#[derive(Clone, Copy, PartialEq, Eq, Debug, Drop)]
pub(crate) enum Answer {
    Truth(bool),
    Number(i64),
    List(usize, Option<i64>),
    Missing,
    Long(u64),
    Done,
}

pub(crate) fn answer_of(reply: Reply) -> Answer {
    match reply {
        Reply::Truth(holds) => Answer::Truth(holds),
        Reply::Number(number) => Answer::Number(number),
        Reply::List(list) => Answer::List(list.len(), list.get(0)),
        Reply::Missing => Answer::Missing,
        Reply::Long(length) => Answer::Long(length),
        Reply::Done => Answer::Done,
    }
}
