//! Numbers and lists of numbers, as a table has them: `5`, `MIN`, `[1,2,2]`, `[]`.

use cbl_base::{Input, IntSet, Numbers};
use std::alloc::Global;
use table_file::Stop;

/// A number, or a list of numbers.
#[derive(Drop)]
pub(crate) enum Given {
    Number(i64),
    List(Vec<i64>),
}

/// What the words of a text say, one after another.
pub(crate) fn givens(alloc: Global, text: &str) -> Result<Vec<Given>, Stop> {
    let mut all = Vec::new(alloc);
    for word in text.split_whitespace() {
        all.push(read_given(alloc, word)?)?;
    }
    Ok(all)
}

fn read_given(alloc: Global, word: &str) -> Result<Given, Stop> {
    match word.strip_prefix('[') {
        Some(rest) => Ok(Given::List(numbers(alloc, rest.strip_suffix(']').ok_or(Stop::Form)?)?)),
        None => Ok(Given::Number(number(word)?)),
    }
}

/// The numbers between commas.
fn numbers(alloc: Global, text: &str) -> Result<Vec<i64>, Stop> {
    let mut all = Vec::new(alloc);
    if text.is_empty() {
        return Ok(all);
    }
    for word in text.split(',') {
        all.push(number(word)?)?;
    }
    Ok(all)
}

fn number(word: &str) -> Result<i64, Stop> {
    match word {
        "MIN" => Ok(i64::MIN),
        "MAX" => Ok(i64::MAX),
        _ => word.parse::<i64>().map_err(|_| Stop::Form),
    }
}

impl Given {
    /// The input of a node that it stands for: a list is a set by its members.
    pub(crate) fn input(&self, alloc: Global) -> Result<Input, Stop> {
        match self {
            Given::Number(number) => Ok(Input::Int(*number)),
            Given::List(members) => Ok(Input::Set(IntSet::from_slice(alloc, members.as_slice())?)),
        }
    }

    /// The number that it is.
    pub(crate) fn number(&self) -> Result<i64, Stop> {
        match self {
            Given::Number(number) => Ok(*number),
            Given::List(_) => Err(Stop::Form),
        }
    }

    /// The number that it is, as a count.
    pub(crate) fn count(&self) -> Result<u32, Stop> {
        u32::try_from(self.number()?).map_err(|_| Stop::Form)
    }

    /// The list that it is.
    pub(crate) fn list(&self, alloc: Global) -> Result<Numbers, Stop> {
        match self {
            Given::Number(_) => Err(Stop::Form),
            Given::List(numbers) => Ok(Numbers::from_slice(alloc, numbers.as_slice())?),
        }
    }
}

/// The places that a text lists, as `[2,0]`.
pub(crate) fn read_places(alloc: Global, text: &str) -> Result<Vec<u32>, Stop> {
    let mut places = Vec::new(alloc);
    for place in read_given(alloc, text.trim())?.list(alloc)?.as_slice() {
        places.push(u32::try_from(*place).map_err(|_| Stop::Form)?)?;
    }
    Ok(places)
}

/// The inputs that they stand for.
pub(crate) fn inputs_of(alloc: Global, givens: &[Given]) -> Result<Vec<Input>, Stop> {
    let mut inputs = Vec::new(alloc);
    for given in givens {
        inputs.push(given.input(alloc)?)?;
    }
    Ok(inputs)
}
