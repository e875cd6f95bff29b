//! How the queens hang together.
ghost use Rattle.std.specs.Prelude.{◌≡◌, ◌+◌, ◌<◌, ◌≤◌, length, IfOk};

use crate::draws::Draws;
use crate::store::parts::Part;
use cbl_base::NoMemory;
use std::alloc::Global;

/// The nodes behind the cells, and of each id those whose values it takes.
#[derive(Drop)]
pub(crate) struct Links {
    pub(crate) parts: Vec<Part>,
    pub(crate) lists: Vec<Vec<u32>>,
}

/// What the cells start with: rows that are drawn, and behind them the numbers from 0.
pub(crate) fn start_of(alloc: Global, draws: &mut Draws, count: u32) -> Result<Vec<i64>, NoMemory>
    requires some { 0 < count }
    requires few { count ≤ 1000000 }
    ensures { IfOk result (λ start. length start.items ≡ count + count) }
{
    let mut start = Vec::new(alloc);
    for cell in 0..count + count {
        start.push(number_of(draws, cell, count))?;
    }
    Ok(start)
}

/// What a cell starts with.
fn number_of(draws: &mut Draws, cell: u32, count: u32) -> i64
    requires { 0 < count }
{
    if cell < count {
        i64::from(draws.below(count))
    } else {
        i64::from(cell - count)
    }
}

/// So many queens. Their cells hold their rows, and as many cells behind these the numbers from 0. The nodes are
/// each row plus the queen's number, each row less that number, the three `alldifferent` over the rows, the
/// sums and the differences, and the total of these three.
pub(crate) fn queens(alloc: Global, count: u32) -> Result<Links, NoMemory>
    requires { count ≤ 1000000 }
{
    let mut links = Links {
        parts: Vec::new(alloc),
        lists: Vec::new(alloc),
    };
    for _cell in 0..2 * count {
        links.lists.push(Vec::new(alloc))?;
    }
    add_pairs(alloc, &mut links, Part::Plus, count)?;
    add_pairs(alloc, &mut links, Part::Minus, count)?;
    for first in [0, 2 * count, 3 * count] {
        let ids = ids_from(alloc, first, count)?;
        add(&mut links, Part::AllDifferent, ids)?;
    }
    let ids = ids_from(alloc, 4 * count, 3)?;
    add(&mut links, Part::Total, ids)?;
    Ok(links)
}

/// A node of each row and its queen's number.
fn add_pairs(alloc: Global, links: &mut Links, part: Part, count: u32) -> Result<(), NoMemory>
    requires { count ≤ 1000000 }
{
    for queen in 0..count {
        let ids = vec![in alloc; queen, queen + count]?;
        add(links, part, ids)?;
    }
    Ok(())
}

/// One more node.
fn add(links: &mut Links, part: Part, ids: Vec<u32>) -> Result<(), NoMemory> {
    links.parts.push(part)?;
    links.lists.push(ids)?;
    Ok(())
}

/// So many ids from the first on.
fn ids_from(alloc: Global, first: u32, count: u32) -> Result<Vec<u32>, NoMemory>
    requires { first + count ≤ 4000003 }
{
    let mut ids = Vec::new(alloc);
    for id in 0..count {
        ids.push(first + id)?;
    }
    Ok(ids)
}
