//! The nodes of queens.
ghost use Rattle.std.specs.Prelude.{◌≡◌, IfOk, map};
ghost use Rattle.bench.specs.Parts.{rule_of_node, rule_of_part, taken_by};

use crate::store::pieces::Piece;
use cbl_base::NoMemory;
use cbl_operations::BinaryOp;
use diff_global::AllDifferent;
use node_base::OverNumbers;
use node_num::{Binary, Sum};
use std::alloc::Global;

/// What a node of queens is.
#[derive(Clone, Copy, PartialEq, Eq, Debug)]
pub(crate) enum Part {
    Plus,
    Minus,
    AllDifferent,
    Total,
}

/// A node that is this part.
fn node_of(alloc: Global, part: Part) -> OverNumbers<Piece>
    ensures { rule_of_node result ≡ rule_of_part part }
{
    let piece = match part {
        Part::Plus => Piece::Binary(Binary::new(BinaryOp::Add)),
        Part::Minus => Piece::Binary(Binary::new(BinaryOp::Sub)),
        Part::AllDifferent => Piece::AllDifferent(AllDifferent::new(alloc)),
        Part::Total => Piece::Sum(Sum::new(alloc)),
    };
    OverNumbers::new(alloc, piece)
}

/// Nodes that are these parts.
pub(crate) fn nodes_of(alloc: Global, parts: &[Part]) -> Result<Vec<OverNumbers<Piece>>, NoMemory>
    ensures { IfOk result (λ nodes. map rule_of_node nodes.items ≡ map rule_of_part parts.now) }
{
    let mut nodes = Vec::with_capacity(alloc, parts.len())?;
    for part in parts {
        nodes.push(node_of(alloc, *part))?;
    }
    Ok(nodes)
}

/// Whether a part takes so many numbers.
pub(crate) fn takes(part: Part, count: usize) -> bool
    ensures { result ≡ taken_by part count }
{
    match part {
        Part::Plus => count == 2,
        Part::Minus => count == 2,
        Part::AllDifferent => true,
        Part::Total => true,
    }
}
