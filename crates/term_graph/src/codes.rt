//! The codes of the terms that were added.
ghost use Rattle.std.specs.Prelude.{◌≡◌, ℕ, map, IfOk, OnOk};
ghost use Rattle.std.specs.List.{position_or_len};
ghost use Rattle.std.specs.Ordering.{int_eq};
ghost use lib.Pointwise.{pointwise};
ghost use Rattle.term_count.specs.Numbering.{listed, with_code};
ghost use Rattle.term_graph.specs.Adding.{Grows, name_of_id};

use cbl_base::{NoMemory, NodeId};
use indexmap::IndexSet;
use std::alloc::Global;

/// The code of each node, in order.
pub(crate) type Codes = IndexSet<Vec<i64>>;

/// Keeps a code, unless it is there, and answers its place.
pub(crate) fn keep_code(codes: &mut Codes, code: Vec<i64>) -> Result<usize, NoMemory>
    ensures codes { OnOk result
        (listed codes.new.keys ≡ with_code (listed codes.old.keys) code.items) }
    ensures place { IfOk result (λ place.
        place ≡ position_or_len (pointwise int_eq code.items) (listed codes.old.keys)) }
    ensures grows { Grows codes.old.keys codes.new.keys }
{
    let (place, _) = codes.insert_full(code)?;
    Ok(place)
}

/// The name that an id has in codes.
fn name_of(cells: u32, id: NodeId) -> i64
    ensures { result ≡ name_of_id cells id.0 }
{
    if id.0 < cells {
        -1 - i64::from(id.0)
    } else {
        i64::from(id.0 - cells)
    }
}

/// The names that ids have in codes.
pub(crate) fn names_of(alloc: Global, cells: u32, ids: &[NodeId]) -> Result<Vec<i64>, NoMemory>
    ensures { IfOk result (λ names.
        names.items ≡ map (λ id. name_of_id cells id.0) ids.now) }
{
    let mut names = Vec::new(alloc);
    for id in ids {
        let name = name_of(cells, *id);
        names.push(name)?;
    }
    Ok(names)
}
