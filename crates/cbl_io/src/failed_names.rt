//! Room for a name whose read may fail.
ghost use Rattle.std.specs.Prelude.{◌≡◌, ◌<◌, IfOk, OnOk, vec_len, vec_capacity};

use cbl_base::{NoMemory, Text};
use std::alloc::Global;

/// A copy of the name, with room in the list to push it. The list itself stays as it was.
pub(crate) fn reserve_name(
    alloc: Global,
    failed: &mut Vec<Text>,
    name: &str,
) -> Result<Text, NoMemory>
    ensures copy { IfOk result (λ text. text ≡ name.now) }
    ensures room { OnOk result (vec_len failed.new < vec_capacity failed.new) }
    ensures keeps { failed.new.items ≡ failed.old.items }
{
    failed.reserve(1)?;
    Text::from_slice(alloc, name.as_bytes())
}
