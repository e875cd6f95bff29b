//! What is answered, as text: a number, the members of a set, or a fault by its code; and behind it the
//! violations at all places where one isn't 0.
ghost use Rattle.std.specs.Prelude.{◌≡◌, ◌<◌, ◌^◌, length, IsOk};

use cbl_base::{Input, NoMemory, NodeFault, NodeRule, NodeValue, RunFault};
use std::alloc::Global;

/// An answer, without the violations at the places and with them.
#[derive(Drop)]
pub(crate) struct Told {
    pub(crate) value: String,
    pub(crate) whole: String,
}

/// A value and the violations at all places as text.
pub(crate) fn tell(alloc: Global, value: &NodeValue, violations: &[i64]) -> Result<Told, NoMemory> {
    let value = value_text(alloc, value)?;
    let mut whole = value.clone()?;
    if violations.iter().any(|violation| *violation != 0) {
        whole.push_str(" at ")?;
        push_list(&mut whole, violations)?;
    }
    Ok(Told { value, whole })
}

/// A fault as text.
pub(crate) fn tell_fault(alloc: Global, fault: RunFault) -> Result<Told, NoMemory> {
    Ok(Told {
        value: fault_text(alloc, fault)?,
        whole: fault_text(alloc, fault)?,
    })
}

/// What a probe answered.
pub(crate) fn probed_text(
    alloc: Global,
    probed: Result<NodeValue, NodeFault>,
) -> Result<String, NoMemory> {
    match probed {
        Ok(value) => value_text(alloc, &value),
        Err(NodeFault::Run(fault)) => fault_text(alloc, fault),
        Err(NodeFault::NoMemory) => Err(NoMemory),
    }
}

/// What a node over so many inputs answers.
pub(crate) fn told_of_node<N: NodeRule>(
    alloc: Global,
    node: &N,
    places: usize,
) -> Result<Told, NoMemory>
    requires ready { N.ready node.now }
    requires places { length (N.held node.now) ≡ places }
    requires count { places < 2 ^ 32 }
{
    match node.value() {
        Ok(value) => {
            let violations = violations_of(alloc, node, places)?;
            tell(alloc, value, violations.as_slice())
        }
        Err(fault) => tell_fault(alloc, fault),
    }
}

/// The violation at each place of a node over so many inputs.
fn violations_of<N: NodeRule>(alloc: Global, node: &N, places: usize) -> Result<Vec<i64>, NoMemory>
    requires ready { N.ready node.now }
    requires places { length (N.held node.now) ≡ places }
    requires count { places < 2 ^ 32 }
    requires valued { IsOk ((N.rule node.now).value (N.held node.now)) }
{
    let mut all = Vec::with_capacity(alloc, places)?;
    for place in 0..places {
        all.push(node.place_violation(place as u32))?;
    }
    Ok(all)
}

fn value_text(alloc: Global, value: &NodeValue) -> Result<String, NoMemory> {
    let mut text = String::new(alloc);
    match value {
        Input::Int(number) => push_number(&mut text, *number)?,
        Input::Set(set) => push_list(&mut text, set.as_slice())?,
    }
    Ok(text)
}

fn fault_text(alloc: Global, fault: RunFault) -> Result<String, NoMemory> {
    Ok(format!(in alloc; "F{}", fault.code())?)
}

/// Adds the numbers, as a table has them.
fn push_list(text: &mut String, numbers: &[i64]) -> Result<(), NoMemory> {
    text.push('[')?;
    for (index, number) in numbers.iter().enumerate() {
        if index > 0 {
            text.push(',')?;
        }
        push_number(text, *number)?;
    }
    text.push(']')?;
    Ok(())
}

fn push_number(text: &mut String, number: i64) -> Result<(), NoMemory> {
    match number {
        i64::MIN => text.push_str("MIN")?,
        i64::MAX => text.push_str("MAX")?,
        _ => write!(text, "{number}")?,
    }
    Ok(())
}
