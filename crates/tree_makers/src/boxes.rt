//! Boxes, made beside what goes on.
//!
//! Most are generic, so that for want of memory they let a part go by one call, whatever the part holds.
ghost use Rattle.std.specs.Prelude.{◌≡◌, [], ◌∷◌, option_map};
ghost use Rattle.checked_tree.specs.Shape.{seen};
ghost use Rattle.checked_tree.specs.Actions.{start_of};
ghost use Rattle.tree_makers.specs.Makes.{Makes};

use checked_tree::expressions::Typed;
use checked_tree::statements::Start;
use checked_tree::stop::Stop;
use std::alloc::Global;
use std::sync::Arc;

/// A part in a box, beside another one as it was.
pub(crate) fn box_beside<K: Drop, T: Drop>(
    alloc: Global,
    kept: K,
    part: T,
) -> Result<(K, Box<T>), Stop>
    ensures kept { Makes (λ p. p.0) result kept }
    ensures boxed { Makes (λ p. p.1.value) result part }
{
    let part = Box::new(alloc, part)?;
    Ok((kept, part))
}

/// A part that is shared, beside another one as it was.
pub(crate) fn share_beside<K: Drop, T: Drop>(
    alloc: Global,
    kept: K,
    part: T,
) -> Result<(K, Arc<T>), Stop>
    ensures kept { Makes (λ p. p.0) result kept }
    ensures shared { Makes (λ p. p.1.value) result part }
{
    let part = Arc::new(alloc, part)?;
    Ok((kept, part))
}

/// Two parts, each in a box.
pub(crate) fn box_both<A: Drop, B: Drop>(
    alloc: Global,
    left: A,
    right: B,
) -> Result<(Box<A>, Box<B>), Stop>
    ensures left { Makes (λ p. p.0.value) result left }
    ensures right { Makes (λ p. p.1.value) result right }
{
    let (right, left) = box_beside(alloc, right, left)?;
    let right = Box::new(alloc, right)?;
    Ok((left, right))
}

/// Three parts, each in a box.
pub(crate) fn box_three<T: Drop>(
    alloc: Global,
    first: T,
    second: T,
    third: T,
) -> Result<(Box<T>, Box<T>, Box<T>), Stop>
    ensures first { Makes (λ p. p.0.value) result first }
    ensures second { Makes (λ p. p.1.value) result second }
    ensures third { Makes (λ p. p.2.value) result third }
{
    let ((second, third), first) = box_beside(alloc, (second, third), first)?;
    let (second, third) = box_both(alloc, second, third)?;
    Ok((first, second, third))
}

/// An expression in a box, where there is one.
pub(crate) fn box_expression(alloc: Global, part: Option<Typed>) -> Result<Option<Box<Typed>>, Stop>
    ensures { Makes (option_map (λ e. seen e.value)) result (option_map seen part) }
{
    match part {
        None => Ok(None),
        Some(part) => {
            let part = Box::new(alloc, part)?;
            Ok(Some(part))
        }
    }
}

/// First values in a box, where there are some.
pub(crate) fn box_start(alloc: Global, start: Option<Start>) -> Result<Option<Box<Start>>, Stop>
    ensures { Makes (option_map (λ s. start_of s.value)) result (option_map start_of start) }
{
    match start {
        None => Ok(None),
        Some(start) => {
            let start = Box::new(alloc, start)?;
            Ok(Some(start))
        }
    }
}

/// A list of two parts.
pub(crate) fn list_both<T: Drop>(alloc: Global, left: T, right: T) -> Result<Vec<T>, Stop>
    ensures { Makes (λ v. v.items) result (left ∷ right ∷ []) }
{
    let mut list = Vec::new(alloc);
    list.push(left)?;
    list.push(right)?;
    Ok(list)
}
