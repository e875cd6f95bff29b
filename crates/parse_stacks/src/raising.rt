//! An operand with what stands behind it.
ghost use Rattle.std.specs.Prelude.{◌≡◌, IfOk, map, reverse};
ghost use Rattle.comet_syntax.specs.Written.Expressions.{written, written_link, written_suffix, chain, postfix_by};
ghost use Rattle.parse_stacks.specs.Raised.{linked, with_suffixes, compared_with, ranged, branched, called_by, named_operand, total_of, range_level, comparison_level, conjunction_level, raised};

use crate::boxes::{beside, beside_two, box_three, box_two};
use crate::tails::{Behind, Branches, Compared, UpTo};
use cbl_base::NoMemory;
use comet_syntax::tree::{Argument, Expression, Link, Name, Suffix};
use std::alloc::Global;

// A chain of operands, at least two.
fn make_chain(alloc: Global, first: Expression, links: Vec<Link>) -> Result<Expression, NoMemory>
    ensures { IfOk result (λ e. written e ≡ chain (written first) (map written_link links.items)) }
{
    let first = Box::new(alloc, first)?;
    Ok(Expression::Chain { first, links })
}

// A primary with suffixes, at least one.
fn make_postfix(
    alloc: Global,
    primary: Expression,
    suffixes: Vec<Suffix>,
) -> Result<Expression, NoMemory>
    ensures { IfOk result (λ e. written e ≡
        postfix_by (written primary).primary_rest (written primary).head
        (map written_suffix suffixes.items)) }
{
    let primary = Box::new(alloc, primary)?;
    Ok(Expression::Postfix { primary, suffixes })
}

/// A first operand with its links, the last one first, or alone.
pub fn link(alloc: Global, first: Expression, links: Vec<Link>) -> Result<Expression, NoMemory>
    ensures { IfOk result (λ e. written e ≡ linked (written first) links) }
{
    if links.is_empty() {
        Ok(first)
    } else {
        let mut links = links;
        links.reverse();
        let all = make_chain(alloc, first, links)?;
        Ok(all)
    }
}

/// A primary with its suffixes, the last one first, or alone.
pub fn suffix(
    alloc: Global,
    primary: Expression,
    suffixes: Vec<Suffix>,
) -> Result<Expression, NoMemory>
    ensures { IfOk result (λ e. written e ≡ with_suffixes (written primary) suffixes) }
{
    if suffixes.is_empty() {
        Ok(primary)
    } else {
        let mut suffixes = suffixes;
        suffixes.reverse();
        let all = make_postfix(alloc, primary, suffixes)?;
        Ok(all)
    }
}

// With what a comparison goes on with.
fn compare(
    alloc: Global,
    left: Expression,
    behind: Option<Compared>,
) -> Result<Expression, NoMemory>
    ensures { IfOk result (λ e. written e ≡ compared_with (written left) behind) }
{
    match behind {
        None => Ok(left),
        Some(behind) => {
            let (left, right) = box_two(alloc, left, behind.right)?;
            Ok(Expression::Comparison {
                left,
                comparison: behind.comparison,
                place: behind.place,
                right,
            })
        }
    }
}

// With what a range goes on with.
fn range(alloc: Global, low: Expression, behind: Option<UpTo>) -> Result<Expression, NoMemory>
    ensures { IfOk result (λ e. written e ≡ ranged (written low) behind) }
{
    match behind {
        None => Ok(low),
        Some(behind) => {
            let (low, high) = box_two(alloc, low, behind.high)?;
            Ok(Expression::Range {
                low,
                place: behind.place,
                high,
            })
        }
    }
}

// With what a conditional goes on with.
fn branch(alloc: Global, test: Expression, behind: Option<Branches>) -> Result<Expression, NoMemory>
    ensures { IfOk result (λ e. written e ≡ branched (written test) behind) }
{
    match behind {
        None => Ok(test),
        Some(behind) => {
            let (test, then, otherwise) = box_three(alloc, test, behind.then, behind.otherwise)?;
            Ok(Expression::Conditional {
                test,
                then,
                otherwise,
            })
        }
    }
}

/// An operand with the links of a product, and that with the links of a total.
pub fn raise_to_total(
    alloc: Global,
    operand: Expression,
    product: Vec<Link>,
    total: Vec<Link>,
) -> Result<Expression, NoMemory>
    ensures { IfOk result (λ e. written e ≡ total_of (written operand) product total) }
{
    let (operand, total) = beside(link(alloc, operand, product), total)?;
    let all = link(alloc, operand, total)?;
    Ok(all)
}

/// An operand with what stands behind it up to the end of a range.
pub fn raise_to_range(
    alloc: Global,
    operand: Expression,
    product: Vec<Link>,
    total: Vec<Link>,
    up_to: Option<UpTo>,
) -> Result<Expression, NoMemory>
    ensures { IfOk result (λ e. written e ≡ range_level (written operand) product total up_to) }
{
    let (low, up_to) = beside(raise_to_total(alloc, operand, product, total), up_to)?;
    let all = range(alloc, low, up_to)?;
    Ok(all)
}

/// An operand with what stands behind it up to the other side of a comparison.
pub fn raise_to_comparison(
    alloc: Global,
    operand: Expression,
    product: Vec<Link>,
    total: Vec<Link>,
    up_to: Option<UpTo>,
    compared: Option<Compared>,
) -> Result<Expression, NoMemory>
    ensures { IfOk result (λ e. written e ≡
        comparison_level (written operand) product total up_to compared) }
{
    let left = raise_to_range(alloc, operand, product, total, up_to);
    let (left, compared) = beside(left, compared)?;
    let all = compare(alloc, left, compared)?;
    Ok(all)
}

/// An operand with what stands behind it up to the links of `&&`.
pub fn raise_to_conjunction(
    alloc: Global,
    operand: Expression,
    product: Vec<Link>,
    total: Vec<Link>,
    up_to: Option<UpTo>,
    compared: Option<Compared>,
    conjunction: Vec<Link>,
) -> Result<Expression, NoMemory>
    ensures { IfOk result (λ e. written e ≡
        conjunction_level (written operand) product total up_to compared conjunction) }
{
    let first = raise_to_comparison(alloc, operand, product, total, up_to, compared);
    let (first, conjunction) = beside(first, conjunction)?;
    let all = link(alloc, first, conjunction)?;
    Ok(all)
}

/// An operand with all that stands behind it: a whole expression.
pub fn raise(alloc: Global, operand: Expression, behind: Behind) -> Result<Expression, NoMemory>
    ensures { IfOk result (λ e. written e ≡ raised (written operand) behind) }
{
    let first = raise_to_conjunction(
        alloc,
        operand,
        behind.product,
        behind.total,
        behind.up_to,
        behind.compared,
        behind.conjunction,
    );
    let (first, disjunction, branches) = beside_two(first, behind.disjunction, behind.branches)?;
    let (test, branches) = beside(link(alloc, first, disjunction), branches)?;
    let all = branch(alloc, test, branches)?;
    Ok(all)
}

// A name, or a call of it.
fn call(alloc: Global, name: Name, called: Option<Vec<Argument>>) -> Result<Expression, NoMemory>
    ensures { IfOk result (λ e. written e ≡ called_by name called) }
{
    match called {
        None => Ok(Expression::Name(name)),
        Some(arguments) => {
            let name = Box::new(alloc, name)?;
            Ok(Expression::Call { name, arguments })
        }
    }
}

/// An operand that begins with a name. Suffixes stand the last one first.
pub fn name_operand(
    alloc: Global,
    name: Name,
    called: Option<Vec<Argument>>,
    suffixes: Vec<Suffix>,
) -> Result<Expression, NoMemory>
    ensures { IfOk result (λ e. written e ≡ named_operand name called suffixes) }
{
    let (primary, suffixes) = beside(call(alloc, name, called), suffixes)?;
    let all = suffix(alloc, primary, suffixes)?;
    Ok(all)
}

/// An operand that begins with a name, with all that stands behind it: a whole expression.
pub fn raise_name(
    alloc: Global,
    name: Name,
    called: Option<Vec<Argument>>,
    suffixes: Vec<Suffix>,
    behind: Behind,
) -> Result<Expression, NoMemory>
    ensures { IfOk result (λ e. written e ≡ raised (named_operand name called suffixes) behind) }
{
    let (operand, behind) = beside(name_operand(alloc, name, called, suffixes), behind)?;
    let all = raise(alloc, operand, behind)?;
    Ok(all)
}
