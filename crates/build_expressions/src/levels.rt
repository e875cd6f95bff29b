//! Whole expressions, and what stands behind an operand at each level.
ghost use Rattle.std.specs.Prelude.{◌≡◌, [], IfOk, None};
ghost use Rattle.comet_syntax.specs.Grammar.Symbols.{and_tail, branches, comparison_tail, expression, or_tail, product_tail, range_tail, total_tail};
ghost use Rattle.comet_syntax.specs.Grammar.Expressions.{and_tail_and_and, branches_question, comparison_tail_less, expression_operand, or_tail_or_or, product_tail_star, range_tail_dot_dot, total_tail_plus};
ghost use Rattle.parse_stacks.specs.Undoing.{Ready, Undone};
ghost use Rattle.build_expressions.specs.MadeLevels.{BranchesMade, ComparedMade, ConjunctionMade, DisjunctionMade, ProductMade, TotalMade, UpToMade, WholeMade};

use crate::making::make_link;
use cbl_base::NoMemory;
use comet_syntax::tree::{ChainOperator, Comparison};
use parse_stacks::{
    Branches, Compared, Stacks, UpTo, link, put, put_first, put_made, raise, raise_to_comparison,
    raise_to_conjunction, raise_to_range, raise_to_total, take, take_behind,
};
use std::alloc::Global;

/// An operand and all that stands behind it.
pub fn undo_whole(alloc: Global, stacks: &mut Stacks) -> Result<(), NoMemory>
    requires { Ready expression_operand stacks.old }
    ensures { IfOk result (λ _. Undone expression expression_operand WholeMade stacks.old stacks.new) }
{
    let operand = take(&mut stacks.expressions);
    let behind = take_behind(
        &mut stacks.links,
        &mut stacks.up_to,
        &mut stacks.compared,
        &mut stacks.branches,
    );
    let made = raise(alloc, operand, behind);
    put_made(&mut stacks.expressions, made)
}

/// `? then : otherwise`
pub fn undo_branches(stacks: &mut Stacks) -> Result<(), NoMemory>
    requires { Ready branches_question stacks.old }
    ensures { IfOk result (λ _. Undone branches branches_question BranchesMade stacks.old stacks.new) }
{
    let then = take(&mut stacks.expressions);
    let otherwise = take(&mut stacks.expressions);
    put(&mut stacks.branches, Some(Branches { then, otherwise }))
}

/// `|| operand` and more
pub fn undo_disjunction(alloc: Global, stacks: &mut Stacks) -> Result<(), NoMemory>
    requires { Ready or_tail_or_or stacks.old }
    ensures { IfOk result (λ _. Undone or_tail or_tail_or_or DisjunctionMade stacks.old stacks.new) }
{
    let place = take(&mut stacks.places);
    let operand = take(&mut stacks.expressions);
    let product = take(&mut stacks.links);
    let total = take(&mut stacks.links);
    let up_to = take(&mut stacks.up_to);
    let compared = take(&mut stacks.compared);
    let conjunction = take(&mut stacks.links);
    let operand = raise_to_conjunction(
        alloc,
        operand,
        product,
        total,
        up_to,
        compared,
        conjunction,
    )?;
    let next = make_link(ChainOperator::Or, place, operand);
    put_first(&mut stacks.links, next)
}

/// `&& operand` and more
pub fn undo_conjunction(alloc: Global, stacks: &mut Stacks) -> Result<(), NoMemory>
    requires { Ready and_tail_and_and stacks.old }
    ensures { IfOk result (λ _. Undone and_tail and_tail_and_and ConjunctionMade stacks.old stacks.new) }
{
    let place = take(&mut stacks.places);
    let operand = take(&mut stacks.expressions);
    let product = take(&mut stacks.links);
    let total = take(&mut stacks.links);
    let up_to = take(&mut stacks.up_to);
    let compared = take(&mut stacks.compared);
    let operand = raise_to_comparison(alloc, operand, product, total, up_to, compared)?;
    let next = make_link(ChainOperator::And, place, operand);
    put_first(&mut stacks.links, next)
}

/// `< right` and its like
pub fn undo_compared(
    alloc: Global,
    stacks: &mut Stacks,
    comparison: Comparison,
) -> Result<(), NoMemory>
    requires { Ready comparison_tail_less stacks.old }
    ensures { IfOk result (λ _. Undone comparison_tail comparison_tail_less
        (ComparedMade comparison) stacks.old stacks.new) }
{
    let place = take(&mut stacks.places);
    let operand = take(&mut stacks.expressions);
    let product = take(&mut stacks.links);
    let total = take(&mut stacks.links);
    let up_to = take(&mut stacks.up_to);
    let right = raise_to_range(alloc, operand, product, total, up_to)?;
    let made = Compared {
        comparison,
        place,
        right,
    };
    put(&mut stacks.compared, Some(made))
}

/// `.. high`
pub fn undo_range(alloc: Global, stacks: &mut Stacks) -> Result<(), NoMemory>
    requires { Ready range_tail_dot_dot stacks.old }
    ensures { IfOk result (λ _. Undone range_tail range_tail_dot_dot UpToMade stacks.old stacks.new) }
{
    let place = take(&mut stacks.places);
    let operand = take(&mut stacks.expressions);
    let product = take(&mut stacks.links);
    let total = take(&mut stacks.links);
    let high = raise_to_total(alloc, operand, product, total)?;
    put(&mut stacks.up_to, Some(UpTo { place, high }))
}

/// `+ operand` or `- operand`, and more
pub fn undo_total(
    alloc: Global,
    stacks: &mut Stacks,
    operator: ChainOperator,
) -> Result<(), NoMemory>
    requires { Ready total_tail_plus stacks.old }
    ensures { IfOk result (λ _. Undone total_tail total_tail_plus
        (TotalMade operator) stacks.old stacks.new) }
{
    let place = take(&mut stacks.places);
    let operand = take(&mut stacks.expressions);
    let product = take(&mut stacks.links);
    let operand = link(alloc, operand, product)?;
    let next = make_link(operator, place, operand);
    put_first(&mut stacks.links, next)
}

/// `* operand` and its like, and more
pub fn undo_product(stacks: &mut Stacks, operator: ChainOperator) -> Result<(), NoMemory>
    requires { Ready product_tail_star stacks.old }
    ensures { IfOk result (λ _. Undone product_tail product_tail_star
        (ProductMade operator) stacks.old stacks.new) }
{
    let place = take(&mut stacks.places);
    let operand = take(&mut stacks.expressions);
    let next = make_link(operator, place, operand);
    put_first(&mut stacks.links, next)
}

/// No links, at any level
pub fn undo_no_links(alloc: Global, stacks: &mut Stacks) -> Result<(), NoMemory>
    ensures { IfOk result (λ _. Undone product_tail [] (λ v x.
        x.items ≡ []) stacks.old stacks.new) }
{
    put(&mut stacks.links, Vec::new(alloc))
}

/// No other side of a comparison
pub fn undo_no_comparison(stacks: &mut Stacks) -> Result<(), NoMemory>
    ensures { IfOk result (λ _. Undone comparison_tail [] (λ v x. x ≡ None) stacks.old stacks.new) }
{
    put(&mut stacks.compared, None)
}

/// No end of a range
pub fn undo_no_range(stacks: &mut Stacks) -> Result<(), NoMemory>
    ensures { IfOk result (λ _. Undone range_tail [] (λ v x. x ≡ None) stacks.old stacks.new) }
{
    put(&mut stacks.up_to, None)
}

/// No branches
pub fn undo_no_branches(stacks: &mut Stacks) -> Result<(), NoMemory>
    ensures { IfOk result (λ _. Undone branches [] (λ v x. x ≡ None) stacks.old stacks.new) }
{
    put(&mut stacks.branches, None)
}
