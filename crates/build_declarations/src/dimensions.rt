//! The dimensions of an array.
ghost use Rattle.std.specs.Prelude.{◌≡◌, IfOk};
ghost use Rattle.comet_syntax.specs.Written.Expressions.{written};
ghost use Rattle.parse_machine.specs.declared.form.DeclarationForm.TheVariants as forms;
ghost use Rattle.parse_stacks.specs.Raised.{raised, named_operand};
ghost use Rattle.build_declarations.specs.MadeDeclarations.{IsReady, IsUndone, IsNamedDimension, IsUnnamedDimension};

use cbl_base::NoMemory;
use comet_syntax::tree::{Argument, Dimension, Dimensions, Expression, Name, Suffix};
use parse_stacks::{
    Behind, DimensionRest, Stacks, put, put_made, raise, raise_name, take, take_behind,
};
use std::alloc::Global;

// A dimension whose range begins with this operand.
fn make_unnamed(alloc: Global, operand: Expression, behind: Behind) -> Result<Dimension, NoMemory>
    ensures { IfOk result (λ d. IsUnnamedDimension (raised (written operand) behind) d) }
{
    let range = raise(alloc, operand, behind)?;
    Ok(Dimension { name: None, range })
}

// A dimension whose range begins with a name.
fn make_called(
    alloc: Global,
    name: Name,
    called: Option<Vec<Argument>>,
    suffixes: Vec<Suffix>,
    behind: Behind,
) -> Result<Dimension, NoMemory>
    ensures { IfOk result (λ d. IsUnnamedDimension
        (raised (named_operand name called suffixes) behind) d) }
{
    let range = raise_name(alloc, name, called, suffixes, behind)?;
    Ok(Dimension { name: None, range })
}

// A dimension that begins with a name.
fn make_named(alloc: Global, name: Name, rest: DimensionRest) -> Result<Dimension, NoMemory>
    ensures { IfOk result (λ d. IsNamedDimension name rest d) }
{
    match rest {
        DimensionRest::In(range) => Ok(Dimension {
            name: Some(name),
            range,
        }),
        DimensionRest::Rest {
            called,
            suffixes,
            behind,
        } => make_called(alloc, name, called, suffixes, behind),
    }
}

// `[first second]`
pub fn undo_dimensions(stacks: &mut Stacks) -> Result<(), NoMemory>
    requires { IsReady forms.DimensionsLeftBracket stacks.old }
    ensures { IfOk result (λ _. IsUndone forms.DimensionsLeftBracket stacks.old stacks.new) }
{
    let first = take(&mut stacks.dimensions);
    let second = take(&mut stacks.second_dimensions);
    put(
        &mut stacks.all_dimensions,
        Some(Dimensions { first, second }),
    )
}

// No dimensions
pub fn undo_no_dimensions(stacks: &mut Stacks) -> Result<(), NoMemory>
    ensures { IfOk result (λ _. IsUndone forms.DimensionsNone stacks.old stacks.new) }
{
    put(&mut stacks.all_dimensions, None)
}

// No second dimension
pub fn undo_no_second_dimension(stacks: &mut Stacks) -> Result<(), NoMemory>
    ensures { IfOk result (λ _. IsUndone forms.DimensionsTailNone stacks.old stacks.new) }
{
    put(&mut stacks.second_dimensions, None)
}

// `, dimension`
pub fn undo_second_dimension(stacks: &mut Stacks) -> Result<(), NoMemory>
    requires { IsReady forms.DimensionsTailComma stacks.old }
    ensures { IfOk result (λ _. IsUndone forms.DimensionsTailComma stacks.old stacks.new) }
{
    let second = take(&mut stacks.dimensions);
    put(&mut stacks.second_dimensions, Some(second))
}

// A name and what stands behind it
pub fn undo_named_dimension(alloc: Global, stacks: &mut Stacks) -> Result<(), NoMemory>
    requires { IsReady forms.DimensionName stacks.old }
    ensures { IfOk result (λ _. IsUndone forms.DimensionName stacks.old stacks.new) }
{
    let name = take(&mut stacks.names);
    let rest = take(&mut stacks.dimension_rests);
    let dimension = make_named(alloc, name, rest);
    put_made(&mut stacks.dimensions, dimension)
}

// An operand that doesn't begin with a name and what stands behind it
pub fn undo_unnamed_dimension(alloc: Global, stacks: &mut Stacks) -> Result<(), NoMemory>
    requires { IsReady forms.DimensionUnnamed stacks.old }
    ensures { IfOk result (λ _. IsUndone forms.DimensionUnnamed stacks.old stacks.new) }
{
    let operand = take(&mut stacks.expressions);
    let behind = take_behind(
        &mut stacks.links,
        &mut stacks.up_to,
        &mut stacks.compared,
        &mut stacks.branches,
    );
    let dimension = make_unnamed(alloc, operand, behind);
    put_made(&mut stacks.dimensions, dimension)
}

// `in range`
pub fn undo_range_rest(stacks: &mut Stacks) -> Result<(), NoMemory>
    requires { IsReady forms.DimensionRestIn stacks.old }
    ensures { IfOk result (λ _. IsUndone forms.DimensionRestIn stacks.old stacks.new) }
{
    let range = take(&mut stacks.expressions);
    put(&mut stacks.dimension_rests, DimensionRest::In(range))
}

// What an expression that begins with a name goes on with
pub fn undo_called_rest(stacks: &mut Stacks) -> Result<(), NoMemory>
    requires { IsReady forms.DimensionRestCalled stacks.old }
    ensures { IfOk result (λ _. IsUndone forms.DimensionRestCalled stacks.old stacks.new) }
{
    let called = take(&mut stacks.called);
    let suffixes = take(&mut stacks.suffixes);
    let behind = take_behind(
        &mut stacks.links,
        &mut stacks.up_to,
        &mut stacks.compared,
        &mut stacks.branches,
    );
    put(
        &mut stacks.dimension_rests,
        DimensionRest::Rest {
            called,
            suffixes,
            behind,
        },
    )
}
