//! Generators, and the condition behind them.
ghost use Rattle.std.specs.Prelude.{◌≡◌, ◌∷◌, IfOk, map, reverse};
ghost use Rattle.comet_syntax.specs.Written.Expressions.{written, written_generator, written_generators, option_value};
ghost use Rattle.comet_syntax.specs.Grammar.Symbols.{condition, generator, generators, generators_tail};
ghost use Rattle.comet_syntax.specs.Grammar.Statements.{condition_colon, generator_name, generators_generator, generators_tail_comma};
ghost use Rattle.parse_stacks.specs.Undoing.{Ready, Undone};
ghost use Rattle.build_expressions.specs.MadeGenerators.{ConditionMade, GeneratorMade, GeneratorsMade, MoreGeneratorsMade};

use crate::making::in_order;
use cbl_base::NoMemory;
use comet_syntax::tree::{Expression, Generator, Generators, Name};
use parse_stacks::{Stacks, beside, box_some, put, put_before, put_first, put_made, take};
use std::alloc::Global;

// Generators with their condition.
fn make_generators(
    alloc: Global,
    all: Vec<Generator>,
    condition: Option<Expression>,
) -> Result<Generators, NoMemory>
    ensures { IfOk result (λ g. written_generators g ≡
        record { all = map written_generator all.items; only = option_value written condition }) }
{
    let (condition, generators) = beside(box_some(alloc, condition), all)?;
    Ok(Generators {
        generators,
        condition,
    })
}

/// A first generator and the others, of which the last one stands first, with their condition.
pub fn join_generators(
    alloc: Global,
    first: Generator,
    more: Vec<Generator>,
    condition: Option<Expression>,
) -> Result<Generators, NoMemory>
    ensures { IfOk result (λ g. written_generators g ≡
        record {
          all = written_generator first ∷ map written_generator
              (reverse more.items);
          only = option_value written condition;
        }) }
{
    let (all, condition) = beside(put_before(more, first), condition)?;
    let all = in_order(all);
    let made = make_generators(alloc, all, condition)?;
    Ok(made)
}

/// `name in domain`
pub fn make_generator(name: Name, domain: Expression) -> Generator
    ensures { written_generator result ≡ record { bound = name; domain = written domain } }
{
    Generator { name, domain }
}

/// `generator, more : condition`
pub fn undo_generators_form(alloc: Global, stacks: &mut Stacks) -> Result<(), NoMemory>
    requires { Ready generators_generator stacks.old }
    ensures { IfOk result (λ _. Undone generators generators_generator GeneratorsMade stacks.old stacks.new) }
{
    let first = take(&mut stacks.generators);
    let more = take(&mut stacks.generator_lists);
    let condition = take(&mut stacks.optional);
    let made = join_generators(alloc, first, more, condition);
    put_made(&mut stacks.all_generators, made)
}

/// `, generator` and more
pub fn undo_generators_more(stacks: &mut Stacks) -> Result<(), NoMemory>
    requires { Ready generators_tail_comma stacks.old }
    ensures { IfOk result (λ _. Undone generators_tail generators_tail_comma MoreGeneratorsMade stacks.old stacks.new) }
{
    let next = take(&mut stacks.generators);
    put_first(&mut stacks.generator_lists, next)
}

/// `name in domain`
pub fn undo_generator(stacks: &mut Stacks) -> Result<(), NoMemory>
    requires { Ready generator_name stacks.old }
    ensures { IfOk result (λ _. Undone generator generator_name GeneratorMade stacks.old stacks.new) }
{
    let name = take(&mut stacks.names);
    let domain = take(&mut stacks.expressions);
    let made = make_generator(name, domain);
    put(&mut stacks.generators, made)
}

/// `: condition`
pub fn undo_condition(stacks: &mut Stacks) -> Result<(), NoMemory>
    requires { Ready condition_colon stacks.old }
    ensures { IfOk result (λ _. Undone condition condition_colon ConditionMade stacks.old stacks.new) }
{
    let test = take(&mut stacks.expressions);
    put(&mut stacks.optional, Some(test))
}
