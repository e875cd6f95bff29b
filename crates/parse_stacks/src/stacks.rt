//! The values of what a listing says, by their types: a stack for each, with the top at its end.
ghost use Rattle.std.specs.Prelude.{◌≡◌, ◌<◌, ◌∷◌, List, Vec, length, reverse, IfOk, Ok};
ghost use Rattle.parse_stacks.specs.Values.{empty_stacks, state};

use crate::tails::{
    Behind, Branches, Compared, DimensionRest, IntRest, NamedRest, NewValue, Pair, PairRest,
    ParameterType, UpTo, VariableRest, WriteRest,
};
use cbl_base::{NoMemory, Place, Text};
use comet_syntax::tree::{
    Argument, Block, Class, Declaration, Dimension, Dimensions, Events, Expression, ForStart,
    Generator, Generators, Item, Link, Maker, Name, Parameter, ResultKind, Simple, Statement,
    Suffix, TopPart, VariableStart, WithMode,
};
use std::alloc::Global;

/// A stack for each type of value. Lists stand in theirs the last member first.
#[derive(Drop)]
pub struct Stacks {
    pub places: Vec<Place>,
    pub names: Vec<Name>,
    pub texts: Vec<Text>,
    pub expressions: Vec<Expression>,
    pub optional: Vec<Option<Expression>>,
    pub links: Vec<Vec<Link>>,
    pub compared: Vec<Option<Compared>>,
    pub up_to: Vec<Option<UpTo>>,
    pub branches: Vec<Option<Branches>>,
    pub called: Vec<Option<Vec<Argument>>>,
    pub suffixes: Vec<Vec<Suffix>>,
    pub lists: Vec<Vec<Argument>>,
    pub arguments: Vec<Argument>,
    pub pairs: Vec<Pair>,
    pub pair_rests: Vec<PairRest>,
    pub all_generators: Vec<Generators>,
    pub generator_lists: Vec<Vec<Generator>>,
    pub generators: Vec<Generator>,
    pub templates: Vec<Option<Name>>,
    pub classes: Vec<Class>,
    pub declarations: Vec<Declaration>,
    pub int_rests: Vec<IntRest>,
    pub variable_rests: Vec<VariableRest>,
    pub variable_starts: Vec<Option<VariableStart>>,
    pub makers: Vec<Maker>,
    pub all_dimensions: Vec<Option<Dimensions>>,
    pub second_dimensions: Vec<Option<Dimension>>,
    pub dimensions: Vec<Dimension>,
    pub dimension_rests: Vec<DimensionRest>,
    pub programs: Vec<Vec<TopPart>>,
    pub tops: Vec<TopPart>,
    pub results: Vec<ResultKind>,
    pub parameter_lists: Vec<Vec<Parameter>>,
    pub parameters: Vec<Parameter>,
    pub parameter_types: Vec<ParameterType>,
    pub brackets: Vec<bool>,
    pub blocks: Vec<Block>,
    pub statement_lists: Vec<Vec<Statement>>,
    pub statements: Vec<Statement>,
    pub otherwise: Vec<Option<Statement>>,
    pub for_starts: Vec<Option<ForStart>>,
    pub for_steps: Vec<Option<Simple>>,
    pub events: Vec<Option<Events>>,
    pub modes: Vec<WithMode>,
    pub simples: Vec<Simple>,
    pub named_rests: Vec<NamedRest>,
    pub new_values: Vec<NewValue>,
    pub writes: Vec<WriteRest>,
    pub items: Vec<Item>,
    pub item_lists: Vec<Vec<Item>>,
}

impl Stacks {
    /// Empty stacks.
    pub fn new(alloc: Global) -> Stacks
        ensures { state result ≡ empty_stacks }
    {
        Stacks {
            places: Vec::new(alloc),
            names: Vec::new(alloc),
            texts: Vec::new(alloc),
            expressions: Vec::new(alloc),
            optional: Vec::new(alloc),
            links: Vec::new(alloc),
            compared: Vec::new(alloc),
            up_to: Vec::new(alloc),
            branches: Vec::new(alloc),
            called: Vec::new(alloc),
            suffixes: Vec::new(alloc),
            lists: Vec::new(alloc),
            arguments: Vec::new(alloc),
            pairs: Vec::new(alloc),
            pair_rests: Vec::new(alloc),
            all_generators: Vec::new(alloc),
            generator_lists: Vec::new(alloc),
            generators: Vec::new(alloc),
            templates: Vec::new(alloc),
            classes: Vec::new(alloc),
            declarations: Vec::new(alloc),
            int_rests: Vec::new(alloc),
            variable_rests: Vec::new(alloc),
            variable_starts: Vec::new(alloc),
            makers: Vec::new(alloc),
            all_dimensions: Vec::new(alloc),
            second_dimensions: Vec::new(alloc),
            dimensions: Vec::new(alloc),
            dimension_rests: Vec::new(alloc),
            programs: Vec::new(alloc),
            tops: Vec::new(alloc),
            results: Vec::new(alloc),
            parameter_lists: Vec::new(alloc),
            parameters: Vec::new(alloc),
            parameter_types: Vec::new(alloc),
            brackets: Vec::new(alloc),
            blocks: Vec::new(alloc),
            statement_lists: Vec::new(alloc),
            statements: Vec::new(alloc),
            otherwise: Vec::new(alloc),
            for_starts: Vec::new(alloc),
            for_steps: Vec::new(alloc),
            events: Vec::new(alloc),
            modes: Vec::new(alloc),
            simples: Vec::new(alloc),
            named_rests: Vec::new(alloc),
            new_values: Vec::new(alloc),
            writes: Vec::new(alloc),
            items: Vec::new(alloc),
            item_lists: Vec::new(alloc),
        }
    }
}

/// Takes the top of a stack.
pub fn take<T>(stack: &mut Vec<T>) -> T
    requires { 0 < length stack.old.items }
    ensures { reverse stack.old.items ≡ result ∷ reverse stack.new.items }
{
    stack.pop().unwrap()
}

/// Puts a value on top of a stack.
pub fn put<T: Drop>(stack: &mut Vec<T>, value: T) -> Result<(), NoMemory>
    ensures { IfOk result (λ _. reverse stack.new.items ≡ value ∷ reverse stack.old.items) }
{
    stack.push(value)?;
    Ok(())
}

/// Puts what was made on top of a stack.
pub fn put_made<T: Drop>(stack: &mut Vec<T>, made: Result<T, NoMemory>) -> Result<(), NoMemory>
    ensures { IfOk result (λ _. (value : T) × (made ≡ Ok value) ×
        (reverse stack.new.items ≡ value ∷ reverse stack.old.items)) }
{
    let value = made?;
    put(stack, value)
}

/// A list, whose last member stands first, with one more before all.
pub fn put_before<T: Drop>(all: Vec<T>, first: T) -> Result<Vec<T>, NoMemory>
    ensures { IfOk result (λ more. reverse more.items ≡ first ∷ reverse all.items) }
{
    let mut more = all;
    put(&mut more, first)?;
    Ok(more)
}

/// Puts one more before all members of the list on top of a stack, whose last member stands first.
pub fn put_first<T: Drop>(lists: &mut Vec<Vec<T>>, first: T) -> Result<(), NoMemory>
    requires { 0 < length lists.old.items }
    ensures { IfOk result (λ _. (more : Vec T Global) × (others : List (Vec T Global)) × (reverse lists.old.items ≡ more ∷ others)
        × (all : Vec T Global) × (reverse all.items ≡ first ∷ reverse more.items) × (reverse lists.new.items ≡ all ∷ others)) }
{
    let more = take(lists);
    put_made(lists, put_before(more, first))
}

/// Takes what stands behind an operand, level by level: the four topmost lists of links, and the tops of the other
/// stacks.
pub fn take_behind(
    links: &mut Vec<Vec<Link>>,
    up_to: &mut Vec<Option<UpTo>>,
    compared: &mut Vec<Option<Compared>>,
    branches: &mut Vec<Option<Branches>>,
) -> Behind
    requires four { 3 < length links.old.items }
    requires end { 0 < length up_to.old.items }
    requires right { 0 < length compared.old.items }
    requires choice { 0 < length branches.old.items }
    ensures links { reverse links.old.items ≡ result.product ∷ result.total ∷ result.conjunction ∷ result.disjunction ∷ reverse links.new.items }
    ensures up_to { reverse up_to.old.items ≡ result.up_to ∷ reverse up_to.new.items }
    ensures compared { reverse compared.old.items ≡ result.compared ∷ reverse compared.new.items }
    ensures branches { reverse branches.old.items ≡ result.branches ∷ reverse branches.new.items }
{
    let product = take(links);
    let total = take(links);
    let conjunction = take(links);
    let disjunction = take(links);
    Behind {
        product,
        total,
        up_to: take(up_to),
        compared: take(compared),
        conjunction,
        disjunction,
        branches: take(branches),
    }
}
