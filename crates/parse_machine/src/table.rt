//! The grammar's table: the forms of each part, the one for all other tokens last.
ghost use Rattle.std.specs.Prelude.{◌≡◌, map};
ghost use Rattle.comet_syntax.specs.Grammar.Alternatives.{alternatives};
ghost use Rattle.parse_machine.specs.Parts.{part_of};
ghost use Rattle.parse_machine.specs.Rows.{row_of, production, late};

mod declarations;
mod expressions;
mod programs;
mod statements;

use crate::grammar::{Part, Row};

/// The forms of a part.
pub fn rows(part: Part) -> &'static [Row]
    ensures { map row_of result.now ≡ map (production (part_of part))
        (late (alternatives (part_of part))) }
{
    match part {
        Part::Program => &programs::PROGRAM,
        Part::Top => &programs::TOP,
        Part::ResultKind => &programs::RESULT_KIND,
        Part::Parameters => &programs::PARAMETERS,
        Part::ParametersTail => &programs::PARAMETERS_TAIL,
        Part::Parameter => &programs::PARAMETER,
        Part::ParameterKind => &programs::PARAMETER_KIND,
        Part::Brackets => &programs::BRACKETS,
        Part::Template => &programs::TEMPLATE,
        Part::ClassName => &programs::CLASS_NAME,
        Part::Block => &statements::BLOCK,
        Part::Statements => &statements::STATEMENTS,
        Part::Statement => &statements::STATEMENT,
        Part::Otherwise => &statements::OTHERWISE,
        Part::OptionalValue => &statements::OPTIONAL_VALUE,
        Part::ForStart => &statements::FOR_START,
        Part::ForStep => &statements::FOR_STEP,
        Part::Events => &statements::EVENTS,
        Part::WithMode => &statements::WITH_MODE,
        Part::Generators => &statements::GENERATORS,
        Part::GeneratorsTail => &statements::GENERATORS_TAIL,
        Part::Condition => &statements::CONDITION,
        Part::Generator => &statements::GENERATOR,
        Part::Simple => &statements::SIMPLE,
        Part::NamedSimple => &statements::NAMED_SIMPLE,
        Part::NewValue => &statements::NEW_VALUE,
        Part::Write => &statements::WRITE,
        Part::FirstName => &statements::FIRST_NAME,
        Part::Item => &statements::ITEM,
        Part::ItemsTail => &statements::ITEMS_TAIL,
        Part::Declaration => &declarations::DECLARATION,
        Part::IntRest => &declarations::INT_REST,
        Part::StartValue => &declarations::START_VALUE,
        Part::VariableRest => &declarations::VARIABLE_REST,
        Part::Domain => &declarations::DOMAIN,
        Part::VariableStart => &declarations::VARIABLE_START,
        Part::Maker => &declarations::MAKER,
        Part::Dimensions => &declarations::DIMENSIONS,
        Part::DimensionsTail => &declarations::DIMENSIONS_TAIL,
        Part::Dimension => &declarations::DIMENSION,
        Part::DimensionRest => &declarations::DIMENSION_REST,
        Part::Expression => &expressions::EXPRESSION,
        Part::Branches => &expressions::BRANCHES,
        Part::OrTail => &expressions::OR_TAIL,
        Part::AndTail => &expressions::AND_TAIL,
        Part::ComparisonTail => &expressions::COMPARISON_TAIL,
        Part::RangeTail => &expressions::RANGE_TAIL,
        Part::TotalTail => &expressions::TOTAL_TAIL,
        Part::ProductTail => &expressions::PRODUCT_TAIL,
        Part::Operand => &expressions::OPERAND,
        Part::Unnamed => &expressions::UNNAMED,
        Part::Pair => &expressions::PAIR,
        Part::PairNamed => &expressions::PAIR_NAMED,
        Part::Literal => &expressions::LITERAL,
        Part::Extreme => &expressions::EXTREME,
        Part::Postfix => &expressions::POSTFIX,
        Part::Called => &expressions::CALLED,
        Part::Suffixes => &expressions::SUFFIXES,
        Part::Second => &expressions::SECOND,
        Part::Arguments => &expressions::ARGUMENTS,
        Part::Listed => &expressions::LISTED,
        Part::ArgumentsTail => &expressions::ARGUMENTS_TAIL,
        Part::Argument => &expressions::ARGUMENT,
    }
}
