//! How operators and keywords are spelled.
use comet_syntax::tree::{
    Aggregate, ChainOperator, Comparison, Extreme, Incremental, ResultKind, Step, UnaryOperator,
    WithMode, WriteOperator,
};

/// The sign of an operator of a chain.
pub(crate) fn chain_operator(operator: ChainOperator) -> &'static str {
    match operator {
        ChainOperator::Or => "||",
        ChainOperator::And => "&&",
        ChainOperator::Add => "+",
        ChainOperator::Subtract => "-",
        ChainOperator::Multiply => "*",
        ChainOperator::Divide => "/",
        ChainOperator::Remainder => "%",
    }
}

/// The sign of a comparison.
pub(crate) fn comparison_operator(comparison: Comparison) -> &'static str {
    match comparison {
        Comparison::Equal => "==",
        Comparison::NotEqual => "!=",
        Comparison::Less => "<",
        Comparison::LessEqual => "<=",
        Comparison::Greater => ">",
        Comparison::GreaterEqual => ">=",
    }
}

/// The sign of an operator in front.
pub(crate) fn unary_operator(operator: UnaryOperator) -> &'static str {
    match operator {
        UnaryOperator::Negative => "-",
        UnaryOperator::Not => "!",
    }
}

/// The keyword of an extreme of two.
pub(crate) fn extreme_word(extreme: Extreme) -> &'static str {
    match extreme {
        Extreme::Min => "min",
        Extreme::Max => "max",
    }
}

/// The keyword of a selector with a key.
pub(crate) fn selector_word(extreme: Extreme) -> &'static str {
    match extreme {
        Extreme::Min => "selectMin",
        Extreme::Max => "selectMax",
    }
}

/// The keyword of an aggregate.
pub(crate) fn aggregate_word(aggregate: Aggregate) -> &'static str {
    match aggregate {
        Aggregate::Sum => "sum",
        Aggregate::Min => "min",
        Aggregate::Max => "max",
        Aggregate::All => "all",
        Aggregate::And => "and",
        Aggregate::Or => "or",
        Aggregate::SetOf => "setof",
        Aggregate::ArgMin => "argMin",
        Aggregate::ArgMax => "argMax",
    }
}

/// The keyword of a truth value.
pub(crate) fn truth_word(value: bool) -> &'static str {
    if value { "true" } else { "false" }
}

/// The keyword of a type of incremental variables.
pub(crate) fn incremental_word(word: Incremental) -> &'static str {
    match word {
        Incremental::Var => "var",
        Incremental::Inc => "inc",
    }
}

/// The keyword of what a function gives.
pub(crate) fn kind_word(kind: ResultKind) -> &'static str {
    match kind {
        ResultKind::Void => "void",
        ResultKind::Int => "int",
        ResultKind::Bool => "bool",
    }
}

/// The keywords of a `with`.
pub(crate) fn with_words(mode: WithMode) -> &'static str {
    match mode {
        WithMode::Atomic => "with atomic",
        WithMode::Delay => "with delay",
    }
}

/// The sign of a write.
pub(crate) fn write_operator(operator: WriteOperator) -> &'static str {
    match operator {
        WriteOperator::Set => "=",
        WriteOperator::Add => "+=",
        WriteOperator::Subtract => "-=",
        WriteOperator::Assign => ":=",
        WriteOperator::Define => "<-",
    }
}

/// The sign of a step.
pub(crate) fn step_operator(step: Step) -> &'static str {
    match step {
        Step::Increment => "++",
        Step::Decrement => "--",
    }
}
