//! What names and expressions are.

/// What a name or an expression is.
#[derive(Clone, Copy)]
pub enum Kind {
    Int,
    Bool,
    Range,
    /// `set{int}`
    Set,
    /// An array of `int` with one dimension, and one with two.
    Array,
    Grid,
    /// `var{int}`, and its arrays.
    Variable,
    VariableArray,
    VariableGrid,
    /// `var{set{int}}`, and its arrays.
    SetVariable,
    SetVariableArray,
    SetVariableGrid,
    Solver,
    /// A constraint system.
    System,
    /// A `FunctionExpr`, and a `FunctionSum`.
    Objective,
    Total,
    Distribution,
    Input,
    Selector,
    Monitor,
    Solution,
    Function,
    Constraint,
    /// What `getMove` gives.
    Move,
    /// A string.
    Text,
    /// What gives no value.
    Nothing,
}
