//! What an expression's place asks of it.

/// What an expression's place asks of it.
#[derive(Clone, Copy)]
pub enum Context {
    Plain,
    /// It draws, prints, writes, commits and reads nothing, and asks no monitor.
    Pure,
    /// A term.
    Term,
    /// A constraint in the first argument of a `post`.
    Constraint,
    /// The whole first argument of a `post` of a system.
    Posted,
}
