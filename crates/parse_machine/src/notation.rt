//! How the rows of the grammar's table are written.
//!
//! A row is a form and its symbols, as the grammar has them: `StatementWhile(at "while" "(" deeper
//! Expression ")" deeper Statement)`. A sign or a keyword stands in quotes, behind `at` where the tree
//! keeps its place; `name`, `number` and `string` are tokens of these kinds; a part stands by its name,
//! behind `deeper` where it is one deeper, and behind `onward` at the head of a form for all other
//! tokens. A form that begins with a token begins with that; one that begins with a part says `on` which
//! kinds of token; one that is empty or begins with `onward` is for all other tokens, and stands last.

/// Kinds of token.
macro_rules! kinds {
    ($($kind:tt)*) => { &[$(kind!($kind)),*] };
}

/// A kind of token.
macro_rules! kind {
    (name) => { Kind::Name };
    (number) => { Kind::Number };
    (string) => { Kind::Str };
    ($word:tt) => { Kind::Word(word!($word)) };
}

/// The symbols of a form, behind those that are done.
macro_rules! symbols {
    ([$($done:tt)*]) => { &[$($done)*] };
    ([$($done:tt)*] name $($rest:tt)*) => { symbols!([$($done)* Symbol::Named,] $($rest)*) };
    ([$($done:tt)*] number $($rest:tt)*) => { symbols!([$($done)* Symbol::Numbered,] $($rest)*) };
    ([$($done:tt)*] string $($rest:tt)*) => { symbols!([$($done)* Symbol::Quoted,] $($rest)*) };
    ([$($done:tt)*] at $word:tt $($rest:tt)*) => {
        symbols!([$($done)* Symbol::Mark(word!($word)),] $($rest)*)
    };
    ([$($done:tt)*] deeper $part:ident $($rest:tt)*) => {
        symbols!([$($done)* Symbol::Deeper(Part::$part),] $($rest)*)
    };
    ([$($done:tt)*] onward deeper $part:ident $($rest:tt)*) => {
        symbols!([$($done)* Symbol::OnwardDeeper(Part::$part),] $($rest)*)
    };
    ([$($done:tt)*] onward $part:ident $($rest:tt)*) => {
        symbols!([$($done)* Symbol::Onward(Part::$part),] $($rest)*)
    };
    ([$($done:tt)*] $part:ident $($rest:tt)*) => {
        symbols!([$($done)* Symbol::Same(Part::$part),] $($rest)*)
    };
    ([$($done:tt)*] $word:tt $($rest:tt)*) => {
        symbols!([$($done)* Symbol::Word(word!($word)),] $($rest)*)
    };
}

/// The kinds of token that a form begins with.
macro_rules! begins {
    ([$first:ident] $($symbol:tt)*) => { first::$first };
    ([]) => { &[] };
    ([] onward $($symbol:tt)*) => { &[] };
    ([] at $word:tt $($symbol:tt)*) => { &[kind!($word)] };
    ([] $token:tt $($symbol:tt)*) => { &[kind!($token)] };
}

/// Rows of forms of one of the groups of parts.
macro_rules! rows {
    ($group:ident $forms:ident $($form:ident($($symbol:tt)*) $(on $first:ident)?,)*) => {
        [$(Row {
            form: Form::$group($forms::$form),
            symbols: symbols!([] $($symbol)*),
            on: begins!([$($first)?] $($symbol)*),
        },)*]
    };
}

pub(crate) use begins;
pub(crate) use kind;
pub(crate) use kinds;
pub(crate) use rows;
pub(crate) use symbols;
