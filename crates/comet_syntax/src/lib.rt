//! Texts: their tokens, and the tree that tokens are spelled by.
//!
//! It knows nothing of what a program means, nor of files or sinks. The layers above use that `lex` gives
//! the one token list of a text, or its one fault exactly where there is none. The grammar of the whole
//! language, its tree and how a tree spells tokens are definitions in `specs/`.
#![tactic(auto)]

mod decimal;
pub mod laws;
mod lex_comment;
mod lex_front;
mod lex_string;
mod lexeme;
mod lexer;
mod limits;
mod stop;
mod token;
pub mod tree;
mod word;

pub use lexer::{lex, place_behind};
pub use limits::MOST_BYTES;
pub use stop::{FormCause, LexStop};
pub use token::{Token, TokenKind, Word};
