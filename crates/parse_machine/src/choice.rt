//! Which form a part has at the next token, and whether that is the token that is wanted.
ghost use Rattle.std.specs.Prelude.{◌≡◌, ◌≤◌, map, MatchOption, IfOk, IfErr, ℕ, Bool, None, [], ◌∷◌};
ghost use Rattle.std.specs.List.{list_any};
ghost use Rattle.cbl_base.specs.declared.limits.TheConstants.{MAX_NESTING};
ghost use Rattle.comet_syntax.specs.Grammar.Kinds.{kind, kind_eq, next_in};
ghost use Rattle.comet_syntax.specs.Grammar.Symbols.{same, token};
ghost use Rattle.parse_base.specs.Promise.{Fails};
ghost use Rattle.parse_machine.specs.Choosing.{picked, Picks, CanCome, Chosen, IsNext};
ghost use Rattle.parse_machine.specs.Parts.{kind_in, part_of};
ghost use Rattle.parse_machine.specs.Rows.{row_of};

use crate::grammar::{Kind, Part, Row};
use crate::table::rows;
use cbl_base::limits::MAX_NESTING;
use comet_syntax::{FormCause, Token, TokenKind};
use parse_base::{Stop, refuse};

// What the grammar sees of a token.
fn kind_of_token(token: &Token) -> Kind
    ensures { kind_in result ≡ kind token.now }
{
    match &token.kind {
        TokenKind::Name(_) => Kind::Name,
        TokenKind::Number(_) => Kind::Number,
        TokenKind::Str(_) => Kind::Str,
        TokenKind::Word(word) => Kind::Word(*word),
    }
}

// Whether two kinds are the same.
fn is_same(a: Kind, b: Kind) -> bool
    ensures { result ≡ kind_eq (kind_in a) (kind_in b) }
{
    match a {
        Kind::Name => matches!(b, Kind::Name),
        Kind::Number => matches!(b, Kind::Number),
        Kind::Str => matches!(b, Kind::Str),
        Kind::Word(word) => match b {
            Kind::Word(other) => word == other,
            _ => false,
        },
    }
}

// Whether the kind is one of these.
fn is_among(kinds: &[Kind], kind: Kind) -> bool
    ensures { result ≡ list_any (λ k. kind_eq (kind_in k) (kind_in kind)) kinds.now }
{
    kinds.iter().any(|k| is_same(*k, kind))
}

// Whether the next token is of one of these kinds.
fn is_next(tokens: &[Token], kinds: &[Kind]) -> bool
    ensures { result ≡ next_in (map kind_in kinds.now) tokens.now }
{
    match tokens.split_first() {
        Some((token, _)) => is_among(kinds, kind_of_token(token)),
        None => false,
    }
}

// The first row that goes with the next token. A row that begins with no kind goes with each.
fn pick(all: &'static [Row], tokens: &[Token]) -> Option<&'static Row>
    ensures { MatchOption result (picked (map row_of all.now) tokens.now ≡ None)
        (λ row. Picks (map row_of all.now) tokens.now (row_of row.now)) }
{
    for row in all {
        if row.on.is_empty() || is_next(tokens, row.on) {
            return Some(row);
        }
    }
    None
}

/// The row of the form that a part has at the next token. The token is refused where it goes with no form,
/// and where it begins a part that is too deep.
pub fn choose(tokens: &[Token], part: Part, depth: usize) -> Result<&'static Row, Stop>
    requires { CanCome (part_of part) depth }
    ensures ok { IfOk result (λ row. Chosen (part_of part) depth tokens.now (row_of row.now)) }
    ensures err { IfErr result (λ stop.
        Fails MAX_NESTING (same (part_of part) ∷ []) depth tokens.now stop) }
{
    match pick(rows(part), tokens) {
        Some(row) => {
            if depth > MAX_NESTING as usize {
                Err(Stop::Fault {
                    left: tokens.len(),
                    cause: FormCause::TooDeep,
                })
            } else {
                Ok(row)
            }
        }
        None => Err(refuse(tokens)),
    }
}

/// The tokens behind the next one, which is refused where it isn't of this kind.
pub fn read(tokens: &[Token], kind: Kind) -> Result<&[Token], Stop>
    ensures ok { IfOk result (λ rest. IsNext tokens.now (kind_in kind) rest.now) }
    ensures err { IfErr result (λ stop. (m : Bool) (d : ℕ) →
        Fails MAX_NESTING (token m (kind_in kind) ∷ []) d tokens.now stop) }
{
    match tokens.split_first() {
        Some((token, behind)) => {
            if is_same(kind, kind_of_token(token)) {
                Ok(behind)
            } else {
                Err(refuse(tokens))
            }
        }
        None => Err(refuse(tokens)),
    }
}
