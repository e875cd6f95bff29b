//! Laws over the definitions alone.
ghost use Rattle.std.specs.Prelude.{◌≡◌, ℕ, List, true};
ghost use Rattle.cbl_base.specs.declared.place.Place.{Place};
ghost use Rattle.comet_syntax.specs.declared.stop.FormCause.{FormCause};
ghost use Rattle.comet_syntax.specs.declared.token.Token.{Token};
ghost use Rattle.comet_syntax.specs.Grammar.Alternatives.{alternatives};
ghost use Rattle.comet_syntax.specs.Grammar.First.{first};
ghost use Rattle.comet_syntax.specs.Grammar.Heads.{flat_heads, within};
ghost use Rattle.comet_syntax.specs.Grammar.Symbols.{Part};
ghost use Rattle.comet_syntax.specs.Tokens.TokenList.{HasTokens};
ghost use Rattle.comet_syntax.specs.Tokens.TokenFault.{HasTokenFault};

/// A text has at most one token list.
pub fn one_token_list()
    ensures { (text : List ℕ) (tokens others : List Token) → HasTokens text tokens →
        HasTokens text others → tokens ≡ others }
{}

/// A text is refused at one place for one cause, and only where it has no token list.
pub fn one_token_fault()
    ensures one { (text : List ℕ) (place other : Place) (cause another : FormCause) →
        HasTokenFault text place cause → HasTokenFault text other another → (place ≡ other) × (cause ≡ another) }
    ensures no_list { (text : List ℕ) (place : Place) (cause : FormCause) (tokens : List Token) →
        HasTokenFault text place cause → HasTokens text tokens → ⊥ }
{}

/// The kinds that a part is said to begin with are those that its forms begin with, and no others.
pub fn first_is_what_forms_begin_with()
    ensures each { (part : Part) → within (flat_heads (alternatives part)) (first part) ≡ true }
    ensures no_other { (part : Part) → within (first part) (flat_heads (alternatives part)) ≡ true }
{}
