//! Laws over the definitions alone.
ghost use Rattle.std.specs.Prelude.{◌≡◌, ℕ, List};
ghost use Rattle.comet_syntax.specs.declared.token.Token.{Token};
ghost use Rattle.comet_syntax.specs.Tokens.TokenList.{HasTokens};

use comet_syntax::laws::one_token_list;

/// A text has at most one token list, so at most one program is parsed of it.
pub fn one_list()
    ensures { (text : List ℕ) (tokens others : List Token) → HasTokens text tokens →
        HasTokens text others → tokens ≡ others }
{
    one_token_list();
}
