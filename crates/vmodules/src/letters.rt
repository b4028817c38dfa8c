// The letters of the tokens that trees keep by number: of an escaped name those behind the backslash (3.7.1).

ghost use Rattle.std.specs.Prelude.{◌≡◌};
ghost use Rattle.vast.specs.TokenTexts.{token_text};
ghost use Rattle.vwords.specs.Words.{without_backslash as unescaped_text};
ghost use Rattle.vexpr_parse.specs.Texts.{words_of};

use vast::token::Token;
use vlex::Tokens;
use vwords::words::without_backslash;

/// The letters of a token; none, where there are fewer tokens.
pub fn letters<'t>(tokens: &Tokens<'t>, token: Token) -> &'t [u8]
    ensures { result.now ≡ unescaped_text (token_text (words_of tokens.now) token) }
{
    if (token.number as usize) < tokens.len() {
        without_backslash(tokens.text(token.number as usize))
    } else {
        b""
    }
}
