// Tokens as trees keep them.

ghost use Rattle.std.specs.Prelude.{◌≡◌};
ghost use Rattle.vast.specs.TokenTexts.{token_text, texts};

/// A token of the text, by its number, from 0. Its letters aren't kept beside it: they are those of that token.
#[derive(Clone, Copy, PartialEq, Eq)]
pub struct Token {
    pub number: u32,
}

/// The letters of a token, among the words of the text; none, where there are fewer words.
pub fn letters<'t>(words: &[&'t [u8]], token: Token) -> &'t [u8]
    ensures { result.now ≡ token_text (texts words.now) token }
{
    match words.get(token.number as usize) {
        None => b"",
        Some(word) => word,
    }
}
