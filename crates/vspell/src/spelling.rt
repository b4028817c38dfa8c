// Words that a tree spells.

ghost use Rattle.std.specs.Prelude.{◌≡◌, ◌∷◌, []};
ghost use Rattle.vast.specs.TokenTexts.{token_text, texts};
ghost use Rattle.vspell.specs.Inner.{Puts, comma_words};

use basis::NoMemory;
use vast::token::{Token, letters};

/// A word that a tree spells, by its bytes.
#[derive(Clone, Copy)]
pub struct Spelling<'t> {
    pub text: &'t [u8],
}

/// Puts a word after the others.
pub fn put<'t>(out: &mut Vec<Spelling<'t>>, text: &'t [u8]) -> Result<(), NoMemory>
    ensures { Puts out.old out.new result (text.now ∷ []) }
{
    out.push(Spelling { text })?;
    Ok(())
}

/// Puts the letters of a token.
pub fn put_token<'t>(
    out: &mut Vec<Spelling<'t>>,
    words: &[&'t [u8]],
    token: Token,
) -> Result<(), NoMemory>
    ensures { Puts out.old out.new result (token_text (texts words.now) token ∷ []) }
{
    put(out, letters(words, token))
}

/// Puts the comma that stands before each word of a list but the first.
pub fn put_comma<'t>(out: &mut Vec<Spelling<'t>>, first: bool) -> Result<(), NoMemory>
    ensures { Puts out.old out.new result (comma_words first) }
{
    if first {
        return Ok(());
    }
    put(out, b",")
}
