// Words that are passed: a name, a number, a string.

ghost use Rattle.std.specs.Prelude.{◌≡◌, IfOk};
ghost use Rattle.vexpr_parse.specs.Answers.{Keeps};
ghost use Rattle.vast.specs.TokenTexts.{token_text};
ghost use Rattle.vwords.specs.Words.{is_string as is_string_text};
ghost use Rattle.vstatement_parse.specs.Gives.{Gives, word_leaves};
ghost use Rattle.vgrammar.specs.Parts.{word_as};
ghost use Rattle.vgrammar.specs.Starts.{meant_if};
ghost use Rattle.vgrammar.specs.Statements as reading;

use basis::OrMemory;
use vast::token::Token;
use vexpr_parse::{Cursor, Stop};
use vlex::Tokens;
use vwords::words::{is_name, is_number};

/// Passes a name (IEEE 1364-2005, 3.7).
#[tactic(auto, using(crate::proofs::LeafWords::name_leaf))]
pub fn name_word(tokens: &Tokens<'_>, cursor: &mut Cursor) -> Result<Token, OrMemory<Stop>>
    ensures gives { Gives token_text reading.name_word tokens.now cursor.old cursor.new result }
    ensures kept { IfOk result (Keeps word_leaves tokens.now cursor.old cursor.new) }
{
    match cursor.word(tokens) {
        Some(word) => {
            if is_name(word.text) {
                cursor.pass(tokens);
                Ok(word.token)
            } else {
                Err(OrMemory::Fault(Stop::NoTree))
            }
        }
        None => Err(OrMemory::Fault(Stop::NoTree)),
    }
}

/// Passes a number (3.5.1).
#[tactic(auto, using(crate::proofs::LeafWords::number_leaf))]
pub fn number_word(tokens: &Tokens<'_>, cursor: &mut Cursor) -> Result<Token, OrMemory<Stop>>
    ensures gives { Gives token_text reading.number_word tokens.now cursor.old cursor.new result }
    ensures kept { IfOk result (Keeps word_leaves tokens.now cursor.old cursor.new) }
{
    match cursor.word(tokens) {
        Some(word) => {
            if is_number(word.text) {
                cursor.pass(tokens);
                Ok(word.token)
            } else {
                Err(OrMemory::Fault(Stop::NoTree))
            }
        }
        None => Err(OrMemory::Fault(Stop::NoTree)),
    }
}

/// Whether a token is a string: it begins with a quotation mark (3.6).
pub fn is_string(text: &[u8]) -> bool
    ensures { result ≡ is_string_text text.now }
{
    match text.first() {
        None => false,
        Some(first) => *first == b'"',
    }
}

/// Passes a string.
#[tactic(auto, using(crate::proofs::LeafWords::string_leaf))]
pub fn string_word(tokens: &Tokens<'_>, cursor: &mut Cursor) -> Result<Token, OrMemory<Stop>>
    ensures gives { Gives token_text (word_as (meant_if is_string_text))
        tokens.now cursor.old cursor.new result }
    ensures kept { IfOk result (Keeps word_leaves tokens.now cursor.old cursor.new) }
{
    match cursor.word(tokens) {
        Some(word) => {
            if is_string(word.text) {
                cursor.pass(tokens);
                Ok(word.token)
            } else {
                Err(OrMemory::Fault(Stop::NoTree))
            }
        }
        None => Err(OrMemory::Fault(Stop::NoTree)),
    }
}
