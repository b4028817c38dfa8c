// The piece at the head of a text, told by its first byte.

ghost use Rattle.std.specs.Prelude.{◌≡◌, ◌∷◌, ◌<◌, length};
ghost use Rattle.vlex.specs.Bytes.{lead_of};
ghost use Rattle.vlex.specs.Forms.{is_double, is_triple};
ghost use Rattle.vlex.specs.Inner.{IsAnswer};

use crate::bytes::{Lead, Set, byte_at, lead_of, run_len};
use crate::form::{Form, Front};
use crate::kind::TokenKind;
use crate::number::{number, number_with_base};
use crate::text::{slash, string};

/// What stands at the head of a text.
pub fn front(text: &[u8]) -> Front
    requires { 0 < length text.now }
    ensures { IsAnswer text.now result }
{
    front_by(text[0], text.split_at(1).1)
}

fn front_by(first: u8, rest: &[u8]) -> Front
    ensures { IsAnswer (first ∷ rest.now) result }
{
    match lead_of(first) {
        Lead::Blank => Front::Piece(Form::Blank, 1 + run_len(Set::Blanks, rest)),
        Lead::Letter => Front::Piece(Form::Token(TokenKind::Name), 1 + run_len(Set::Words, rest)),
        Lead::Backslash => escaped_name(first, rest),
        Lead::Dollar => system(first, rest),
        Lead::Digit => number(first, rest),
        Lead::Apostrophe => number_with_base(first, rest),
        Lead::Quote => string(first, rest),
        Lead::Slash => slash(first, rest),
        Lead::Punctuation => symbol(first, rest),
        Lead::Other => Front::Bad,
    }
}

// The escaped name that begins with a backslash (3.7.1). A dot parts the names of a path, so none may stand in it.
fn escaped_name(first: u8, rest: &[u8]) -> Front
    requires { lead_of first ≡ Lead.Backslash }
    ensures { IsAnswer (first ∷ rest.now) result }
{
    let len = run_len(Set::Escapes, rest);
    if len == 0 {
        return Front::Bad;
    }
    if byte_at(rest, len) == b'.' {
        return Front::Bad;
    }
    Front::Piece(Form::Token(TokenKind::Name), 1 + len)
}

// The system name that begins with `$`.
fn system(first: u8, rest: &[u8]) -> Front
    requires { lead_of first ≡ Lead.Dollar }
    ensures { IsAnswer (first ∷ rest.now) result }
{
    let len = run_len(Set::Words, rest);
    if len == 0 {
        Front::Bad
    } else {
        Front::Piece(Form::Token(TokenKind::System), 1 + len)
    }
}

// The symbol that begins with a mark: the longest of up to three bytes.
fn symbol(first: u8, rest: &[u8]) -> Front
    requires { lead_of first ≡ Lead.Punctuation }
    ensures { IsAnswer (first ∷ rest.now) result }
{
    let (second, third) = (byte_at(rest, 0), byte_at(rest, 1));
    let len = if is_triple(first, second, third) {
        3
    } else if is_double(first, second) {
        2
    } else {
        1
    };
    Front::Piece(Form::Token(TokenKind::Symbol), len)
}

fn is_double(first: u8, second: u8) -> bool
    ensures { result ≡ is_double first second }
{
    match second {
        b'=' => first == b'=' || first == b'!' || first == b'<' || first == b'>',
        b'&' => first == b'~' || first == b'&',
        b'|' => first == b'~' || first == b'|',
        b'~' => first == b'^',
        b'^' => first == b'~',
        b'<' => first == b'<',
        b'>' => first == b'>' || first == b'-',
        b'*' => first == b'*',
        b':' => first == b'+' || first == b'-',
        _ => false,
    }
}

fn is_triple(first: u8, second: u8, third: u8) -> bool
    ensures { result ≡ is_triple first second third }
{
    match third {
        b'=' => second == b'=' && (first == b'=' || first == b'!'),
        b'<' => second == b'<' && first == b'<',
        b'>' => second == b'>' && first == b'>',
        _ => false,
    }
}
