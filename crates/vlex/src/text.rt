// Strings (IEEE 1364-2005, 3.6) and comments (3.3).

ghost use Rattle.std.specs.Prelude.{◌≡◌, ◌∷◌, ◌==◌, ◌||◌};
ghost use Rattle.vlex.specs.Forms.{is_octal, begins_octals, is_escape, has_good_escapes};
ghost use Rattle.vlex.specs.Inner.{IsAnswer};

use crate::bytes::{Set, byte_at, run_len};
use crate::form::{Form, Front};
use crate::kind::TokenKind;
use vsrc::{block_end, string_end};

/// The string that begins with a quote.
pub fn string(first: u8, rest: &[u8]) -> Front
    requires { first ≡ 34 }
    ensures { IsAnswer (first ∷ rest.now) result }
{
    let Some(len) = string_end(rest) else {
        return Front::NotEnded;
    };
    if has_good_escapes(rest.split_at(len).0) {
        Front::Piece(Form::Token(TokenKind::Text), 1 + len)
    } else {
        Front::Bad
    }
}

// Whether what may follow it stands behind each backslash (3.6.3).
fn has_good_escapes(bytes: &[u8]) -> bool
    ensures { result ≡ has_good_escapes bytes.now }
{
    let mut at = 0;
    while at < bytes.len() {
        if bytes[at] != b'\\' {
            at += 1;
        } else if at + 1 < bytes.len() && is_escape(bytes[at + 1], bytes.split_at(at + 2).1) {
            at += 2;
        } else {
            return false;
        }
    }
    true
}

// Whether the byte and those behind it may follow a backslash: n, t, a backslash, a quote, or up to three octal digits.
fn is_escape(byte: u8, behind: &[u8]) -> bool
    ensures { result ≡ is_escape byte behind.now }
{
    if byte == b'n' || byte == b't' || byte == b'\\' || byte == b'"' {
        return true;
    }
    is_octal(byte) && !(b'3' < byte && begins_octals(behind))
}

fn is_octal(byte: u8) -> bool
    ensures { result ≡ is_octal byte }
{
    b'0' <= byte && byte <= b'7'
}

fn begins_octals(bytes: &[u8]) -> bool
    ensures { result ≡ begins_octals bytes.now }
{
    if bytes.len() < 2 {
        return false;
    }
    is_octal(bytes[0]) && is_octal(bytes[1])
}

/// The comment that begins with a slash, or the slash alone.
pub fn slash(first: u8, rest: &[u8]) -> Front
    requires { first ≡ 47 }
    ensures { IsAnswer (first ∷ rest.now) result }
{
    let second = byte_at(rest, 0);
    if second == b'/' {
        return line(first, rest.split_at(1).1);
    }
    if second == b'*' {
        return block(first, rest.split_at(1).1);
    }
    Front::Piece(Form::Token(TokenKind::Symbol), 1)
}

// The comment that begins with //, told from what stands behind that.
fn line(first: u8, behind: &[u8]) -> Front
    requires { first ≡ 47 }
    ensures { IsAnswer (first ∷ 47 ∷ behind.now) result }
{
    Front::Piece(Form::Comment, 2 + run_len(Set::LineBytes, behind))
}

// The comment that begins with /*, told from what stands behind that.
fn block(first: u8, behind: &[u8]) -> Front
    requires { first ≡ 47 }
    ensures { IsAnswer (first ∷ 42 ∷ behind.now) result }
{
    match block_end(behind) {
        Some(len) => Front::Piece(Form::Comment, 2 + len),
        None => Front::NotEnded,
    }
}
