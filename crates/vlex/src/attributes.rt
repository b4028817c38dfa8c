// Attributes (IEEE 1364-2005, 3.8), which are no words of a text.

ghost use Rattle.std.specs.Prelude.{◌≡◌, ◌≤◌, ◌+◌, ◌==◌, ◌&&◌, Bool, false, drop, length, codes, IfOk, IfSome};
ghost use Rattle.std.specs.List.{list_any};
ghost use Rattle.std.specs.Str.{bytes_eq};
ghost use Rattle.vlex.specs.Lexed.{begins, opens, closes, is_name_kind, is_opening, is_closing, in_value, after, may_end, words_to_end, is_lead, is_lead_word, may_stand, instance_len, words_by};
ghost use Rattle.vlex.specs.Tokenized.{pieces_of, piece_at};
ghost use Rattle.vlex.specs.Inner.{HaveNone};
ghost use Rattle.vlex.specs.declared.kind.TokenKind.{TokenKind as Kind};

use crate::kind::TokenKind;
use crate::list::{Span, Tokens};
use basis::NoMemory;
use std::alloc::Global;

// The most brackets that may be open in a value.
const BRACKETS: usize = 64;

// What an instance may stand behind.
static LEADS: [&[u8]; 43] = [
    b"endmodule",
    b";",
    b"begin",
    b"end",
    b"endcase",
    b"else",
    b"default",
    b"initial",
    b"always",
    b"forever",
    b"(",
    b")",
    b",",
    b":",
    b"?",
    b"+",
    b"-",
    b"!",
    b"~",
    b"&",
    b"~&",
    b"|",
    b"~|",
    b"^",
    b"~^",
    b"^~",
    b"*",
    b"/",
    b"%",
    b"<<",
    b">>",
    b"<<<",
    b">>>",
    b"<",
    b"<=",
    b">",
    b">=",
    b"==",
    b"!=",
    b"===",
    b"!==",
    b"&&",
    b"||",
];

/// What of an instance stands before the next word.
#[derive(Clone, Copy)]
pub enum Part {
    /// Its beginning, or a comma.
    Start,
    Named,
    Equals,
    /// A word of a value in which so many brackets are open.
    Value(usize),
}

// Whether these two words stand at a place.
fn begins(tokens: &Tokens<'_>, at: usize, first: &[u8], second: &[u8]) -> bool
    requires { at ≤ length (pieces_of tokens.now) }
    ensures { result ≡ begins first.now second.now (drop at (pieces_of tokens.now)) }
{
    if tokens.len() - at < 2 {
        return false;
    }
    tokens.text(at) == first && tokens.text(at + 1) == second
}

fn opens(tokens: &Tokens<'_>, at: usize) -> bool
    requires { at ≤ length (pieces_of tokens.now) }
    ensures { result ≡ opens (drop at (pieces_of tokens.now)) }
{
    begins(tokens, at, b"(", b"*")
}

fn closes(tokens: &Tokens<'_>, at: usize) -> bool
    requires { at ≤ length (pieces_of tokens.now) }
    ensures { result ≡ closes (drop at (pieces_of tokens.now)) }
{
    begins(tokens, at, b"*", b")")
}

fn is_name_kind(kind: TokenKind) -> bool
    ensures { result ≡ is_name_kind kind }
{
    match kind {
        TokenKind::Name => true,
        TokenKind::System => false,
        TokenKind::Plain => false,
        TokenKind::Based => false,
        TokenKind::Text => false,
        TokenKind::Symbol => false,
    }
}

fn is_opening(word: &[u8]) -> bool
    ensures { result ≡ is_opening word.now }
{
    word == b"(".as_slice() || word == b"[".as_slice() || word == b"{".as_slice()
}

fn is_closing(word: &[u8]) -> bool
    ensures { result ≡ is_closing word.now }
{
    word == b")".as_slice() || word == b"]".as_slice() || word == b"}".as_slice()
}

// Where an instance is behind one more word of a value.
fn in_value(depth: usize, word: &[u8], is_nested: bool) -> Option<Part>
    ensures { result ≡ in_value depth word.now is_nested }
{
    if is_opening(word) {
        if is_nested || depth >= BRACKETS {
            return None;
        }
        return Some(Part::Value(depth + 1));
    }
    if is_closing(word) {
        if depth == 0 {
            return None;
        }
        return Some(Part::Value(depth - 1));
    }
    if word == b";".as_slice() {
        return None;
    }
    Some(Part::Value(depth))
}

// Where it is behind one more word.
fn after(part: Part, kind: TokenKind, word: &[u8], is_nested: bool) -> Option<Part>
    ensures { result ≡ after part kind word.now is_nested }
{
    match part {
        Part::Start => {
            if is_name_kind(kind) {
                Some(Part::Named)
            } else {
                None
            }
        }
        Part::Named => after_name(word),
        Part::Equals => {
            if word == b",".as_slice() {
                None
            } else {
                in_value(0, word, is_nested)
            }
        }
        Part::Value(depth) => {
            if is_next(depth, word) {
                Some(Part::Start)
            } else {
                in_value(depth, word, is_nested)
            }
        }
    }
}

fn after_name(word: &[u8]) -> Option<Part>
    ensures { (kind : Kind) (is_nested : Bool) → result ≡ after Part.Named kind word.now is_nested }
{
    if word == b"=".as_slice() {
        Some(Part::Equals)
    } else if word == b",".as_slice() {
        Some(Part::Start)
    } else {
        None
    }
}

// Whether the word is the comma behind a value.
fn is_next(depth: usize, word: &[u8]) -> bool
    ensures { result ≡ (depth == 0 && bytes_eq word.now (codes ",")) }
{
    depth == 0 && word == b",".as_slice()
}

fn may_end(part: Part) -> bool
    ensures { result ≡ may_end part }
{
    match part {
        Part::Start => false,
        Part::Named => true,
        Part::Equals => false,
        Part::Value(depth) => depth == 0,
    }
}

// Whether the instance ends with the two words at a place.
fn ends(tokens: &Tokens<'_>, part: Part, at: usize) -> bool
    requires { at ≤ length (pieces_of tokens.now) }
    ensures { result ≡ (may_end part && closes (drop at (pieces_of tokens.now))) }
{
    may_end(part) && closes(tokens, at)
}

// How many words it is from `from` on to the end of the instance, where it is well formed.
fn words_to_end(tokens: &Tokens<'_>, from: usize) -> Option<usize>
    requires { from ≤ length (pieces_of tokens.now) }
    ensures value { result ≡ words_to_end Part.Start (drop from (pieces_of tokens.now)) }
    ensures within { IfSome result (λ len. from + len ≤ length (pieces_of tokens.now)) }
{
    let mut part = Part::Start;
    let mut at = from;
    while at < tokens.len() {
        if ends(tokens, part, at) {
            return Some(at + 2 - from);
        }
        let Some(next) = after(part, tokens.kind(at), tokens.text(at), opens(tokens, at)) else {
            return None;
        };
        part = next;
        at += 1;
    }
    None
}

// Whether the word is one of those that an instance may stand behind, or there is none.
fn is_lead(word: &[u8]) -> bool
    ensures { result ≡ is_lead word.now }
{
    word.is_empty() || is_lead_word(word)
}

fn is_lead_word(word: &[u8]) -> bool
    ensures { result ≡ is_lead_word word.now }
{
    is_among(word, &LEADS)
}

fn is_among(word: &[u8], words: &[&[u8]]) -> bool
    ensures { result ≡ list_any (λ other. bytes_eq other.now word.now) words.now }
{
    words.iter().any(|other| *other == word)
}

fn may_stand(earlier: &[u8], last: &[u8]) -> bool
    ensures { result ≡ may_stand earlier.now last.now }
{
    is_lead(last) || earlier == b"#".as_slice() || earlier == b"@".as_slice()
}

// Of how many words the instance at a place behind these two is; 0 where none stands there.
fn instance_len(tokens: &Tokens<'_>, at: usize, earlier: &[u8], last: &[u8]) -> usize
    requires { at ≤ length (pieces_of tokens.now) }
    ensures value { result ≡ instance_len earlier.now last.now (drop at (pieces_of tokens.now)) }
    ensures within { at + result ≤ length (pieces_of tokens.now) }
{
    if tokens.len() - at < 2 {
        return 0;
    }
    if !opens(tokens, at) || !may_stand(earlier, last) {
        return 0;
    }
    match words_to_end(tokens, at + 2) {
        None => 0,
        Some(len) => 2 + len,
    }
}

/// Whether an instance may begin somewhere.
pub fn has_begin(tokens: &Tokens<'_>) -> bool
    ensures { result ≡ false → HaveNone (pieces_of tokens.now) }
{
    let mut at = 0;
    while at < tokens.len() {
        if opens(tokens, at) {
            return true;
        }
        at += 1;
    }
    false
}

/// Where the words of a text stand: its tokens less attributes.
pub fn words(alloc: Global, tokens: &Tokens<'_>) -> Result<Vec<Span>, NoMemory>
    ensures { IfOk result (λ spans.
        spans.items ≡ words_by (piece_at tokens.now.source.text) tokens.now.spans) }
{
    let mut spans = Vec::new(alloc);
    let mut earlier: &[u8] = b"";
    let mut last: &[u8] = b"";
    let mut at = 0;
    while at < tokens.len() {
        let len = instance_len(tokens, at, earlier, last);
        if len == 0 {
            spans.push(tokens.span(at))?;
            earlier = last;
            last = tokens.text(at);
            at += 1;
        } else {
            earlier = b"*";
            last = b")";
            at += len;
        }
    }
    Ok(spans)
}
