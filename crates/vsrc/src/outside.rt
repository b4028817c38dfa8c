// Where comments and strings end.

ghost use Rattle.std.specs.Prelude.{◌≡◌, ◌+◌, ◌==◌, ◌&&◌, ◌<◌, ◌≤◌, ℕ, length, drop, slice_index, IfSome};
ghost use Rattle.vsrc.specs.Inner.{string_end_from};
ghost use Rattle.vsrc.specs.Outside.{block_end, string_end, line_len, block_len, string_len, slash_len, stretch_len};

use memchr::memchr;

/// How many bytes belong together at the head: a comment, a string, or one byte.
pub fn stretch_len(text: &[u8]) -> usize
    requires { 0 < length text.now }
    ensures value { result ≡ stretch_len text.now }
    ensures some { 0 < result }
    ensures within { result ≤ length text.now }
{
    match text[0] {
        b'"' => 1 + string_len(&text[1..]),
        b'/' => slash_len(&text[1..]),
        _ => 1,
    }
}

// How many bytes belong together from a slash on, told from those behind it.
fn slash_len(text: &[u8]) -> usize
    ensures value { result ≡ slash_len text.now }
    ensures some { 0 < result }
    ensures within { result ≤ length text.now + 1 }
{
    if text.is_empty() {
        return 1;
    }
    match text[0] {
        b'/' => 2 + line_len(&text[1..]),
        b'*' => 2 + block_len(&text[1..]),
        _ => 1,
    }
}

/// How far it is to the end of the line.
pub fn line_len(text: &[u8]) -> usize
    ensures value { result ≡ line_len text.now }
    ensures within { result ≤ length text.now }
{
    memchr(b'\n', text).unwrap_or(text.len())
}

fn block_len(text: &[u8]) -> usize
    ensures value { result ≡ block_len text.now }
    ensures within { result ≤ length text.now }
{
    match block_end(text) {
        Some(len) => len,
        None => text.len(),
    }
}

fn string_len(text: &[u8]) -> usize
    ensures value { result ≡ string_len text.now }
    ensures within { result ≤ length text.now }
{
    match string_end(text) {
        Some(len) => len,
        None => line_len(text),
    }
}

/// How far it is to the end of the first `*/`, where there is one.
pub fn block_end(text: &[u8]) -> Option<usize>
    ensures value { result ≡ block_end text.now }
    ensures within { IfSome result (λ len. len ≤ length text.now) }
{
    let mut at = 1;
    while at < text.len() {
        if ends_block(text[at - 1], text[at]) {
            return Some(at + 1);
        }
        at += 1;
    }
    None
}

fn ends_block(star: u8, slash: u8) -> bool
    ensures { result ≡ (star == 42 && slash == 47) }
{
    star == b'*' && slash == b'/'
}

/// How far it is to the end of the string that is open, its closing quote included, where it is closed on its line.
#[tactic(auto, using(crate::proofs::Stretches::string_at_quote, crate::proofs::Stretches::string_at_feed, crate::proofs::Stretches::string_at_plain, crate::proofs::Stretches::string_at_end))]
pub fn string_end(text: &[u8]) -> Option<usize>
    ensures value { result ≡ string_end text.now }
    ensures within { IfSome result (λ len. len ≤ length text.now) }
{
    let mut at = 0;
    while at < text.len() {
        match text[at] {
            b'"' => return Some(at + 1),
            b'\n' => return None,
            b'\\' => at = past_escape(text, at),
            _ => at += 1,
        }
    }
    None
}

// Behind the backslash at `at` and the byte that it takes along.
#[tactic(auto, using(crate::proofs::Stretches::string_at_last, crate::proofs::Stretches::string_at_broken, crate::proofs::Stretches::string_at_escape))]
fn past_escape(text: &[u8], at: usize) -> usize
    requires within { at < length text.now }
    requires backslash { slice_index text.now at ≡ 92 }
    ensures some { at < result }
    ensures within { result ≤ length text.now }
    ensures rest { string_end_from text.now result ≡ string_end_from text.now at }
{
    let next = at + 1;
    if next < text.len() && text[next] != b'\n' {
        next + 1
    } else {
        next
    }
}
