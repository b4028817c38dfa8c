// What the definition of a macro gives its name (IEEE 1364-2005, 19.3.1).

ghost use Rattle.std.specs.Prelude.{◌≡◌, ◌≤◌, ◌<◌, ◌==◌, ◌&&◌, not, length, IfOk};
ghost use Rattle.vsrc.specs.Macros.{lines_len, is_joint, without_backslashes, begins_comment, without_comments, macro_text};

use crate::outside::stretch_len;
use basis::NoMemory;
use std::alloc::Global;

/// The text that a definition gives its name, from the first byte after the name that isn't a blank on; and how many
/// bytes of the files it takes: a line that ends in a backslash goes on with the next one. Comments to the end of their
/// line are cut.
pub fn macro_text(alloc: Global, behind: &[u8]) -> Result<Vec<u8>, NoMemory>
    ensures { IfOk result (λ made. made.items ≡ macro_text behind.now) }
{
    let len = lines_len(behind);
    let lines = without_backslashes(alloc, behind.split_at(len).0)?;
    without_comments(alloc, &lines)
}

/// How far the rest of the line goes, with each line after one that ends in a backslash.
pub fn lines_len(text: &[u8]) -> usize
    ensures value { result ≡ lines_len text.now }
    ensures within { result ≤ length text.now }
{
    let mut slash = false;
    for (at, byte) in text.iter().enumerate() {
        if ends_lines(*byte, slash) {
            return at;
        }
        slash = *byte == b'\\';
    }
    text.len()
}

fn ends_lines(byte: u8, slash: bool) -> bool
    ensures { result ≡ (byte == 10 && not slash) }
{
    byte == b'\n' && !slash
}

// The lines without the backslashes that they end in.
fn without_backslashes(alloc: Global, text: &[u8]) -> Result<Vec<u8>, NoMemory>
    ensures { IfOk result (λ lines. lines.items ≡ without_backslashes text.now) }
{
    let mut lines = Vec::new(alloc);
    let mut at = 0;
    while at < text.len() {
        let rest = text.split_at(at).1;
        if !is_joint(rest) {
            lines.push(rest[0])?;
        }
        at += 1;
    }
    Ok(lines)
}

// Whether a backslash stands at the head, and its line ends behind it.
fn is_joint(text: &[u8]) -> bool
    ensures { result ≡ is_joint text.now }
{
    if text.is_empty() {
        return false;
    }
    if text.len() == 1 {
        return text[0] == b'\\';
    }
    text[0] == b'\\' && text[1] == b'\n'
}

// Whether a comment to the end of the line stands at the head.
fn begins_comment(text: &[u8]) -> bool
    ensures { result ≡ begins_comment text.now }
{
    if text.len() < 2 {
        return false;
    }
    text[0] == b'/' && text[1] == b'/'
}

// The text without its comments to the end of their line.
fn without_comments(alloc: Global, text: &[u8]) -> Result<Vec<u8>, NoMemory>
    ensures { IfOk result (λ left. left.items ≡ without_comments (length text.now) text.now) }
{
    let mut left = Vec::new(alloc);
    let mut at = 0;
    while at < text.len() {
        let rest = text.split_at(at).1;
        let len = stretch_len(rest);
        if !begins_comment(rest) {
            left.extend_from_slice(rest.split_at(len).0)?;
        }
        at += len;
    }
    Ok(left)
}
