// Directives that are passed over.

ghost use Rattle.std.specs.Prelude.{◌≡◌, ◌≤◌, length, IfSome, IfOk, Ok, Err};
ghost use Rattle.basis.specs.Reasons.{IfFault};
ghost use Rattle.vsrc.specs.Inner.{named_of};
ghost use Rattle.vsrc.specs.Ignored.{digits_behind, word_behind, quoted_len, string_behind, is_pull, is_version, is_level, numbered_len, ignored_len};
ghost use Rattle.vsrc.specs.Walk.{keywords_behind};
ghost use Rattle.vsrc.specs.declared.words.Ignored.TheVariants.{BeginKeywords, EndKeywords, UnconnectedDrive};
ghost use Rattle.vsrc.specs.Ignored as spec;

use crate::outside::{line_len, string_end};
use crate::refusal::{Refusal, Why, refuse};
use crate::words::{Ignored, blanks_len, name_behind, word_len};
use basis::{OrMemory, digits_len};

// The most `begin_keywords` that may be open.
const KEYWORDS: u32 = 32;

/// How many bytes the directive takes behind its word, where it is well formed.
pub fn ignored_len(ignored: Ignored, text: &[u8]) -> Option<usize>
    ensures value { result ≡ ignored_len ignored text.now }
    ensures within { IfSome result (λ len. len ≤ length text.now) }
{
    match ignored {
        Ignored::Celldefine => Some(0),
        Ignored::Endcelldefine => Some(0),
        Ignored::Resetall => Some(0),
        Ignored::BeginKeywords => version_len(text),
        Ignored::EndKeywords => Some(0),
        Ignored::Line => numbered_len(text),
        Ignored::Pragma => Some(line_len(text)),
        Ignored::UnconnectedDrive => pull_len(text),
        Ignored::NounconnectedDrive => Some(0),
    }
}

/// How many `begin_keywords` are open behind the directive at `at`, where so many were before it. E110 for an
/// `end_keywords` where none is; E112 where there are 32.
pub fn keywords_behind(ignored: Ignored, at: usize, keywords: u32) -> Result<u32, OrMemory<Refusal>>
    ensures ok { IfOk result (λ left. keywords_behind ignored at keywords ≡ Ok left) }
    ensures err { IfFault result (λ refusal. keywords_behind ignored at keywords ≡ Err refusal) }
{
    match ignored {
        Ignored::Celldefine => Ok(keywords),
        Ignored::Endcelldefine => Ok(keywords),
        Ignored::Resetall => Ok(keywords),
        Ignored::BeginKeywords => open_keywords(at, keywords),
        Ignored::EndKeywords => close_keywords(at, keywords),
        Ignored::Line => Ok(keywords),
        Ignored::Pragma => Ok(keywords),
        Ignored::UnconnectedDrive => Ok(keywords),
        Ignored::NounconnectedDrive => Ok(keywords),
    }
}

fn open_keywords(at: usize, keywords: u32) -> Result<u32, OrMemory<Refusal>>
    ensures ok { IfOk result (λ left. keywords_behind BeginKeywords at keywords ≡ Ok left) }
    ensures err { IfFault result (λ refusal. keywords_behind BeginKeywords at keywords ≡ Err refusal) }
{
    if keywords >= KEYWORDS {
        return Err(refuse(Why::Limit, at));
    }
    Ok(keywords + 1)
}

fn close_keywords(at: usize, keywords: u32) -> Result<u32, OrMemory<Refusal>>
    ensures ok { IfOk result (λ left. keywords_behind EndKeywords at keywords ≡ Ok left) }
    ensures err { IfFault result (λ refusal. keywords_behind EndKeywords at keywords ≡ Err refusal) }
{
    if keywords == 0 {
        return Err(refuse(Why::Directive, at));
    }
    Ok(keywords - 1)
}

// The digits behind blanks, and how many bytes both take.
fn digits_behind(text: &[u8]) -> Option<(&[u8], usize)>
    ensures value { named_of result ≡ digits_behind text.now }
    ensures within { IfSome result (λ found. found.1 ≤ length text.now) }
{
    let blanks = blanks_len(text);
    let rest = text.split_at(blanks).1;
    let len = digits_len(rest);
    if len == 0 {
        return None;
    }
    Some((rest.split_at(len).0, blanks + len))
}

// The word behind blanks, and how many bytes both take.
fn word_behind(text: &[u8]) -> Option<(&[u8], usize)>
    ensures value { named_of result ≡ word_behind text.now }
    ensures within { IfSome result (λ found. found.1 ≤ length text.now) }
{
    let blanks = blanks_len(text);
    let rest = text.split_at(blanks).1;
    let len = word_len(rest);
    if len == 0 {
        return None;
    }
    Some((rest.split_at(len).0, blanks + len))
}

// How many bytes the string at the head takes; 0 where none is closed on its line.
fn quoted_len(text: &[u8]) -> usize
    ensures value { result ≡ quoted_len text.now }
    ensures within { result ≤ length text.now }
{
    if text.is_empty() || text[0] != b'"' {
        return 0;
    }
    match string_end(text.split_at(1).1) {
        None => 0,
        Some(len) => 1 + len,
    }
}

// The string behind blanks, and how many bytes both take.
fn string_behind(text: &[u8]) -> Option<(&[u8], usize)>
    ensures value { named_of result ≡ string_behind text.now }
    ensures within { IfSome result (λ found. found.1 ≤ length text.now) }
{
    let blanks = blanks_len(text);
    let rest = text.split_at(blanks).1;
    let len = quoted_len(rest);
    if len == 0 {
        return None;
    }
    Some((rest.split_at(len).0, blanks + len))
}

// How many bytes `pull0` or `pull1` takes with the blanks before it.
fn pull_len(text: &[u8]) -> Option<usize>
    ensures value { result ≡ ignored_len UnconnectedDrive text.now }
    ensures within { IfSome result (λ len. len ≤ length text.now) }
{
    let (name, len) = name_behind(text)?;
    if is_pull(name) { Some(len) } else { None }
}

fn is_pull(name: &[u8]) -> bool
    ensures { result ≡ is_pull name.now }
{
    name == b"pull0".as_slice() || name == b"pull1".as_slice()
}

// How many bytes the version takes with the blanks before it.
fn version_len(text: &[u8]) -> Option<usize>
    ensures value { result ≡ ignored_len BeginKeywords text.now }
    ensures within { IfSome result (λ len. len ≤ length text.now) }
{
    let (version, len) = string_behind(text)?;
    if is_version(version) { Some(len) } else { None }
}

fn is_version(text: &[u8]) -> bool
    ensures { result ≡ is_version text.now }
{
    text == b"\"1364-1995\"".as_slice()
        || text == b"\"1364-2001\"".as_slice()
        || text == b"\"1364-2001-noconfig\"".as_slice()
        || text == b"\"1364-2005\"".as_slice()
}

// How many bytes the number of a line, the name of a file and a level take.
fn numbered_len(text: &[u8]) -> Option<usize>
    ensures value { result ≡ numbered_len text.now }
    ensures within { IfSome result (λ len. len ≤ length text.now) }
{
    let (_, number) = digits_behind(text)?;
    let (_, file) = string_behind(text.split_at(number).1)?;
    let level = level_len(text.split_at(number + file).1)?;
    Some(number + file + level)
}

// How many bytes a level takes with the blanks before it.
fn level_len(text: &[u8]) -> Option<usize>
    ensures value { result ≡ spec.len_if is_level (word_behind text.now) }
    ensures within { IfSome result (λ len. len ≤ length text.now) }
{
    let (word, len) = word_behind(text)?;
    if is_level(word) { Some(len) } else { None }
}

fn is_level(word: &[u8]) -> bool
    ensures { result ≡ is_level word.now }
{
    word == b"0".as_slice() || word == b"1".as_slice() || word == b"2".as_slice()
}
