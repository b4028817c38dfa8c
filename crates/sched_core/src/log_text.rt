// The text of a log, read and written.

ghost use Rattle.std.specs.Prelude.{◌≡◌, ◌≢◌, ℕ, ◌+◌, ◌<◌, ◌≤◌, ◌^◌, List, [], ◌∷◌, ◌++◌, true, IfOk, IfSome, IfNone, OnOk, IsErrOf, MatchResult};
ghost use Rattle.std.specs.Str.{all_ascii_digits};
ghost use Rattle.std.specs.Fmt.{decimal};
ghost use Rattle.basis.specs.Reasons.{IfFault};
ghost use Rattle.sched_core.specs.Logs.{IsLog};
ghost use Rattle.sched_core.specs.LogText.{head_text, member_text, more_text, log_text, named_log_text, IsNamedLogText, IsNoLogText, IsNoNamedLogText, ReadsEach, ReadsEachNamed};
ghost use Rattle.sched_core.specs.Inner.Reading.{HasNoMember, HasNoNumber, IsMemberFront, IsNumberFront, SplitsNamed, StartsNoNumber};
ghost use Rattle.sched_core.specs.declared.log.LogHead.{LogHead};

use crate::log::{Log, LogFault, LogHead, Member};
use crate::setting::{Departures, Grain};
use basis::{NoMemory, OrMemory, digits_len, number_in};
use itoa::Buffer;
use std::alloc::Global;

// The digits at the front, and what follows them.
fn split_digits(text: &[u8]) -> (&[u8], &[u8])
    ensures whole { result.0.now ++ result.1.now ≡ text.now }
    ensures digits { all_ascii_digits result.0.now ≡ true }
    ensures stops { StartsNoNumber result.1.now }
{
    text.split_at(digits_len(text))
}

// The number of 32 bits whose decimal the word is.
fn small_number(word: &[u8]) -> Option<u32>
    ensures read { IfSome result (λ n. word.now ≡ decimal n) }
    ensures none { IfNone result ((n : ℕ) → n < 2 ^ 32 → word.now ≢ decimal n) }
{
    let number = number_in(word)?;
    u32::try_from(number).ok()
}

// The number at the front, and what follows it.
fn front_number(text: &[u8]) -> Option<(u32, &[u8])>
    ensures read { IfSome result (λ p. IsNumberFront text.now p.0 p.1.now) }
    ensures none { IfNone result (HasNoNumber text.now) }
{
    let (digits, rest) = split_digits(text);
    let value = small_number(digits)?;
    Some((value, rest))
}

// What follows the byte at the front, if it is this one.
fn after_byte(text: &[u8], byte: u8) -> Option<&[u8]>
    ensures some { IfSome result (λ rest. text.now ≡ byte ∷ rest.now) }
    ensures none { IfNone result ((rest : List ℕ) → text.now ≢ byte ∷ rest) }
{
    let (first, rest) = text.split_first()?;
    if *first == byte { Some(rest) } else { None }
}

// The member at the front, and what follows it.
fn front_member(text: &[u8]) -> Option<(Member, &[u8])>
    ensures read { IfSome result (λ p. IsMemberFront text.now p.0 p.1.now) }
    ensures none { IfNone result (HasNoMember text.now) }
{
    let (step, after_step) = front_number(text)?;
    let after_colon = after_byte(after_step, b':')?;
    let (index, rest) = front_number(after_colon)?;
    Some(((step, index), rest))
}

/// Reads the text of a log: `-`, or `step:index` joined by commas.
///
/// It accepts exactly the texts that `write_log` writes. Any other is `LogFault::IllFormed`, E401.
pub fn read_log(alloc: Global, text: &[u8]) -> Result<Log, OrMemory<LogFault>>
    ensures read { IfOk result (λ log. IsLog log × (text.now ≡ log_text log)) }
    ensures ill_formed { IfFault result (λ _. IsNoLogText text.now) }
    ensures accepts { ReadsEach text.now result }
{
    let mut log = Log::new(alloc);
    if text == b"-".as_slice() {
        return Ok(log);
    }
    let mut rest = text;
    loop {
        let Some((member, after_member)) = front_member(rest) else {
            return Err(OrMemory::Fault(LogFault::IllFormed));
        };
        if !log.takes(member) {
            return Err(OrMemory::Fault(LogFault::IllFormed));
        }
        log.push(member.0, member.1)?;
        if after_member.is_empty() {
            return Ok(log);
        }
        let Some(after_comma) = after_byte(after_member, b',') else {
            return Err(OrMemory::Fault(LogFault::IllFormed));
        };
        rest = after_comma;
    }
}

// What follows these bytes at the front.
fn after_prefix<'a>(text: &'a [u8], prefix: &[u8]) -> Option<&'a [u8]>
    ensures some { IfSome result (λ rest. text.now ≡ prefix.now ++ rest.now) }
    ensures none { IfNone result ((rest : List ℕ) → text.now ≢ prefix.now ++ rest) }
{
    text.strip_prefix(prefix)
}

// What the text names before a slash, and what follows it.
fn split_head(text: &[u8]) -> (LogHead, &[u8])
    ensures whole { text.now ≡ head_text result.0 ++ result.1.now }
    ensures named { SplitsNamed text.now result.0 result.1.now }
{
    if let Some(rest) = after_prefix(text, b"process/") {
        return (LogHead::Named(Grain::Process, Departures::Taking), rest);
    }
    if let Some(rest) = after_prefix(text, b"statement/") {
        return (LogHead::Named(Grain::Statement, Departures::Taking), rest);
    }
    if let Some(rest) = after_prefix(text, b"process-holding/") {
        return (LogHead::Named(Grain::Process, Departures::Holding), rest);
    }
    if let Some(rest) = after_prefix(text, b"statement-holding/") {
        return (LogHead::Named(Grain::Statement, Departures::Holding), rest);
    }
    (LogHead::Plain, text)
}

/// Reads the text of a log that may name its grain, and departures that hold back: `LOG`,
/// `process/LOG`, `statement/LOG`, `process-holding/LOG` or `statement-holding/LOG`.
///
/// It accepts exactly the texts that `write_named_log` writes. Any other is
/// `LogFault::IllFormed`, E401.
pub fn read_named_log(alloc: Global, text: &[u8]) -> Result<(LogHead, Log), OrMemory<LogFault>>
    ensures read { IfOk result (IsNamedLogText text.now) }
    ensures ill_formed { IfFault result (λ _. IsNoNamedLogText text.now) }
    ensures accepts { ReadsEachNamed text.now result }
{
    let (head, rest) = split_head(text);
    let log = read_log(alloc, rest)?;
    Ok((head, log))
}

// Puts the text of the member last.
fn append_member(text: &mut Vec<u8>, member: Member) -> Result<(), NoMemory>
    ensures { OnOk result (text.new.items ≡ text.old.items ++ member_text member) }
{
    let mut buffer = Buffer::new();
    text.extend_from_slice(buffer.format(member.0).as_bytes())?;
    text.push(b':')?;
    text.extend_from_slice(buffer.format(member.1).as_bytes())?;
    Ok(())
}

// Puts the members last, each behind a comma.
fn append_more(text: &mut Vec<u8>, more: &[Member]) -> Result<(), NoMemory>
    ensures { OnOk result (text.new.items ≡ text.old.items ++ more_text more.now) }
{
    for member in more {
        text.push(b',')?;
        append_member(text, *member)?;
    }
    Ok(())
}

/// Puts the text of the log last. The error is want of memory, E901.
pub fn append_log(text: &mut Vec<u8>, log: &Log) -> Result<(), NoMemory>
    ensures { OnOk result (text.new.items ≡ text.old.items ++ log_text log.now) }
{
    let Some((first, more)) = log.members().split_first() else {
        text.push(b'-')?;
        return Ok(());
    };
    append_member(text, *first)?;
    append_more(text, more)
}

/// The text of the log: `-`, or `step:index` joined by commas. The error is want of memory, E901.
pub fn write_log(alloc: Global, log: &Log) -> Result<Vec<u8>, NoMemory>
    ensures { IfOk result (λ text. text.items ≡ log_text log.now) }
{
    let mut text = Vec::new(alloc);
    append_log(&mut text, log)?;
    Ok(text)
}

// What a log's text begins with.
fn bytes_of_head(head: LogHead) -> &'static [u8]
    ensures { result.now ≡ head_text head }
{
    match head {
        LogHead::Plain => b"",
        LogHead::Named(Grain::Process, Departures::Taking) => b"process/",
        LogHead::Named(Grain::Statement, Departures::Taking) => b"statement/",
        LogHead::Named(Grain::Process, Departures::Holding) => b"process-holding/",
        LogHead::Named(Grain::Statement, Departures::Holding) => b"statement-holding/",
    }
}

/// The text of the log after the name of its grain and departures, if it has one. The error is want
/// of memory, E901.
pub fn write_named_log(alloc: Global, head: LogHead, log: &Log) -> Result<Vec<u8>, NoMemory>
    ensures { IfOk result (λ text. text.items ≡ named_log_text head log.now) }
{
    let mut text = Vec::new(alloc);
    text.extend_from_slice(bytes_of_head(head))?;
    append_log(&mut text, log)?;
    Ok(text)
}
