// The words that stand for versions, grains, departures, what is looked at, causes and outcomes.

ghost use Rattle.std.specs.Prelude.{◌≡◌, ◌≢◌, IfSome, IfNone};
ghost use Rattle.report_text.specs.declared.report.Outcome as outcomes;
ghost use Rattle.sched_core.specs.declared.end.Cause as causes;
ghost use Rattle.sched_core.specs.declared.setting.Departures as ways;
ghost use Rattle.sched_core.specs.declared.setting.Grain as grains;
ghost use Rattle.sched_core.specs.declared.setting.Looked as looks;
ghost use Rattle.report_text.specs.ReportText as text;

use crate::report::{Outcome, Version};
use sched_core::end::Cause;
use sched_core::setting::{Departures, Grain, Looked};

/// The number of the version.
pub fn version_number(version: Version) -> u64
    ensures { result ≡ text.version_number version }
{
    match version {
        Version::One => 1,
        Version::Two => 2,
        Version::Three => 3,
    }
}

/// The word of the grain.
pub fn grain_word(grain: Grain) -> &'static [u8]
    ensures { result.now ≡ text.grain_word grain }
{
    match grain {
        Grain::Process => b"process",
        Grain::Statement => b"statement",
    }
}

/// The word of the departures.
pub fn departures_word(departures: Departures) -> &'static [u8]
    ensures { result.now ≡ text.departures_word departures }
{
    match departures {
        Departures::Taking => b"taking",
        Departures::Holding => b"holding",
    }
}

/// The word of what is looked at.
pub fn looked_word(looked: Looked) -> &'static [u8]
    ensures { result.now ≡ text.looked_word looked }
{
    match looked {
        Looked::Values => b"values",
        Looked::Lines => b"lines",
    }
}

/// The word of the cause.
pub fn cause_word(cause: Cause) -> &'static [u8]
    ensures { result.now ≡ text.cause_word cause }
{
    match cause {
        Cause::Finish => b"finish",
        Cause::Stop => b"stop",
        Cause::Quiet => b"quiet",
        Cause::Limit => b"limit",
    }
}

/// The words of the outcome.
pub fn outcome_words(outcome: Outcome) -> &'static [u8]
    ensures { result.now ≡ text.outcome_words outcome }
{
    match outcome {
        Outcome::Exhausted => b"exhausted",
        Outcome::CutMemory => b"cut memory",
        Outcome::CutEntries => b"cut entries",
        Outcome::CutSteps => b"cut steps",
        Outcome::CutTime => b"cut time",
    }
}

/// The grain that the word stands for.
pub fn grain_of(word: &[u8]) -> Option<Grain>
    ensures read { IfSome result (λ x. word.now ≡ text.grain_word x) }
    ensures none { IfNone result ((x : grains.Grain) → word.now ≢ text.grain_word x) }
{
    if word == b"process".as_slice() {
        return Some(Grain::Process);
    }
    if word == b"statement".as_slice() {
        return Some(Grain::Statement);
    }
    None
}

/// The departures that the word stands for.
pub fn departures_of(word: &[u8]) -> Option<Departures>
    ensures read { IfSome result (λ x. word.now ≡ text.departures_word x) }
    ensures none { IfNone result ((x : ways.Departures) → word.now ≢ text.departures_word x) }
{
    if word == b"taking".as_slice() {
        return Some(Departures::Taking);
    }
    if word == b"holding".as_slice() {
        return Some(Departures::Holding);
    }
    None
}

/// What is looked at, by its word.
pub fn looked_of(word: &[u8]) -> Option<Looked>
    ensures read { IfSome result (λ x. word.now ≡ text.looked_word x) }
    ensures none { IfNone result ((x : looks.Looked) → word.now ≢ text.looked_word x) }
{
    if word == b"values".as_slice() {
        return Some(Looked::Values);
    }
    if word == b"lines".as_slice() {
        return Some(Looked::Lines);
    }
    None
}

/// The cause that the word stands for.
pub fn cause_of(word: &[u8]) -> Option<Cause>
    ensures read { IfSome result (λ x. word.now ≡ text.cause_word x) }
    ensures none { IfNone result ((x : causes.Cause) → word.now ≢ text.cause_word x) }
{
    if word == b"finish".as_slice() {
        return Some(Cause::Finish);
    }
    if word == b"stop".as_slice() {
        return Some(Cause::Stop);
    }
    if word == b"quiet".as_slice() {
        return Some(Cause::Quiet);
    }
    if word == b"limit".as_slice() {
        return Some(Cause::Limit);
    }
    None
}

/// The outcome that the word stands for.
pub fn outcome_of(word: &[u8]) -> Option<Outcome>
    ensures read { IfSome result (λ x. word.now ≡ text.outcome_words x) }
    ensures none { IfNone result ((x : outcomes.Outcome) → word.now ≢ text.outcome_words x) }
{
    if word == b"exhausted".as_slice() {
        return Some(Outcome::Exhausted);
    }
    if word == b"cut memory".as_slice() {
        return Some(Outcome::CutMemory);
    }
    if word == b"cut entries".as_slice() {
        return Some(Outcome::CutEntries);
    }
    if word == b"cut steps".as_slice() {
        return Some(Outcome::CutSteps);
    }
    if word == b"cut time".as_slice() {
        return Some(Outcome::CutTime);
    }
    None
}
