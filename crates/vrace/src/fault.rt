// Every refusal, with its number and, where one is known, its place in the files.

ghost use Rattle.std.specs.Prelude.{◌≡◌};
ghost use Rattle.vrace.specs.Numbers.{detail_of, number_of, rule_number};
ghost use Rattle.vrace.specs.declared.fault.Fault.TheVariants.{Memory};

use basis::NoMemory;
use std::fmt;
use thiserror::Error;
use velab_expr::Rule;
use vsrc::Place;

/// A place in the files, if one is known. It prints as ` at F:L`, the numbers of the file and of its line from 1, or as
/// nothing.
#[derive(Clone, Copy, Debug, PartialEq, Eq)]
pub struct At(pub Option<Place>);

impl fmt::Display for At {
    ghost use Rattle.std.specs.Prelude.{Some};
    ghost use Rattle.vrace.specs.Places.{place_text};

    ghost output = { λ at. Some (place_text at.0) };

    fn fmt<W: fmt::Write>(&self, f: &mut fmt::Formatter<W>) -> fmt::Result {
        match self.0 {
            None => Ok(()),
            Some(place) => write!(f, " at {}:{}", place.file, place.line),
        }
    }
}

// The number in docs/FAULTS.md of a rule that a text breaks.
fn rule_number(rule: Rule) -> u16
    ensures { result ≡ rule_number rule }
{
    match rule {
        Rule::Top => 301,
        Rule::Doubled => 302,
        Rule::Unknown => 303,
        Rule::Drivers => 304,
        Rule::Ports => 305,
        Rule::Width => 306,
        Rule::Constant => 307,
        Rule::Depth => 308,
        Rule::TooMany => 309,
        Rule::Kind => 310,
    }
}

/// A refusal, by its number in docs/FAULTS.md. It prints as `E`, the number, and the place or the item that it is about.
#[derive(Clone, Copy, Debug, PartialEq, Eq, Error)]
pub enum Fault {
    /// A comment or a string isn't ended.
    NotEnded(At),
    /// A bad character, number or escape.
    BadToken(At),
    /// A directive is ill formed, not first on its line, or without its open conditional.
    Directive(At),
    /// The name after a backtick has no macro.
    NoMacro(At),
    /// Macros or conditionals nest too deep, the text or the number of uses grows too large, or it has too many words.
    TooLarge(At),
    /// A conditional is left open.
    LeftOpen(At),
    /// A second timescale differs from the first.
    Timescales(At),
    /// No tree derives the words.
    NoTree(At),
    /// A word, operator or system name outside the profile.
    Outside(At),
    /// Statements and expressions nest deeper than 64.
    TooDeep(At),
    /// No design is the text's, as this rule is broken.
    NoDesign(Rule, At),
    /// The log is ill formed.
    BadLog,
    /// The run has no such step, or not that choice there.
    NoSuchChoice,
    /// The run takes more steps than allowed.
    TooManySteps,
    /// A number is out of its limit, or the head of a report asks for more than is allowed.
    OutOfLimit,
    /// The report is ill formed.
    BadReport,
    /// An end of the report isn't true: its place among the ends, from 0.
    FalseEnd(usize),
    /// A race of the report isn't true: its place among the races, from 0.
    FalseRace(usize),
    /// The head of the report isn't that of the text.
    FalseHead,
    /// A growth was refused.
    Memory(NoMemory),
    /// The writer failed.
    Write,
    /// The reader failed.
    Read,
    /// The text is longer than 16,777,216 bytes.
    TooLong,
}

/// What is told after a number.
#[derive(Clone, Copy, PartialEq, Eq)]
pub enum Detail {
    /// Nothing.
    Nothing,
    /// A place in the files.
    Place(At),
    /// The place of an item of a report, from 0.
    Item(usize),
}

impl Fault {
    /// Its number in docs/FAULTS.md.
    pub fn number(&self) -> u16
        ensures { result ≡ number_of self.now }
    {
        match self {
            Fault::NotEnded(_) => 101,
            Fault::BadToken(_) => 102,
            Fault::Directive(_) => 110,
            Fault::NoMacro(_) => 111,
            Fault::TooLarge(_) => 112,
            Fault::LeftOpen(_) => 113,
            Fault::Timescales(_) => 114,
            Fault::NoTree(_) => 201,
            Fault::Outside(_) => 202,
            Fault::TooDeep(_) => 203,
            Fault::NoDesign(rule, _) => rule_number(*rule),
            Fault::BadLog => 401,
            Fault::NoSuchChoice => 402,
            Fault::TooManySteps => 403,
            Fault::OutOfLimit => 404,
            Fault::BadReport => 501,
            Fault::FalseEnd(_) => 502,
            Fault::FalseRace(_) => 503,
            Fault::FalseHead => 504,
            Fault::Memory(_) => 901,
            Fault::Write => 902,
            Fault::Read => 903,
            Fault::TooLong => 904,
        }
    }

    /// What is told after the number.
    pub fn detail(&self) -> Detail
        ensures { result ≡ detail_of self.now }
    {
        match self {
            Fault::NotEnded(at) => Detail::Place(*at),
            Fault::BadToken(at) => Detail::Place(*at),
            Fault::Directive(at) => Detail::Place(*at),
            Fault::NoMacro(at) => Detail::Place(*at),
            Fault::TooLarge(at) => Detail::Place(*at),
            Fault::LeftOpen(at) => Detail::Place(*at),
            Fault::Timescales(at) => Detail::Place(*at),
            Fault::NoTree(at) => Detail::Place(*at),
            Fault::Outside(at) => Detail::Place(*at),
            Fault::TooDeep(at) => Detail::Place(*at),
            Fault::NoDesign(_, at) => Detail::Place(*at),
            Fault::FalseEnd(item) => Detail::Item(*item),
            Fault::FalseRace(item) => Detail::Item(*item),
            Fault::BadLog => Detail::Nothing,
            Fault::NoSuchChoice => Detail::Nothing,
            Fault::TooManySteps => Detail::Nothing,
            Fault::OutOfLimit => Detail::Nothing,
            Fault::BadReport => Detail::Nothing,
            Fault::FalseHead => Detail::Nothing,
            Fault::Memory(_) => Detail::Nothing,
            Fault::Write => Detail::Nothing,
            Fault::Read => Detail::Nothing,
            Fault::TooLong => Detail::Nothing,
        }
    }
}

impl fmt::Display for Detail {
    ghost use Rattle.std.specs.Prelude.{Some};
    ghost use Rattle.vrace.specs.Numbers.{detail_text};

    ghost output = { λ detail. Some (detail_text detail) };

    fn fmt<W: fmt::Write>(&self, f: &mut fmt::Formatter<W>) -> fmt::Result {
        match self {
            Detail::Nothing => Ok(()),
            Detail::Place(at) => write!(f, "{at}"),
            Detail::Item(item) => write!(f, " at {item}"),
        }
    }
}

impl fmt::Display for Fault {
    ghost use Rattle.std.specs.Prelude.{Some};
    ghost use Rattle.vrace.specs.Numbers.{fault_text};

    ghost output = { λ fault. Some (fault_text fault) };

    fn fmt<W: fmt::Write>(&self, f: &mut fmt::Formatter<W>) -> fmt::Result {
        write!(f, "E{}{}", self.number(), self.detail())
    }
}

impl From<NoMemory> for Fault {
    ghost from_gives = { λ m e. e ≡ Memory m };

    fn from(refused: NoMemory) -> Fault {
        Fault::Memory(refused)
    }
}
