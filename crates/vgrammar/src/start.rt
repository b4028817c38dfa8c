// What the first word of a statement begins.

ghost use Rattle.std.specs.Prelude.{◌≡◌};
ghost use Rattle.std.specs.Str.{bytes_eq};
ghost use Rattle.vast.specs.Statements.{dump_word as dump_text};
ghost use Rattle.vexpr_parse.specs.Words.{by_spelling};
ghost use Rattle.vgrammar.specs.Starts.{guard_word as guard_text, start_word as start_text, start_of as start_of_text, begins_target as begins_target_text};

use vast::keywords::{case_word, idle_word, print_word};
use vast::statement::{Base, Dumping, Idle, Printing};
use vwords::cases::CaseKind;
use vwords::words::is_name;

/// What the first word of a statement begins, unless it begins what an assignment writes to (IEEE 1364-2005, A.6.4).
#[derive(Clone, Copy, PartialEq, Eq)]
pub enum StatementStart {
    /// `;`
    Empty,
    /// `begin`
    Begin,
    /// `->`
    Trigger,
    /// `if`
    If,
    /// `case`, `casez` or `casex`
    Case(CaseKind),
    /// A statement after an expression in parentheses.
    Guarded(Guard),
    /// `forever`
    Forever,
    /// `for`
    For,
    /// `#`
    Delay,
    /// `@`
    Event,
    /// `$display`, and the like
    Print(Printing),
    /// `$fdisplay`, and the like
    Idle(Idle),
    /// `$dumpfile`
    DumpFile,
    /// `$dumpvars`
    DumpVars,
    /// `$dumpon`, and the like
    Dump(Dumping),
    /// `$stop`, or `$finish`
    End(bool),
}

/// What stands before an expression in parentheses and a statement.
#[derive(Clone, Copy, PartialEq, Eq)]
pub enum Guard {
    /// `while`
    While,
    /// `repeat`
    Repeat,
    /// `wait`
    Wait,
}

static STARTS: [StatementStart; 59] = [
    StatementStart::Empty,
    StatementStart::Begin,
    StatementStart::Trigger,
    StatementStart::If,
    StatementStart::Case(CaseKind::Exact),
    StatementStart::Case(CaseKind::Z),
    StatementStart::Case(CaseKind::X),
    StatementStart::Guarded(Guard::While),
    StatementStart::Guarded(Guard::Repeat),
    StatementStart::Guarded(Guard::Wait),
    StatementStart::Forever,
    StatementStart::For,
    StatementStart::Delay,
    StatementStart::Event,
    StatementStart::Print(Printing::Display(Base::Decimal)),
    StatementStart::Print(Printing::Display(Base::Binary)),
    StatementStart::Print(Printing::Display(Base::Octal)),
    StatementStart::Print(Printing::Display(Base::Hexadecimal)),
    StatementStart::Print(Printing::Write(Base::Decimal)),
    StatementStart::Print(Printing::Write(Base::Binary)),
    StatementStart::Print(Printing::Write(Base::Octal)),
    StatementStart::Print(Printing::Write(Base::Hexadecimal)),
    StatementStart::Print(Printing::Strobe(Base::Decimal)),
    StatementStart::Print(Printing::Strobe(Base::Binary)),
    StatementStart::Print(Printing::Strobe(Base::Octal)),
    StatementStart::Print(Printing::Strobe(Base::Hexadecimal)),
    StatementStart::Print(Printing::Monitor(Base::Decimal)),
    StatementStart::Print(Printing::Monitor(Base::Binary)),
    StatementStart::Print(Printing::Monitor(Base::Octal)),
    StatementStart::Print(Printing::Monitor(Base::Hexadecimal)),
    StatementStart::Idle(Idle::File(Printing::Display(Base::Decimal))),
    StatementStart::Idle(Idle::File(Printing::Display(Base::Binary))),
    StatementStart::Idle(Idle::File(Printing::Display(Base::Octal))),
    StatementStart::Idle(Idle::File(Printing::Display(Base::Hexadecimal))),
    StatementStart::Idle(Idle::File(Printing::Write(Base::Decimal))),
    StatementStart::Idle(Idle::File(Printing::Write(Base::Binary))),
    StatementStart::Idle(Idle::File(Printing::Write(Base::Octal))),
    StatementStart::Idle(Idle::File(Printing::Write(Base::Hexadecimal))),
    StatementStart::Idle(Idle::File(Printing::Strobe(Base::Decimal))),
    StatementStart::Idle(Idle::File(Printing::Strobe(Base::Binary))),
    StatementStart::Idle(Idle::File(Printing::Strobe(Base::Octal))),
    StatementStart::Idle(Idle::File(Printing::Strobe(Base::Hexadecimal))),
    StatementStart::Idle(Idle::File(Printing::Monitor(Base::Decimal))),
    StatementStart::Idle(Idle::File(Printing::Monitor(Base::Binary))),
    StatementStart::Idle(Idle::File(Printing::Monitor(Base::Octal))),
    StatementStart::Idle(Idle::File(Printing::Monitor(Base::Hexadecimal))),
    StatementStart::Idle(Idle::Open),
    StatementStart::Idle(Idle::Close),
    StatementStart::Idle(Idle::Flush),
    StatementStart::Idle(Idle::TimeFormat),
    StatementStart::Idle(Idle::PrintTimescale),
    StatementStart::DumpFile,
    StatementStart::DumpVars,
    StatementStart::Dump(Dumping::On),
    StatementStart::Dump(Dumping::Off),
    StatementStart::Dump(Dumping::All),
    StatementStart::Dump(Dumping::Flush),
    StatementStart::End(true),
    StatementStart::End(false),
];

fn guard_word(kind: Guard) -> &'static [u8]
    ensures { result.now ≡ guard_text kind }
{
    match kind {
        Guard::While => b"while",
        Guard::Repeat => b"repeat",
        Guard::Wait => b"wait",
    }
}

fn dump_word(kind: Dumping) -> &'static [u8]
    ensures { result.now ≡ dump_text kind }
{
    match kind {
        Dumping::On => b"$dumpon",
        Dumping::Off => b"$dumpoff",
        Dumping::All => b"$dumpall",
        Dumping::Flush => b"$dumpflush",
    }
}

fn start_word(start: StatementStart) -> &'static [u8]
    ensures { result.now ≡ start_text start }
{
    match start {
        StatementStart::Empty => b";",
        StatementStart::Begin => b"begin",
        StatementStart::Trigger => b"->",
        StatementStart::If => b"if",
        StatementStart::Case(kind) => case_word(kind),
        StatementStart::Guarded(kind) => guard_word(kind),
        StatementStart::Forever => b"forever",
        StatementStart::For => b"for",
        StatementStart::Delay => b"#",
        StatementStart::Event => b"@",
        StatementStart::Print(kind) => print_word(kind),
        StatementStart::Idle(kind) => idle_word(kind),
        StatementStart::DumpFile => b"$dumpfile",
        StatementStart::DumpVars => b"$dumpvars",
        StatementStart::Dump(kind) => dump_word(kind),
        StatementStart::End(true) => b"$stop",
        StatementStart::End(false) => b"$finish",
    }
}

// Whether a word is this one.
fn is(word: &[u8], text: &[u8]) -> bool
    ensures { result ≡ bytes_eq text.now word.now }
{
    text == word
}

fn start_among(word: &[u8], starts: &[StatementStart]) -> Option<StatementStart>
    ensures { result ≡ by_spelling start_text starts.now word.now }
{
    for start in starts {
        if is(word, start_word(*start)) {
            return Some(*start);
        }
    }
    None
}

/// What a statement's first word begins, unless it begins what an assignment writes to (A.6.4).
pub fn start_of(word: &[u8]) -> Option<StatementStart>
    ensures { result ≡ start_of_text word.now }
{
    start_among(word, &STARTS)
}

/// Whether a word begins what an assignment writes to (A.8.5).
pub fn begins_target(word: &[u8]) -> bool
    ensures { result ≡ begins_target_text word.now }
{
    is_name(word) || is(word, b"{")
}
