// Words that begin a statement, by its kind (IEEE 1364-2005, 9.5, 17 and 18).

ghost use Rattle.std.specs.Prelude.{◌≡◌};
ghost use Rattle.vast.specs.Statements.{print_word as print_text, file_word as file_text, idle_word as idle_text, dump_word as dump_text, end_word as end_text, case_word as case_text};

use crate::statement::{Base, Dumping, Idle, Printing};
use vwords::cases::CaseKind;

/// The word of a task that prints.
pub fn print_word(kind: Printing) -> &'static [u8]
    ensures { result.now ≡ print_text kind }
{
    match kind {
        Printing::Display(Base::Decimal) => b"$display",
        Printing::Display(Base::Binary) => b"$displayb",
        Printing::Display(Base::Octal) => b"$displayo",
        Printing::Display(Base::Hexadecimal) => b"$displayh",
        Printing::Write(Base::Decimal) => b"$write",
        Printing::Write(Base::Binary) => b"$writeb",
        Printing::Write(Base::Octal) => b"$writeo",
        Printing::Write(Base::Hexadecimal) => b"$writeh",
        Printing::Strobe(Base::Decimal) => b"$strobe",
        Printing::Strobe(Base::Binary) => b"$strobeb",
        Printing::Strobe(Base::Octal) => b"$strobeo",
        Printing::Strobe(Base::Hexadecimal) => b"$strobeh",
        Printing::Monitor(Base::Decimal) => b"$monitor",
        Printing::Monitor(Base::Binary) => b"$monitorb",
        Printing::Monitor(Base::Octal) => b"$monitoro",
        Printing::Monitor(Base::Hexadecimal) => b"$monitorh",
    }
}

// The word of a task that prints to a file.
fn file_word(kind: Printing) -> &'static [u8]
    ensures { result.now ≡ file_text kind }
{
    match kind {
        Printing::Display(Base::Decimal) => b"$fdisplay",
        Printing::Display(Base::Binary) => b"$fdisplayb",
        Printing::Display(Base::Octal) => b"$fdisplayo",
        Printing::Display(Base::Hexadecimal) => b"$fdisplayh",
        Printing::Write(Base::Decimal) => b"$fwrite",
        Printing::Write(Base::Binary) => b"$fwriteb",
        Printing::Write(Base::Octal) => b"$fwriteo",
        Printing::Write(Base::Hexadecimal) => b"$fwriteh",
        Printing::Strobe(Base::Decimal) => b"$fstrobe",
        Printing::Strobe(Base::Binary) => b"$fstrobeb",
        Printing::Strobe(Base::Octal) => b"$fstrobeo",
        Printing::Strobe(Base::Hexadecimal) => b"$fstrobeh",
        Printing::Monitor(Base::Decimal) => b"$fmonitor",
        Printing::Monitor(Base::Binary) => b"$fmonitorb",
        Printing::Monitor(Base::Octal) => b"$fmonitoro",
        Printing::Monitor(Base::Hexadecimal) => b"$fmonitorh",
    }
}

/// The word of a task that has no effect.
pub fn idle_word(kind: Idle) -> &'static [u8]
    ensures { result.now ≡ idle_text kind }
{
    match kind {
        Idle::Open => b"$fopen",
        Idle::Close => b"$fclose",
        Idle::Flush => b"$fflush",
        Idle::File(printing) => file_word(printing),
        Idle::TimeFormat => b"$timeformat",
        Idle::PrintTimescale => b"$printtimescale",
    }
}

/// The word of a task that changes the dump.
pub fn dump_word(kind: Dumping) -> &'static [u8]
    ensures { result.now ≡ dump_text kind }
{
    match kind {
        Dumping::On => b"$dumpon",
        Dumping::Off => b"$dumpoff",
        Dumping::All => b"$dumpall",
        Dumping::Flush => b"$dumpflush",
    }
}

/// The word of a task that ends the run.
pub fn end_word(stops: bool) -> &'static [u8]
    ensures { result.now ≡ end_text stops }
{
    if stops { b"$stop" } else { b"$finish" }
}

/// The word that a case begins with.
pub fn case_word(kind: CaseKind) -> &'static [u8]
    ensures { result.now ≡ case_text kind }
{
    match kind {
        CaseKind::Exact => b"case",
        CaseKind::Z => b"casez",
        CaseKind::X => b"casex",
    }
}
