// Why a text isn't the dump of another simulator, in words.

use vcd_read::VcdFlaw;

/// What is wrong at the line at which a text stops being a dump.
pub(crate) fn flaw_words(flaw: VcdFlaw) -> &'static str {
    match flaw {
        VcdFlaw::Ends => "the text ends before the dump does",
        VcdFlaw::Word => "no declaration, command or change reads so",
        VcdFlaw::Number => "a size or a time is a decimal number of at most 64 bits",
        VcdFlaw::Timescale => "one $timescale gives one unit, as 1 ns or 100 ps",
        VcdFlaw::Scope => "no scope is open that could end here",
        VcdFlaw::Digit => "the digits of a value are 0, 1, x and z",
        VcdFlaw::Code => "no $var declares this identifier code",
        VcdFlaw::Block => "a block stands inside no other one, and ends once",
        VcdFlaw::Limit => "this is longer or deeper than what is read (docs/FORMATS.md)",
        VcdFlaw::Width => "a vector has as many digits as bits, or fewer",
        VcdFlaw::Falls => "the time before is later",
        VcdFlaw::Unit => "this time is no whole number of the files' time precision",
    }
}
