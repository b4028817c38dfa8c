// Why a dump isn't read.

use thiserror::Error;

/// What a text has that a dump, or one that can be compared, hasn't.
#[derive(Clone, Copy, Debug, PartialEq, Eq)]
pub enum VcdFlaw {
    /// It ends inside of a declaration, a command or a block, or before `$enddefinitions`.
    Ends,
    /// A word where another one must stand: it begins no declaration and no command, or a command has no `$end` there.
    Word,
    /// The size of a variable, or a time, is no decimal number of 64 bits.
    Number,
    /// `$timescale` has no number 1, 10 or 100 and no unit, or it stands a second time (18.2.3.5).
    Timescale,
    /// `$upscope` where no scope is open.
    Scope,
    /// A vector has a digit that is none.
    Digit,
    /// A value of a code that no variable has.
    Code,
    /// A time, a comment or a block inside of a block, or the end of none.
    Block,
    /// A word, or scopes, or variables beyond the limits.
    Limit,
    /// A value has no digit, or more than its variable has bits.
    Width,
    /// A time that is lower than the one before it.
    Falls,
    /// A time that is no whole number of another unit, or too great in it.
    Unit,
}

/// Why a dump isn't read; beside it there is want of memory, `NoMemory`.
#[derive(Clone, Copy, Debug, PartialEq, Eq, Error)]
pub enum VcdFault {
    /// E505: in this line, from 1, the text stops being a dump, or one that can be compared.
    #[error("no value change dump")]
    NoDump { line: u64, flaw: VcdFlaw },
    /// E904: the dump has 2^64 bytes or more.
    #[error("the dump is too long")]
    TooLong,
    /// E903: the reader failed.
    #[error("the dump can't be read")]
    Read,
}
