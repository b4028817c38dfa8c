// Why a text wasn't taken to its end.

use thiserror::Error;

/// Why a text wasn't written to its end, but for want of memory.
#[derive(Clone, Copy, Debug, PartialEq, Eq, Error)]
pub enum WriteFault {
    /// E902: the writer failed.
    #[error("the writer failed")]
    Write,
}

/// There are 2^64 bytes or more.
#[derive(Clone, Copy, Debug, PartialEq, Eq, Error)]
#[error("there are 2^64 bytes or more")]
pub struct TooMany;

/// A text has no room where it is held: it is too long, or memory for it was refused.
#[derive(Clone, Copy, Debug, PartialEq, Eq, Error)]
#[error("the text has no room where it is held")]
pub struct Full;

/// A fault that never comes.
#[derive(Drop)]
pub enum Never {}
