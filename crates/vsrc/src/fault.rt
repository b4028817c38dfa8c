// What files are refused for.

use crate::expanded::Place;
use thiserror::Error;

/// Why files give no text. The place is that of the directive, or of the use of a macro in the files.
#[derive(Clone, Copy, Debug, PartialEq, Eq, Error)]
pub enum SrcFault {
    /// E110: a directive is ill formed, not first on its line, or without its open conditional.
    #[error("a directive is ill formed, not first on its line, or without its open conditional")]
    Directive { place: Place },
    /// E111: the name after a backtick has no macro.
    #[error("the name after a backtick has no macro")]
    NoMacro { place: Place },
    /// E112: macros or conditionals nest too deep, or the text or the number of uses grows too large.
    #[error("macros or conditionals nest too deep, or the text or the number of uses grows too large")]
    Growth { place: Place },
    /// E113: the conditional that begins here is left open.
    #[error("a conditional is left open")]
    LeftOpen { place: Place },
    /// E114: a second timescale differs from the first.
    #[error("a second timescale differs from the first")]
    Timescales { place: Place },
}
