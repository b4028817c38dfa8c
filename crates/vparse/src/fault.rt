// Why a text has no tree.

use thiserror::Error;
use vsrc::Place;

/// Why there is no tree. The place is that of the first token at which reading stops, or of the text's end.
#[derive(Clone, Copy, Debug, PartialEq, Eq, Error)]
pub enum SyntaxFault {
    /// E201: no tree derives the words.
    #[error("no tree derives the words")]
    NoTree { place: Place },
    /// E202: the word here stands outside the profile.
    #[error("a word outside the profile")]
    Outside { place: Place },
    /// E203: statements and expressions nest deeper than 64.
    #[error("statements and expressions nest deeper than 64")]
    TooDeep { place: Place },
}
