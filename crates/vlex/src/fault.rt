// What a text is refused for, as it is cut into tokens.

use thiserror::Error;
use vsrc::Place;

/// Why a text has no tokens. The place is that of the first byte at which no token stands.
#[derive(Clone, Copy, Debug, PartialEq, Eq, Error)]
pub enum LexFault {
    /// E101: the comment or string that begins here isn't ended.
    #[error("a comment or a string isn't ended")]
    NotEnded { place: Place },
    /// E102: a bad character, number or escape.
    #[error("a bad character, number or escape")]
    BadToken { place: Place },
}
