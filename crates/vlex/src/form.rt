// The forms of pieces, and what stands at the head of a text.

use crate::kind::TokenKind;

/// What the bytes of a piece of the text are.
#[derive(Clone, Copy)]
pub enum Form {
    Blank,
    Comment,
    Token(TokenKind),
}

/// What stands at the head of a text.
#[derive(Clone, Copy)]
pub enum Front {
    /// A piece of so many bytes.
    Piece(Form, usize),
    /// A comment or a string that isn't ended.
    NotEnded,
    /// No piece, and nothing that is open.
    Bad,
}
