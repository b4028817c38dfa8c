// The kinds of tokens.

/// The kinds of tokens, IEEE 1364-2005, clause 3. A reserved word is a `Name` here.
#[derive(Clone, Copy, PartialEq, Eq)]
pub enum TokenKind {
    /// A letter or `_`, then letters, digits, `_` and `$` (3.7).
    Name,
    /// `$`, then at least one letter, digit, `_` or `$` (3.7.3).
    System,
    /// A decimal number without size and base: digits and `_` (3.5.1).
    Plain,
    /// A number with a base, as `8'shFf` (3.5.1).
    Based,
    /// A string on one line, with its quotes (3.6).
    Text,
    /// An operator or a mark of punctuation (3.4).
    Symbol,
}
