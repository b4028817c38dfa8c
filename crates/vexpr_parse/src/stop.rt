// Why a reader stops.

/// Why a reader stops, at the word where its cursor is left.
#[derive(Clone, Copy, PartialEq, Eq)]
pub enum Stop {
    /// No rule takes the word here (E201, E202).
    NoTree,
    /// The word here would stand inside more levels than are left (E203).
    TooDeep,
}
