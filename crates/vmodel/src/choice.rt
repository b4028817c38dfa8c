// What may be taken next (IEEE 1364-2005, 11.4.1, 11.4.2).

/// A choice of a state.
#[derive(Clone, Copy, PartialEq, Eq)]
pub enum Choice {
    /// The next step of the process of this number.
    Run(u32),
    /// The first activated nonblocking update.
    Update,
    /// The advance to the next future time.
    Advance,
}
