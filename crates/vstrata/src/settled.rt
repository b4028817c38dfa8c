// Whether a slot has ended (IEEE 1364-2005, 11.4).

/// What the region moves come to.
#[derive(Drop)]
pub enum Settled {
    /// Something is active.
    Active,
    /// Nothing is left at the current time: the slot has ended, and these monitor events run, in order of creation.
    SlotEnd(Vec<usize>),
}
