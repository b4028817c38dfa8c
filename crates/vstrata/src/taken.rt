// What is taken of the current time (IEEE 1364-2005, 11.4).

use vmodel::part::Parts;

/// What a choice of the current time is.
#[derive(Drop)]
pub enum Taken {
    /// The process of this number, which is to make a step.
    Process(u32),
    /// The first activated nonblocking update, which is to be written.
    Update(Parts),
}
