// What leads on from a place (IEEE 1364-2005, clause 9).

use crate::point::Point;

/// What leads on from a place of a design's table of actions.
#[derive(Clone, Copy)]
pub struct Link {
    /// The point that stands behind the place: where a process comes once it is done with what is there.
    pub next: Point,
    /// The number of the process that comes to the place.
    pub owner: u32,
}
