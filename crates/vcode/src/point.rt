// Points of code: where a process stands (IEEE 1364-2005, clause 9).

ghost use Rattle.std.specs.Prelude.{◌≡◌};
ghost use Rattle.vcode.specs.Points as spec;

/// Where a process stands. Places are those of the design's table of actions.
#[derive(Clone, Copy)]
pub enum Point {
    /// Nothing is left.
    Ended,
    /// At the action of this place.
    Executing(u32),
    /// At the `repeat` of this place, whose counter says how many turns are left (9.6).
    Repeating(u32),
    /// At the second step of the suspended assignment of this place (9.7.7).
    Writing(u32),
    /// It waits at this place for a change or a named event (9.7.2, 9.7.3).
    Waiting(u32),
}

impl Point {
    /// Whether both are the same.
    pub fn is_same(self, other: Point) -> bool
        ensures { result ≡ spec.is_same_point self other }
    {
        match (self, other) {
            (Point::Ended, Point::Ended) => true,
            (Point::Executing(place), Point::Executing(same)) => place == same,
            (Point::Repeating(place), Point::Repeating(same)) => place == same,
            (Point::Writing(place), Point::Writing(same)) => place == same,
            (Point::Waiting(place), Point::Waiting(same)) => place == same,
            _ => false,
        }
    }

    /// The place at which it is, if something is left.
    pub fn place(self) -> Option<u32>
        ensures { result ≡ spec.place_of_point self }
    {
        match self {
            Point::Ended => None,
            Point::Executing(place) => Some(place),
            Point::Repeating(place) => Some(place),
            Point::Writing(place) => Some(place),
            Point::Waiting(place) => Some(place),
        }
    }
}
