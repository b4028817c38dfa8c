// What a process has left: frames, each at an action of the design's table (IEEE 1364-2005, clause 9).

ghost use Rattle.std.specs.Prelude.{◌≡◌};
ghost use Rattle.vmodel.specs.Step.{place_of};

/// One thing that a process has left.
#[derive(Clone, Copy)]
pub enum Frame {
    /// The action at this place of the design's table.
    Executing(usize),
    /// The `repeat` at this place, with so many turns left: 1 at least (9.6).
    Repeating(usize, u64),
    /// What the suspended assignment at this place does with the value that its process holds (9.7.7).
    Writing(usize),
}

/// Two are equal where they hold the same.
impl PartialEq for Frame {
    ghost use Rattle.std.specs.Cmp.{partial_equiv_from_equiv};
    ghost use Rattle.vmodel.specs.Same.{frame_same};
    ghost use Rattle.vmodel.specs.SameLaws.{frames_equivalent};

    ghost eq = { frame_same };

    ghost laws = { partial_equiv_from_equiv frames_equivalent };

    fn eq(&self, other: &Frame) -> bool {
        match (self, other) {
            (Frame::Executing(place), Frame::Executing(same)) => place == same,
            (Frame::Repeating(place, turns), Frame::Repeating(same, like)) => {
                place == same && turns == like
            }
            (Frame::Writing(place), Frame::Writing(same)) => place == same,
            _ => false,
        }
    }
}

impl Eq for Frame {
    ghost use Rattle.vmodel.specs.SameLaws.{frames_equivalent};

    ghost laws = { frames_equivalent };
}

impl Frame {
    /// The place in the design's table of the action that it is at.
    pub fn place(self) -> usize
        ensures { result ≡ place_of self }
    {
        match self {
            Frame::Executing(place) => place,
            Frame::Repeating(place, _) => place,
            Frame::Writing(place) => place,
        }
    }
}
