// The rule of a deque's jobs, and what each step on it tells. Only contracts read these types.

ghost use Rattle.std.specs.Prelude.{◌≡◌, [], ◌++◌};
ghost use Rattle.workpool.specs.Inner.Fair.{IsFair, Leaves, hand, one_less, together};

use crossbeam_deque::protocol::{Join, Lesson, Outcome, Protocol, Split};
use std::collections::LinkedList;

// What a thread has put into the deque and taken out of it, and how many parts it has of the right to
// know the whole. No value of it is made.
pub struct Hand {
    pub parts: u64,
    pub put: LinkedList<u64>,
    pub taken: LinkedList<u64>,
}

// Each job is taken as often as it was put.
pub struct Fair;

impl Protocol<u64, Hand> for Fair {
    ghost use Rattle.std.specs.Prelude.{[]};
    ghost use Rattle.workpool.specs.Inner.Fair.{IsFair, hand};

    ghost holds = { IsFair };

    ghost first = { hand 2 [] [] };

    ghost guest = { hand 0 [] [] };
}

// A part is cut off for the thief.
pub struct Cut;

impl Split<Hand> for Cut {
    ghost use Rattle.std.specs.Prelude.{[]};
    ghost use Rattle.workpool.specs.Inner.Fair.{hand, one_less};

    ghost left = { one_less };

    ghost right = { λ v. hand 1 [] [] };
}

// The thief's part comes back.
pub struct Whole;

impl Join<Hand> for Whole {
    ghost use Rattle.std.specs.Prelude.{[]};
    ghost use Rattle.workpool.specs.Inner.Fair.{hand, together};

    ghost both = { together };

    ghost spent = { hand 0 [] [] };
}

// A job was put.
pub struct Puts;

impl Outcome<u64, Hand> for Puts {
    ghost then = { λ v xs w. w ≡ hand v.parts (v.put ++ xs) v.taken };
}

// A job was taken.
pub struct Takes;

impl Outcome<u64, Hand> for Takes {
    ghost then = { λ v xs w. w ≡ hand v.parts v.put (v.taken ++ xs) };
}

// What is left.
pub struct Rest;

impl Lesson<u64, Hand> for Rest {
    ghost fact = { Leaves };
}
