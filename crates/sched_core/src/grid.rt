// The board: a toy space, which takes no memory.

ghost use Rattle.std.specs.Prelude.{◌≡◌};

use crate::ranked::Ranked;
use crate::space::Space;
use basis::NoMemory;

/// A place on a board: `x` to the right, `y` down, from (0, 0).
#[derive(Clone, Copy, PartialEq, Eq, Hash)]
pub struct Square {
    pub x: u32,
    pub y: u32,
}

/// A toy space: moves on a board from (0, 0), right until x is `right` and down until y is `down`.
/// To go right is the first choice where there is room for it. Marks are the squares with x = y, and
/// the one in the far corner. No call takes memory.
#[derive(Clone, Copy)]
pub struct Grid {
    pub right: u32,
    pub down: u32,
}

impl Grid {
    /// The board of moves to at most (right, down).
    pub fn new(right: u32, down: u32) -> Grid
        ensures right { result.right ≡ right }
        ensures down { result.down ≡ down }
    {
        Grid { right, down }
    }
}

impl Space for Grid {
    ghost use Rattle.sched_core.specs.Toys.Grids.{grid_rules, grid_width, grid_after};
    ghost use Rattle.std.specs.Prelude.{◌<◌, IsOk, IfOk};
    ghost use Rattle.std.proofs.Common.{rules as std_rules};
    ghost use Rattle.sched_core.specs.Toys.GridLaws.{grid_is_lawful};

    type State = Square;

    ghost rules = { λ g. grid_rules g.right g.down };

    fn root(&self) -> Result<Square, NoMemory>
        ensures succeeds { IsOk result }
        ensures opening { IfOk result (λ s. s ≡ record { x = 0; y = 0 }) }
    {
        Ok(Square { x: 0, y: 0 })
    }

    fn copy(&self, s: &Square) -> Result<Square, NoMemory>
        ensures succeeds { IsOk result }
        ensures same { IfOk result (λ t. t ≡ s.now) }
    {
        Ok(*s)
    }

    fn width(&self, s: &Square) -> u32 {
        (s.x < self.right) as u32 + (s.y < self.down) as u32
    }

    fn step(&self, s: &mut Square, i: u32) -> Result<(), NoMemory>
        requires { i < grid_width self.now.right self.now.down s.old }
        ensures succeeds { IsOk result }
        ensures after { s.new ≡ grid_after self.now.right s.old i }
    {
        if i == 0 && s.x < self.right {
            s.x += 1;
        } else {
            s.y += 1;
        }
        Ok(())
    }

    fn is_mark(&self, s: &Square) -> bool {
        s.x == s.y || self.width(s) == 0
    }

    ghost same_is_eq = { λ g s t. Prim.search std_rules };

    ghost lawful = { λ g. grid_is_lawful g.right g.down };
}

/// A square's rank is how far down it is.
impl Ranked for Grid {
    ghost use Rattle.sched_core.specs.Toys.GridLaws.{grid_is_ranked};

    ghost ranks = { λ g s. s.y };

    fn rank(&self, s: &Square) -> u64 {
        s.y as u64
    }

    ghost ranked = { λ g. grid_is_ranked g.right g.down };
}
