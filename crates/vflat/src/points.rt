// Where the processes of a flat state stand (IEEE 1364-2005, clause 9).

ghost use Rattle.std.specs.Prelude.{◌≡◌, slice_set, IfOk};
ghost use Rattle.std.specs.Cmp.Lexicographic.{pointwise};
ghost use Rattle.vcode.specs.Points.{is_same_point};
ghost use Rattle.vflat.specs.Flat as spec;
ghost use Rattle.vflat.specs.FlatSame as same;

use basis::NoMemory;
use std::alloc::Global;
use std::marker::Model;
use vcode::point::Point;
use vkernel::sums::{share, with_share};

/// Where each process stands, by its number. The sum of their shares is kept as they go on, so that a hash needn't read them all.
#[derive(Drop)]
pub(crate) struct Points {
    points: Vec<Point>,
    sum: u64,
}

impl Model for Points {
    ghost use Rattle.std.specs.Prelude.{◌≡◌, List};
    ghost use Rattle.vcode.specs.declared.point.Point.{Point as point};
    ghost use Rattle.vflat.specs.FlatSame.{points_sum};

    ghost Value = { List point };

    ghost view = { λ p. p.points.items };

    ghost invariant = { λ p. p.sum ≡ points_sum p.points.items };
}

// Whether both stand at the same, point by point.
fn same_points(points: &[Point], others: &[Point]) -> bool
    ensures { result ≡ pointwise is_same_point points.now others.now }
{
    if points.len() != others.len() {
        return false;
    }
    let mut n = 0;
    while n < points.len() {
        if !points[n].is_same(others[n]) {
            return false;
        }
        n += 1;
    }
    true
}

fn point_word(point: Point) -> u64
    ensures { result ≡ same.point_word point }
{
    match point {
        Point::Ended => 0,
        Point::Executing(place) => place as u64 + 1,
        Point::Repeating(place) => place as u64 + 1,
        Point::Writing(place) => place as u64 + 1,
        Point::Waiting(place) => place as u64 + 4_294_967_296,
    }
}

fn point_share(process: u64, point: Point) -> u64
    ensures { result ≡ same.point_share process point }
{
    share(process, point_word(point), 0)
}

#[tactic(auto, using(crate::proofs::ShareLemmas::points_next, crate::proofs::ShareLemmas::points_open))]
fn sum_of(points: &[Point]) -> u64
    ensures { result ≡ same.points_sum points.now }
{
    let mut sum = 0u64;
    let mut process = 0u64;
    for point in points {
        sum = sum.wrapping_add(point_share(process, *point));
        process += 1;
    }
    sum
}

impl Points {
    /// The processes stand at these points. The error is want of memory, E901.
    pub(crate) fn from_slice(alloc: Global, points: &[Point]) -> Result<Points, NoMemory>
        ensures { IfOk result (λ made. made ≡ points.now) }
    {
        Ok(Points {
            points: Vec::from_slice(alloc, points)?,
            sum: sum_of(points),
        })
    }

    /// One that is the same. The error is want of memory, E901.
    pub(crate) fn copy(&self, alloc: Global) -> Result<Points, NoMemory>
        ensures { IfOk result (λ made. made ≡ self.now) }
    {
        Ok(Points {
            points: Vec::from_slice(alloc, &self.points)?,
            sum: self.sum,
        })
    }

    /// The sum of their shares.
    pub(crate) fn sum(&self) -> u64
        ensures { result ≡ same.points_sum self.now }
    {
        self.sum
    }

    /// Whether the processes stand where those do.
    #[tactic(auto, using(crate::proofs::ShareLemmas::points_apart))]
    pub(crate) fn is_same(&self, other: &Points) -> bool
        ensures { result ≡ pointwise is_same_point self.now other.now }
    {
        if self.sum != other.sum {
            return false;
        }
        same_points(&self.points, &other.points)
    }

    /// Where a process stands.
    pub(crate) fn at(&self, process: usize) -> Point
        ensures { result ≡ spec.point_in self.now process }
    {
        match self.points.get(process) {
            Some(point) => *point,
            None => Point::Ended,
        }
    }

    /// From here on a process stands there, if it is there.
    pub(crate) fn set(&mut self, process: usize, point: Point)
        ensures { self.new ≡ slice_set self.old process point }
    {
        if process >= self.points.len() {
            return;
        }
        let old = self.points[process];
        self.points[process] = point;
        let number = process as u64;
        self.sum = with_share(
            self.sum,
            point_share(number, old),
            point_share(number, point),
        );
    }
}
