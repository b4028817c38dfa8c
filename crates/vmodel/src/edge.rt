// Edges: what a change of a variable is to those that wait for one (IEEE 1364-2005, 9.7.2).

ghost use Rattle.std.specs.Prelude.{◌≡◌};
ghost use Rattle.vmodel.specs.Waking as spec;

use vbits::{Bit4, Vec4};
use vdesign::action::Edge;

// From 0 over x and z to 1 (table 9-2).
fn rank(letter: Bit4) -> u8
    ensures { result ≡ spec.rank letter }
{
    match letter {
        Bit4::Zero => 0,
        Bit4::One => 2,
        Bit4::X => 1,
        Bit4::Z => 1,
    }
}

fn last_bit(value: Vec4) -> Bit4
    ensures { result ≡ spec.last_bit value }
{
    value.bit(0)
}

/// Whether an edge stands between two values of a variable (9.7.2).
pub fn is_edge(edge: Edge, old: Vec4, new: Vec4) -> bool
    ensures { result ≡ spec.is_edge edge old new }
{
    match edge {
        Edge::Any => old != new,
        Edge::Rise => rank(last_bit(old)) < rank(last_bit(new)),
        Edge::Fall => rank(last_bit(new)) < rank(last_bit(old)),
    }
}
