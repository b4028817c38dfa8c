// A push that is refused only for want of memory.

ghost use Rattle.std.specs.Prelude.{◌≡◌, ℕ, IfOk, IfErr};
ghost use Rattle.boxcar.specs.Table.{Shows};

use basis::NoMemory;
use boxcar::{Keeps, Pushed};
use std::alloc::Global;
use std::sync::Wait;

// For how many pushes room is asked where one was refused: for more than threads can push at once.
const AHEAD: usize = 1 << 12;

// Pushes the value. It is handed back only where the vector can't grow.
pub(crate) fn push<T: Drop, P: Keeps<T>, R: Wait>(
    rt: &R,
    vec: &boxcar::Vec<T, Global, P>,
    value: T,
) -> Result<Pushed<T, Global, P>, (NoMemory, T)>
    requires { (i : ℕ) → P.holds vec.now.tag i value }
    ensures shown { IfOk result (λ pushed. Shows vec.now pushed) }
    ensures value { IfOk result (λ pushed. pushed.value ≡ value) }
    ensures handed_back { IfErr result (λ refused. refused.1 ≡ value) }
{
    let mut unpushed = value;
    for _ in rt.forever() {
        match vec.push_shown(rt, unpushed) {
            Ok(pushed) => return Ok(pushed),
            Err(back) => unpushed = back,
        }
        if let Err(refused) = vec.reserve(AHEAD) {
            return Err((NoMemory::from(refused), unpushed));
        }
    }
    unreachable!()
}

// The growth that is always refused: one past all memory.
pub(crate) fn refused_growth(alloc: Global) -> NoMemory {
    let mut bytes: Vec<u8> = Vec::new(alloc);
    match bytes.reserve(usize::MAX) {
        Ok(()) => unreachable!(),
        Err(refused) => NoMemory::from(refused),
    }
}
