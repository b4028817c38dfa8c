// Which pairs were compared at all.

ghost use Rattle.std.specs.Prelude.{◌≡◌, false, length, replicate, slice_get, IfOk};
ghost use Rattle.dump_match.specs.Known.{AreMarked, has_column, has_value_in};

use crate::comparison::Pair;
use basis::NoMemory;
use std::alloc::Global;
use std::io::Read;
use vcd_slots::DumpSlots;

// Whether the pair of this number has a value in its column.
fn has_column<R: Read + Drop>(slots: &DumpSlots<R>, pairs: &[Pair], number: usize) -> bool
    ensures { result ≡ has_column slots.now.columns.told.items (slice_get pairs.now number) }
{
    match pairs.get(number) {
        None => false,
        Some(pair) => slots.value(pair.column).is_some(),
    }
}

/// No pair is marked.
pub(crate) fn none_known(alloc: Global, pairs: &[Pair]) -> Result<Vec<bool>, NoMemory>
    ensures { IfOk result (λ known. known.items ≡ replicate (length pairs.now) false) }
{
    let mut known = Vec::new(alloc);
    known.resize(pairs.len(), false)?;
    Ok(known)
}

/// Marks the pairs that have a value in what is shown.
pub(crate) fn mark_known<R: Read + Drop>(
    slots: &DumpSlots<R>,
    pairs: &[Pair],
    known: &mut Vec<bool>,
)
    ensures same { length known.new.items ≡ length known.old.items }
    ensures marked { AreMarked known.old.items known.new.items (has_value_in pairs.now slots.now) }
{
    if slots.time().is_none() {
        return;
    }
    for number in 0..known.len() {
        if has_column(slots, pairs, number) {
            known[number] = true;
        }
    }
}
