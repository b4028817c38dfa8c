// What differs in a state.

ghost use Rattle.std.specs.Prelude.{◌≡◌, get_or, option_to_list, slice_get, None, if◌then◌else◌};
ghost use Rattle.dump_match.specs.Comparison.{differing, told_apart};

use crate::comparison::Pair;
use std::io::Read;
use vbits::Vec4;
use vcd_slots::DumpSlots;

/// A variable that differs: its number in the design, what the dump tells of it, and what it is worth in the run.
#[derive(Clone, Copy)]
pub struct Differing {
    pub variable: usize,
    pub told: Vec4,
    pub value: Vec4,
}

/// Whether what the dump tells, if anything, is another value. Signs aren't compared.
pub(crate) fn differs(told: Option<Vec4>, value: Option<Vec4>) -> bool
    ensures { differing told value ≡ (if result then 1 else 0) }
{
    match (told, value) {
        (Some(told), Some(value)) => value.with_sign(false) != told,
        _ => false,
    }
}

/// Whether the pair differs: what the dump tells, and its value.
pub(crate) fn pair_differs<R: Read + Drop>(
    slots: &DumpSlots<R>,
    values: &[Vec4],
    pair: &Pair,
) -> bool
    ensures { differing (get_or slots.now.columns.told.items pair.now.column None) (slice_get values.now pair.now.variable)
        ≡ (if result then 1 else 0) }
{
    differs(slots.value(pair.column), values.get(pair.variable).copied())
}

/// What differs of a pair, if it does.
pub(crate) fn differing_of<R: Read + Drop>(
    slots: &DumpSlots<R>,
    values: &[Vec4],
    pair: &Pair,
) -> Option<Differing>
    ensures { option_to_list result ≡ told_apart pair.now.variable (get_or slots.now.columns.told.items pair.now.column None)
        (slice_get values.now pair.now.variable) }
{
    let told = slots.value(pair.column)?;
    let value = *values.get(pair.variable)?;
    if differs(Some(told), Some(value)) {
        Some(Differing {
            variable: pair.variable,
            told,
            value,
        })
    } else {
        None
    }
}
