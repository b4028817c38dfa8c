// A dump's times in another unit (18.2.3.5).

ghost use Rattle.std.specs.Prelude.{◌≡◌, ◌*◌, ◌%◌, ◌<◌, IfSome};
ghost use Rattle.vcd_read.specs.Telling.{item_of};
ghost use Rattle.vcd_slots.specs.Units.{IsInUnit, IsSameTime, units_of};

use basis::Span;
use vcd_read::VcdItem;

/// A unit in which a dump tells times, and the one in which they are shown, in femtoseconds.
#[derive(Clone, Copy)]
pub(crate) struct Units {
    told: u64,
    shown: u64,
}

// The time in a unit of which so many make one of the unit in which it is told.
fn time_multiplied(time: u64, told: u64, shown: u64) -> Option<u64>
    requires some { 0 < shown }
    requires whole { told % shown ≡ 0 }
    ensures { IfSome result (λ now. time * told ≡ now * shown) }
{
    time.checked_mul(told / shown)
}

// The time in a unit that has so many of the one in which it is told; none where it is no whole number.
fn time_divided(time: u64, told: u64, shown: u64) -> Option<u64>
    requires some { 0 < told }
    requires whole { shown % told ≡ 0 }
    ensures { IfSome result (λ now. time * told ≡ now * shown) }
{
    let parts = shown / told;
    if parts == 0 || time % parts != 0 {
        return None;
    }
    Some(time / parts)
}

impl Units {
    /// The unit in which a dump counts, if it isn't the one in which times are shown, and that one.
    pub(crate) fn of(unit: Option<Span>, shown: Span) -> Units
        ensures { result ≡ units_of unit shown }
    {
        match unit {
            None => Units {
                told: shown.femtoseconds(),
                shown: shown.femtoseconds(),
            },
            Some(told) => Units {
                told: told.femtoseconds(),
                shown: shown.femtoseconds(),
            },
        }
    }

    // The time in the unit that is shown; none where it is no whole number, or has more than 64 bits.
    fn time(self, time: u64) -> Option<u64>
        ensures { IfSome result (λ now. IsSameTime self time now) }
    {
        if self.shown > 0 && self.told % self.shown == 0 {
            time_multiplied(time, self.told, self.shown)
        } else if self.told > 0 && self.shown % self.told == 0 {
            time_divided(time, self.told, self.shown)
        } else {
            None
        }
    }

    /// The item, with its time in the unit that is shown, if that is one.
    pub(crate) fn item(self, item: VcdItem) -> Option<VcdItem>
        ensures { IfSome result (λ now. IsInUnit self (item_of item) (item_of now)) }
    {
        match item {
            VcdItem::Time(time) => Some(VcdItem::Time(self.time(time)?)),
            VcdItem::Value { code, digits } => Some(VcdItem::Value { code, digits }),
            VcdItem::Off => Some(VcdItem::Off),
            VcdItem::On => Some(VcdItem::On),
        }
    }
}
