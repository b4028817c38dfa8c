// Those who watch a run: what they are handed, as it comes.

ghost use Rattle.std.specs.Prelude.{◌≡◌, ℕ, List, [], ◌∷◌, ◌++◌, Option, None, false, OnOk, IfErr};
ghost use Rattle.vbits.specs.Vectors.{Vector};
ghost use Rattle.vmodel.specs.declared.history.Item.{Item};
ghost use Rattle.vmodel.specs.declared.history.Item.TheVariants.{SlotEnd};
ghost use Rattle.vmodel.specs.Touched.{ChangesOnlySince, HasNoSlotEnd, IsKeptAs};

use crate::history::Item;
use crate::touched::Touched;
use vbits::Vec4;

/// A sink of histories: what takes the items of a run, in order, some at a time.
pub trait HistorySink {
    type Fault: Drop;

    /// What taking these items makes of the sink.
    ghost takes: { Self → List Item → Self → Type 0 };

    /// What this fault makes of the sink, somewhere in taking these items.
    ghost fails: { Self → List Item → Self.Fault → Self → Type 0 };

    /// The values at the end of the last slot that it took, if it keeps them.
    ghost kept: { Self → Option (List Vector) };

    /// Takes the next items of the run, in order.
    fn take(&mut self, items: &[Item]) -> Result<(), Self::Fault>
        ensures ok { OnOk result (takes self.old items.now self.new) }
        ensures err { IfErr result (λ fault. fails self.old items.now fault self.new) };

    /// Takes the end of a slot at this time, with the value of each variable. Since the end of the slot whose values it keeps, if it
    /// keeps some, only these variables may have changed.
    fn take_end(&mut self, time: u64, values: &[Vec4], touched: &Touched) -> Result<(), Self::Fault>
        requires { ChangesOnlySince touched.now (kept self.old) values.now }
        ensures ok { OnOk result (takes self.old (SlotEnd time values.now ∷ []) self.new) }
        ensures err { IfErr result (λ fault.
            fails self.old (SlotEnd time values.now ∷ []) fault self.new) };

    /// Whether the sink may keep values. Where the answer is false it keeps none.
    fn keeps_values(&self) -> bool
        ensures { result ≡ false → kept self.now ≡ None };

    /// Whether it has all that it is to hold: then a run may pause, and go on into another sink.
    fn is_full(&self) -> bool {
        false
    }

    /// To take nothing changes nothing.
    ghost none: { (s : Self) → takes s [] s };

    /// To take items and then more is to take them all.
    ghost joins: { (s t u : Self) (xs ys : List Item) → takes s xs t → takes t ys u → takes s (xs ++ ys) u };

    /// To take items and then to fail at more is to fail at them all.
    ghost fails_later: { (s t u : Self) (xs ys : List Item) (fault : Self.Fault) → takes s xs t → fails t ys fault u → fails s (xs ++ ys) fault u };

    /// To fail at items is to fail at these and any that come after them.
    ghost fails_before: { (s u : Self) (xs ys : List Item) (fault : Self.Fault) → fails s xs fault u → fails s (xs ++ ys) fault u };

    /// What it keeps after the end of a slot are the values there.
    ghost keeps: { (s u : Self) (time : ℕ) (values : List Vector) → takes s (SlotEnd time values ∷ []) u → IsKeptAs values (kept u) };

    /// What it keeps stays until the next end of a slot.
    ghost keeps_on: { (s u : Self) (items : List Item) → HasNoSlotEnd items → takes s items u → kept u ≡ kept s };
}
