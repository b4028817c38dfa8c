// Races of values and of lines alike.

ghost use Rattle.std.specs.Prelude.{◌≡◌, ◌≢◌, [], IfNone, IfOk, IfSome, Some, length};
ghost use Rattle.race_groups.specs.Found.{logs_of, name_of};
ghost use Rattle.race_groups.specs.Inner.{IsDefault, IsDeparted};
ghost use Rattle.race_groups.specs.declared.group.Difference.TheVariants.{Lines, Values};

use crate::group::{Difference, Name};
use basis::NoMemory;
use racebook::{LineRace, Race, Side, Witness};
use sched_core::Log;
use std::alloc::Global;

/// What runs differ in at the end of a slot.
pub(crate) trait SlotRace {
    ghost use Rattle.race_groups.specs.Found.{logs_of, name_of};
    ghost use Rattle.race_groups.specs.Inner.{IsDefault, IsDeparted};
    ghost use Rattle.race_groups.specs.declared.group.Difference.{Difference};

    ghost difference: { Self → Difference };

    /// Its name.
    fn name(&self) -> Name
        ensures { name_of (difference self.now) ≡ Some result };

    /// How many sides it has.
    fn sides(&self) -> usize
        ensures { result ≡ length (logs_of (difference self.now)) };

    /// The log of a side, where it has departures.
    fn departures_of(&self, side: usize) -> Option<&Log>
        ensures some { IfSome result (λ log. IsDeparted (logs_of (difference self.now)) side log.now) }
        ensures none { IfNone result (IsDefault (logs_of (difference self.now)) side) };

    /// The same, whole.
    fn whole(&self, alloc: Global) -> Result<Difference, NoMemory>
        ensures { IfOk result (λ whole. whole ≡ difference self.now) };
}

// The log, where it has departures.
fn if_departed(log: &Log) -> Option<&Log>
    ensures some { IfSome result (λ departed. (departed.now ≡ log.now) × (log.now ≢ [])) }
    ensures none { IfNone result (log.now ≡ []) }
{
    if log.members().is_empty() {
        None
    } else {
        Some(log)
    }
}

fn copy_witness(witness: &Witness) -> Result<Witness, NoMemory>
    ensures { IfOk result (λ copied. copied ≡ witness.now) }
{
    Ok(Witness {
        value: witness.value,
        log: witness.log.copy()?,
    })
}

fn copy_witnesses(alloc: Global, values: &[Witness]) -> Result<Vec<Witness>, NoMemory>
    ensures { IfOk result (λ copied. copied.items ≡ values.now) }
{
    let mut copied = Vec::new(alloc);
    for witness in values {
        copied.push(copy_witness(witness)?)?;
    }
    Ok(copied)
}

impl SlotRace for Race {
    ghost difference = { Values };

    fn name(&self) -> Name
        ensures { name_of (Values self.now) ≡ Some result }
    {
        Name {
            time: self.time,
            variable: Some(self.variable),
        }
    }

    fn sides(&self) -> usize
        ensures { result ≡ length (logs_of (Values self.now)) }
    {
        self.values.len()
    }

    fn departures_of(&self, side: usize) -> Option<&Log>
        ensures some { IfSome result (λ log. IsDeparted (logs_of (Values self.now)) side log.now) }
        ensures none { IfNone result (IsDefault (logs_of (Values self.now)) side) }
    {
        match self.values.get(side) {
            None => None,
            Some(witness) => if_departed(&witness.log),
        }
    }

    fn whole(&self, alloc: Global) -> Result<Difference, NoMemory>
        ensures { IfOk result (λ whole. whole ≡ Values self.now) }
    {
        Ok(Difference::Values(Race {
            time: self.time,
            variable: self.variable,
            values: copy_witnesses(alloc, &self.values)?,
        }))
    }
}

fn copy_side(alloc: Global, side: &Side) -> Result<Side, NoMemory>
    ensures { IfOk result (λ copied. copied ≡ side.now) }
{
    Ok(Side {
        lines: side.lines.copy(alloc)?,
        log: side.log.copy()?,
    })
}

fn copy_sides(alloc: Global, sides: &[Side]) -> Result<Vec<Side>, NoMemory>
    ensures { IfOk result (λ copied. copied.items ≡ sides.now) }
{
    let mut copied = Vec::new(alloc);
    for side in sides {
        copied.push(copy_side(alloc, side)?)?;
    }
    Ok(copied)
}

impl SlotRace for LineRace {
    ghost difference = { Lines };

    fn name(&self) -> Name
        ensures { name_of (Lines self.now) ≡ Some result }
    {
        Name {
            time: self.time,
            variable: None,
        }
    }

    fn sides(&self) -> usize
        ensures { result ≡ length (logs_of (Lines self.now)) }
    {
        self.sides.len()
    }

    fn departures_of(&self, side: usize) -> Option<&Log>
        ensures some { IfSome result (λ log. IsDeparted (logs_of (Lines self.now)) side log.now) }
        ensures none { IfNone result (IsDefault (logs_of (Lines self.now)) side) }
    {
        match self.sides.get(side) {
            None => None,
            Some(side) => if_departed(&side.log),
        }
    }

    fn whole(&self, alloc: Global) -> Result<Difference, NoMemory>
        ensures { IfOk result (λ whole. whole ≡ Lines self.now) }
    {
        Ok(Difference::Lines(LineRace {
            time: self.time,
            sides: copy_sides(alloc, &self.sides)?,
        }))
    }
}
