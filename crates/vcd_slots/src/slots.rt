// A dump, slot by slot.

ghost use Rattle.std.specs.Prelude.{◌≡◌, ◌∷◌, ◌++◌, [], ◌<◌, ℕ, List, None, Some, IsSome, IfOk, IfSome, IfNone};
ghost use Rattle.vcd_read.specs.Words.{Text};
ghost use Rattle.vcd_read.specs.Bytes.{AreAll};
ghost use Rattle.vcd_read.specs.Commands.{Item, Tells};
ghost use Rattle.vcd_read.specs.Telling.{item_of};
ghost use Rattle.vcd_read.specs.Readers.{IsOpen, bytes_left, to_come};
ghost use Rattle.vcd_slots.specs.Units.{units_of};
ghost use Rattle.vcd_slots.specs.Coming.{Comes};
ghost use Rattle.vcd_slots.specs.Following.{IsFresh, IsSound, told_at};
ghost use Rattle.vcd_slots.specs.Standing.{Advances, IsReady, Leads, Reads, ReadsOn, Takes};
ghost use Rattle.vcd_slots.specs.Taken.{IsTaken, IsTimeOf, TakenSo};

use crate::columns::Columns;
use crate::units::Units;
use basis::{OrMemory, Span};
use std::alloc::Global;
use std::io::Read;
use vbits::Vec4;
use vcd_read::{VcdFault, VcdFlaw, VcdItem, VcdReader};

/// A dump, and what it shows: of each column its value at the end of the slot of a time. The time that comes next was read.
#[derive(Drop)]
pub struct DumpSlots<R> {
    dump: VcdReader<R>,
    columns: Columns,
    units: Units,
    time: Option<u64>,
    ahead: Option<u64>,
}

// What an item is to the slot that is read: one of it, the time of the next one, or none of a dump.
enum Taken {
    Told,
    Next(u64),
    Refused(VcdFlaw),
}

// What a time is to the slot of another time, if that has one.
fn time_taken(shown: Option<u64>, time: u64) -> Taken
    ensures { IsTaken shown result time }
{
    match shown {
        None => Taken::Next(time),
        Some(shown) if time > shown => Taken::Next(time),
        Some(shown) if time == shown => Taken::Told,
        Some(_) => Taken::Refused(VcdFlaw::Falls),
    }
}

// The time that an item is, if it is one.
fn time_of(item: &VcdItem) -> Option<u64>
    ensures { IsTimeOf result (item_of item.now) }
{
    match item {
        VcdItem::Time(time) => Some(*time),
        VcdItem::Value { .. } => None,
        VcdItem::Off => None,
        VcdItem::On => None,
    }
}

// An item is told to the columns, but the time of the next slot.
fn take(columns: &mut Columns, shown: Option<u64>, item: &VcdItem) -> Taken
    requires { IsSound columns.old }
    ensures sound { IsSound columns.new }
    ensures watched { columns.new.watched ≡ columns.old.watched }
    ensures taken { TakenSo columns.old columns.new shown (item_of item.now) result }
{
    match time_of(item) {
        Some(time) => time_taken(shown, time),
        None => {
            if columns.tell(item) {
                Taken::Told
            } else {
                Taken::Refused(VcdFlaw::Width)
            }
        }
    }
}

// The next item of a dump, with its time in the unit that is shown; none at the end.
fn next_in<R: Read + Drop>(
    alloc: Global,
    dump: &mut VcdReader<R>,
    units: Units,
) -> Result<Option<VcdItem>, OrMemory<VcdFault>>
    requires { IsOpen dump.old }
    ensures is_open { IsOpen dump.new }
    ensures item { IfOk result (λ told. IfSome told (λ item. Comes R.remaining units dump.old dump.new (item_of item ∷ []))) }
    ensures end { IfOk result (λ told. IfNone told ((words : List Text)
        × AreAll words (to_come R.remaining dump.old) (to_come R.remaining dump.new) × Tells dump.old.commands.inside words [])) }
    ensures ends { IfOk result (λ told. IfSome told (λ _. bytes_left dump.new < bytes_left dump.old)) }
{
    let Some(item) = dump.next(alloc)? else {
        return Ok(None);
    };
    match units.item(item) {
        None => Err(dump.no_dump(VcdFlaw::Unit)),
        Some(now) => Ok(Some(now)),
    }
}

impl<R: Read + Drop> DumpSlots<R> {
    /// The slots of a dump of which the declarations were read. Its times count in a unit, if one is given, and else in the one in which they are
    /// shown. It is read up to its first time: what stands before that is of its slot. E505 with its line where the text stops being a dump, a value has other digits than a variable that is
    /// followed may have, or a time is no whole number of the unit; E903 where the reader fails; E901.
    pub fn begin(
        alloc: Global,
        dump: VcdReader<R>,
        columns: Columns,
        unit: Option<Span>,
        shown: Span,
    ) -> Result<DumpSlots<R>, OrMemory<VcdFault>>
        requires is_open { IsOpen dump }
        requires sound { IsSound columns }
        requires fresh { IsFresh columns }
        ensures ready { IfOk result (λ slots. IsReady slots) }
        ensures watched { IfOk result (λ slots. slots.columns.watched ≡ columns.watched) }
        ensures units { IfOk result (λ slots. slots.units ≡ units_of unit shown) }
        ensures time { IfOk result (λ slots. slots.time ≡ None) }
        ensures reads { IfOk result (λ slots. Reads R.remaining dump slots) }
    {
        let units = Units::of(unit, shown);
        let mut slots = DumpSlots {
            dump,
            columns,
            units,
            time: None,
            ahead: None,
        };
        slots.read_on(alloc)?;
        Ok(slots)
    }

    // Up to the next time that is later, or to the end.
    fn read_on(&mut self, alloc: Global) -> Result<(), OrMemory<VcdFault>>
        requires is_open { IsOpen self.old.dump }
        requires sound { IsSound self.old.columns }
        requires none { self.old.ahead ≡ None }
        ensures ready { IsReady self.new }
        ensures watched { self.new.columns.watched ≡ self.old.columns.watched }
        ensures units { self.new.units ≡ self.old.units }
        ensures time { self.new.time ≡ self.old.time }
        ensures takes { IfOk result (λ _. (items : List Item) × Takes R.remaining self.old.dump self.new items
            × Leads self.old.columns self.new.columns self.old.time items) }
    {
        'items: loop {
            let Some(item) = next_in(alloc, &mut self.dump, self.units)? else {
                return Ok(());
            };
            let taken = take(&mut self.columns, self.time, &item);
            drop(item);
            match taken {
                Taken::Told => {}
                Taken::Next(time) => {
                    self.ahead = Some(time);
                    return Ok(());
                }
                Taken::Refused(flaw) => return Err(self.dump.no_dump(flaw)),
            }
        }
    }

    /// The unit of times that the dump declares, if it declares one.
    pub fn unit(&self) -> Option<Span>
        ensures { result ≡ self.now.dump.unit }
    {
        self.dump.unit()
    }

    /// The time that is shown; none before the first.
    pub fn time(&self) -> Option<u64>
        ensures { result ≡ self.now.time }
    {
        self.time
    }

    /// The next time of the dump, later than the one that is shown; none at the end.
    pub fn next_time(&self) -> Option<u64>
        ensures { result ≡ self.now.ahead }
    {
        self.ahead
    }

    /// Goes on to the next time: all that is told at it is shown. E505 with its line where the text stops being a dump, a time falls or is no
    /// whole number of the unit, or a value has other digits than a variable that is followed may have; E903 where the reader fails; E901.
    pub fn advance(&mut self, alloc: Global) -> Result<(), OrMemory<VcdFault>>
        requires ready { IsReady self.old }
        requires some { IsSome self.old.ahead }
        ensures ready { IsReady self.new }
        ensures watched { self.new.columns.watched ≡ self.old.columns.watched }
        ensures units { self.new.units ≡ self.old.units }
        ensures time { self.new.time ≡ self.old.ahead }
        ensures advances { IfOk result (λ _. (items : List Item) × Advances R.remaining self.old self.new items) }
        ensures reads { IfOk result (λ _. ReadsOn R.remaining self.old self.new) }
    {
        self.time = self.ahead;
        self.ahead = None;
        self.read_on(alloc)
    }

    /// What the column at this place is worth at the end of the slot that is shown, if that is known.
    pub fn value(&self, place: usize) -> Option<Vec4>
        ensures { result ≡ told_at self.now.columns.told.items place }
    {
        self.columns.value(place)
    }
}
