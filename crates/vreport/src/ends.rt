// The ends that the marks of a search show, each once.

ghost use Rattle.std.specs.Prelude.{◌≡◌, ◌<◌, ◌^◌, length, IfOk, IfSome, Decides};
ghost use Rattle.std.specs.declared.cmp.Ordering.TheVariants.{Equal};
ghost use Rattle.basis.specs.Reasons.{IfFault};
ghost use Rattle.explore.specs.Found.{AreFound};
ghost use Rattle.report_text.specs.WellFormed.{Each, EachTwo, IsEndBefore};
ghost use Rattle.vmachine.specs.Machines.{machine_rules};
ghost use Rattle.vreport.specs.Dumps.{HasDump, IsDumpFront};
ghost use Rattle.vreport.specs.Ends.{HasBytes, HasLongDump, HasSomeLongDump, IsTrueEnd, ListsEndsOf};
ghost use Rattle.vreport.specs.Written.{AreHeld, IsHeld};
ghost use Rattle.vreport.specs.Inner.{AreEnds, AreRows, AreSortedRows, CountsDump, IsCounted, IsWritable, IsEndOfRow, IsRowOfSome, Repeats, key_cmp};

use crate::dump::{DumpFront, HeldDump, hold_dump, write_dump, write_from};
use crate::marks::Marks;
use crate::row::{Row, cause_of, copy_printed, rows_in_order};
use basis::OrMemory;
use byte_sinks::{Counter, HELD_BYTES, HeldText, TooMany};
use plain_steps::run_law;
use report_text::End;
use sched_core::Log;
use statebook::Limits;
use std::alloc::Global;
use vmachine::{Machine, machine_law};

// How many bytes the dump of the run has.
fn dump_len(
    alloc: Global,
    machine: &Machine,
    log: &Log,
    steps: u32,
) -> Result<u64, OrMemory<TooMany>>
    requires ends { HasDump machine.now log.now steps }
    ensures ok { IfOk result (CountsDump machine.now log.now steps) }
    ensures long { IfFault result (λ _. HasLongDump machine.now log.now steps) }
{
    let mut counter = Counter::new();
    write_dump(alloc, machine, log, steps, &mut counter)?;
    Ok(counter.count())
}

// How many bytes a dump has, and the dump itself where it is held.
#[derive(Drop)]
struct Measured {
    bytes: u64,
    held: Option<HeldText>,
}

// How many bytes the dump has whose front is held, of a run that ends.
fn dump_len_on(
    alloc: Global,
    machine: &Machine,
    steps: u32,
    front: DumpFront<'_>,
) -> Result<u64, OrMemory<TooMany>>
    requires front { IsDumpFront machine.now front.run.log.now steps front }
    requires ends { HasDump machine.now front.run.log.now steps }
    ensures ok { IfOk result (CountsDump machine.now front.entry.run.log.now steps) }
    ensures long { IfFault result (λ _. HasLongDump machine.now front.entry.run.log.now steps) }
{
    let mut counter = Counter::new();
    write_from(alloc, machine, steps, front, &mut counter)?;
    Ok(counter.count())
}

// The dump of the run: held where it fits into so many bytes; else its bytes are counted, as they are made.
fn measure_dump(
    alloc: Global,
    machine: &Machine,
    log: &Log,
    steps: u32,
    room: usize,
) -> Result<Measured, OrMemory<TooMany>>
    requires ends { HasDump machine.now log.now steps }
    ensures ok { IfOk result (λ dump. CountsDump machine.now log.now steps dump.bytes) }
    ensures held { IfOk result (λ dump.
        IfSome dump.held (IsCounted machine.now log.now steps dump.bytes)) }
    ensures long { IfFault result (λ _. HasLongDump machine.now log.now steps) }
{
    let counted = match hold_dump(alloc, machine, log, steps, room) {
        Ok(Some(HeldDump::Whole(text, _))) => {
            return Ok(Measured {
                bytes: text.text().len() as u64,
                held: Some(text),
            });
        }
        Ok(Some(HeldDump::Front(front))) => dump_len_on(alloc, machine, steps, front),
        Ok(None) => dump_len(alloc, machine, log, steps),
        Err(_) => dump_len(alloc, machine, log, steps),
    };
    match counted {
        Ok(bytes) => Ok(Measured { bytes, held: None }),
        Err(fault) => Err(fault),
    }
}

// Whether two rows are of one end.
fn is_same_end(first: &Row, second: &Row) -> bool
    ensures { Decides result (key_cmp first.now second.now ≡ Equal) }
{
    if first.time != second.time {
        return false;
    }
    if first.cause != second.cause {
        return false;
    }
    if first.line != second.line {
        return false;
    }
    first.printed == second.printed
}

// Whether the row at the place is of the same end as the one before it.
fn repeats(rows: &[Row], place: usize) -> bool
    requires { place < length rows.now }
    ensures { Decides result (Repeats rows.now place) }
{
    if place == 0 {
        return false;
    }
    is_same_end(&rows[place - 1], &rows[place])
}

// The time of a row, a number of 64 bits.
fn time_of(row: &Row) -> u64
    ensures same { result ≡ row.now.time }
    ensures bits { result < 2 ^ 64 }
{
    row.time
}

// An end, and its dump where it is held.
#[derive(Drop)]
struct HeldEnd {
    end: End,
    held: Option<HeldText>,
}

// The end of a row. Its dump is held where it fits into so many bytes.
fn end_of<M: Marks>(
    alloc: Global,
    machine: &Machine,
    marks: &M,
    limits: &Limits,
    row: &Row,
    room: usize,
) -> Result<HeldEnd, OrMemory<TooMany>>
    requires found { AreFound (machine_rules machine.now) limits.now (M.pairs marks.now) }
    requires of { IsRowOfSome machine.now (M.pairs marks.now) row.now }
    ensures ok { IfOk result (λ one.
        IsEndOfRow machine.now limits.now (M.pairs marks.now) row.now one.end) }
    ensures held { IfOk result (λ one. IsHeld machine.now limits.now.steps one.end one.held) }
    ensures long { IfFault result (λ _. HasSomeLongDump machine.now limits.now) }
{
    machine_law();
    run_law();
    let Some((_, log)) = marks.mark_at(row.place) else {
        unreachable!()
    };
    let dump = measure_dump(alloc, machine, log, limits.steps, room)?;
    Ok(HeldEnd {
        end: End {
            time: time_of(row),
            cause: cause_of(row.cause),
            log: log.copy()?,
            bytes: dump.bytes,
            line: Vec::from_slice(alloc, &row.line)?,
            printed: copy_printed(alloc, row.printed.as_ref())?,
        },
        held: dump.held,
    })
}

// The room that is left behind a dump, and none behind the first that isn't held.
fn room_behind(room: usize, held: &Option<HeldText>) -> usize {
    match held {
        Some(dump) => room.saturating_sub(dump.text().len()),
        None => 0,
    }
}

/// The ends of a report; and of each its dump, where it is held.
#[derive(Drop)]
pub struct HeldEnds {
    pub ends: Vec<End>,
    pub held: Vec<Option<HeldText>>,
}

// The ends of rows that stand in order, each once. The dumps of the first are held, while they fit together.
fn ends_of_rows<M: Marks>(
    alloc: Global,
    machine: &Machine,
    marks: &M,
    limits: &Limits,
    rows: &[Row],
) -> Result<HeldEnds, OrMemory<TooMany>>
    requires found { AreFound (machine_rules machine.now) limits.now (M.pairs marks.now) }
    requires of { AreRows machine.now (M.pairs marks.now) rows.now }
    requires sorted { AreSortedRows rows.now }
    ensures ok { IfOk result (λ found.
        AreEnds machine.now limits.now (M.pairs marks.now) rows.now found.ends.items) }
    ensures held { IfOk result (λ found.
        AreHeld machine.now limits.now.steps found.ends.items found.held.items) }
    ensures long { IfFault result (λ _. HasSomeLongDump machine.now limits.now) }
{
    let mut ends = Vec::new(alloc);
    let mut held = Vec::new(alloc);
    let mut room = HELD_BYTES;
    for place in 0..rows.len() {
        if repeats(rows, place) {
            continue;
        }
        match end_of(alloc, machine, marks, limits, &rows[place], room) {
            Ok(one) => {
                room = room_behind(room, &one.held);
                ends.push(one.end)?;
                held.push(one.held)?;
            }
            Err(fault) => return Err(fault),
        }
    }
    Ok(HeldEnds { ends, held })
}

/// The ends of runs that the marks show, in the order of a report (docs/FORMATS.md, "Reports"), each once,
/// under a log of the fewest departures among the marks that show it, and with the count of its dump's bytes. The dumps of
/// the first ends are held, while they have room in `HELD_BYTES` together.
///
/// E901 where memory was refused. The other fault is that a dump has 2^64 bytes or more.
pub fn ends_of<M: Marks>(
    alloc: Global,
    machine: &Machine,
    marks: &M,
    limits: &Limits,
) -> Result<HeldEnds, OrMemory<TooMany>>
    requires found { AreFound (machine_rules machine.now) limits.now (M.pairs marks.now) }
    ensures true_ends { IfOk result (λ found.
        Each (IsTrueEnd machine.now limits.now) found.ends.items) }
    ensures bytes { IfOk result (λ found.
        Each (HasBytes machine.now limits.now.steps) found.ends.items) }
    ensures listed { IfOk result (λ found.
        ListsEndsOf machine.now (M.pairs marks.now) found.ends.items) }
    ensures kept { IfOk result (λ found. Each (IsWritable machine.now.looked) found.ends.items) }
    ensures order { IfOk result (λ found. EachTwo IsEndBefore found.ends.items) }
    ensures held { IfOk result (λ found.
        AreHeld machine.now limits.now.steps found.ends.items found.held.items) }
    ensures long { IfFault result (λ _. HasSomeLongDump machine.now limits.now) }
{
    machine_law();
    let rows = rows_in_order(alloc, machine, marks)?;
    ends_of_rows(alloc, machine, marks, limits, &rows)
}
