// A report that is made, written and read again.

ghost use Rattle.vreport.specs.Reports.{HoldsDumps, TellsBytes};

use basis::OrMemory;
use byte_sinks::{Metered, WriteFault};
use report_text::{ReportFault, read_report};
use statebook::Limits;
use std::alloc::Global;
use std::io;
use vmachine::Machine;
use vreport::{Explored, report_alone, write_report};

// More bytes than the report of a small text has, so that the writer never asks for more.
const ROOM: usize = 65_536;

fn of_writing(fault: OrMemory<WriteFault>) -> &'static str {
    match fault {
        OrMemory::Memory(_) => "E901 of writing",
        OrMemory::Fault(WriteFault::Write) => "wrong: the writer is said to have failed",
    }
}

// Writes the report: the word for how it ended.
fn outcome_of_writing(
    alloc: Global,
    machine: &Machine,
    explored: &Explored,
    writer: &mut Metered<Vec<u8>>,
) -> &'static str
    requires bytes { TellsBytes machine.now explored.now }
    requires held { HoldsDumps machine.now explored.now }
{
    match write_report(alloc, machine, &explored.report, &explored.held, writer) {
        Ok(()) => "written",
        Err(fault) => of_writing(fault),
    }
}

// Explores the machine and writes the report.
fn explore_and_write(
    alloc: Global,
    machine: &Machine,
    limits: &Limits,
    writer: &mut Metered<Vec<u8>>,
) -> &'static str {
    match report_alone(alloc, machine, limits) {
        Ok(explored) => outcome_of_writing(alloc, machine, &explored, writer),
        Err(OrMemory::Memory(_)) => "E901 of exploring",
        Err(OrMemory::Fault(_)) => "wrong: a dump is said to be too long",
    }
}

// Reads a report back, once more where that was refused.
fn is_read(alloc: Global, text: &[u8]) -> bool {
    match read_report(alloc, text) {
        Ok(_) => true,
        Err(OrMemory::Fault(ReportFault::IllFormed)) => false,
        Err(OrMemory::Memory(_)) => read_report(alloc, text).is_ok(),
    }
}

/// Writes the report that stands written, and how it went on.
pub fn reports(rt: &impl Print, alloc: Global, machine: &Machine) -> io::Result<()> {
    let Some(limits) = Limits::new(1, 100_000, 1_000_000) else {
        return rt.println("wrong: limits");
    };
    let mut writer = Metered::new(Vec::with_capacity(alloc, ROOM)?);
    let word = explore_and_write(alloc, machine, &limits, &mut writer);
    let text = writer.into_inner();
    if let Ok(text) = std::str::from_utf8(text.as_slice()) {
        rt.print(text)?;
    }
    if word == "written" && !is_read(alloc, text.as_slice()) {
        return rt.println("wrong: a report isn't read again");
    }
    rt.println(word)
}
