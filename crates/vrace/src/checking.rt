// Whether a report is true of files.

ghost use Rattle.std.specs.Prelude.{◌≡◌, ℕ, List, Some, length, map, OnOk, IfOk, IfErr, IsErrAnd};
ghost use Rattle.report_text.specs.WellFormed.{IsReportText};
ghost use Rattle.vsrc.specs.Source.{file_bytes};
ghost use Rattle.vrace.specs.Checks.{AsksTooMuch, IsCheckReason, IsCheckReasonUnder, IsMachineOf, IsOfLimit, IsTrueText, OfItsText, fault_by};
ghost use Rattle.vrace.specs.Refusals.{IsDesignFault};

use crate::allowed::Allowed;
use crate::design::design_of;
use crate::fault::Fault;
use crate::machine::machine_in;
use basis::OrMemory;
use report_check::{FirstBad, check_report};
use report_text::{Report, ReportFault, read_report};
use std::alloc::Global;
use vmachine::Machine;

// The number of the first item that isn't true.
fn of_bad(bad: FirstBad) -> Fault
    ensures { result ≡ fault_by bad }
{
    match bad {
        FirstBad::Head => Fault::FalseHead,
        FirstBad::End(place) => Fault::FalseEnd(place),
        FirstBad::Race(place) => Fault::FalseRace(place),
    }
}

// The machine that the head of a report asks for.
fn machine_of(alloc: Global, files: &[Vec<u8>], report: &Report) -> Result<Machine, Fault>
    ensures ok { IfOk result (IsMachineOf (file_bytes files.now) report.now) }
    ensures err { IfErr result (IsDesignFault (file_bytes files.now) (Some report.now.top)) }
{
    let design = design_of(alloc, files, Some(&report.top))?;
    Ok(machine_in(
        alloc,
        design,
        report.until,
        report.grain,
        report.departures,
        report.looked,
    )?)
}

// Checks a report that was read.
fn check_with_dumps(
    alloc: Global,
    files: &[Vec<u8>],
    report: &Report,
    dumps: &[&[u8]],
) -> Result<(), Fault>
    requires { length dumps.now ≡ length report.now.ends }
    ensures ok { OfItsText report.now dumps.now (λ text.
        OnOk result (IsTrueText (file_bytes files.now) text)) }
    ensures reason { OfItsText report.now dumps.now (λ text.
        IfErr result (IsCheckReason (file_bytes files.now) text)) }
{
    let machine = machine_of(alloc, files, report)?;
    match check_report(alloc, &machine, report, dumps) {
        Ok(()) => Ok(()),
        Err(OrMemory::Fault(bad)) => Err(of_bad(bad)),
        Err(OrMemory::Memory(refused)) => Err(Fault::Memory(refused)),
    }
}

/// Whether all that a report lists is true of the files: its head, each end with its dump, each race with its values. Whether
/// it lists all that there is, is not tested (docs/RACES.md).
///
/// Refusals, in the order in which they are looked for: E501 where the report is none; E404 where its head asks for more than
/// is allowed, and then nothing is run; E904 where the files together are longer than 16,777,216 bytes; E1xx to E3xx where
/// their text has no tokens, no tree, or no design by the report's head; E504, E502 or E503 for the first item that isn't
/// true. E901 where memory was refused.
pub fn check_text(
    alloc: Global,
    files: &[Vec<u8>],
    report: &[u8],
    allowed: Allowed,
) -> Result<(), Fault>
    ensures ok { OnOk result (IsTrueText (file_bytes files.now) report.now) }
    ensures reason { IfErr result (IsCheckReasonUnder allowed (file_bytes files.now) report.now) }
    ensures limit { AsksTooMuch allowed report.now → IsErrAnd result IsOfLimit }
{
    let with_dumps = match read_report(alloc, report) {
        Ok(with_dumps) => with_dumps,
        Err(OrMemory::Fault(ReportFault::IllFormed)) => return Err(Fault::BadReport),
        Err(OrMemory::Memory(refused)) => return Err(Fault::Memory(refused)),
    };
    if allowed.is_exceeded_by(&with_dumps.report) {
        return Err(Fault::OutOfLimit);
    }
    check_with_dumps(alloc, files, &with_dumps.report, &with_dumps.dumps)
}
