// A whole report, read.

ghost use Rattle.std.specs.Prelude.{◌≡◌, ℕ, ◌<◌, ◌^◌, List, map, true, length, IfOk};
ghost use Rattle.report_text.specs.Inner.Columns.{Differ};
ghost use Rattle.report_text.specs.Inner.Ends as ends;
ghost use Rattle.report_text.specs.Inner.Headings as headings;
ghost use Rattle.report_text.specs.Inner.Lists.{Listed};
ghost use Rattle.report_text.specs.Inner.Places.{Stands, Took};
ghost use Rattle.report_text.specs.Inner.Wholes.{EachBody, HasBody, IsHeadTaken};
ghost use Rattle.report_text.specs.Report as reports;
ghost use Rattle.basis.specs.Reasons.{IfFault};
ghost use Rattle.report_text.specs.WellFormed.{IsColumn, IsNoReportText, IsReportText, ReadsEachReport};

use crate::columns::{copy_of, read_columns};
use crate::ends::read_ends;
use crate::heading_lines::{Heading, number_line, read_heading};
use crate::line_races::read_line_races;
use crate::names::Names;
use crate::races::read_races;
use crate::reader::Reader;
use crate::report::{Column, End, Race, Report, ReportFault, ReportWithDumps};
use basis::{NoMemory, OrMemory};
use sched_core::setting::Looked;
use std::alloc::Global;

// A text has no more bytes than a number of 64 bits counts.
fn has_size(text: &[u8]) -> u64
    ensures value { result ≡ length text.now }
    ensures small { length text.now < 2 ^ 64 }
{
    text.len() as u64
}

// Takes the head and the variables. Where the reader is lost they mean nothing. The error is want of memory, E901.
fn read_head<'a>(
    alloc: Global,
    reader: &mut Reader<'a>,
) -> Result<(Heading<'a>, Vec<Column>, Names<'a>), NoMemory>
    ensures read { IfOk result (λ p. Took reader.old reader.new (λ text rest.
        IsHeadTaken text p.0 p.1.items rest × (p.2 ≡ map (λ c. c.name) p.1.items))) }
    ensures each { (h : headings.Heading) (columns : List reports.Column) (rest : List ℕ) →
        reader.old.ok ≡ true → IsHeadTaken reader.old.rest h columns rest →
        IfOk result (λ p. (p.0 ≡ h) × (p.1.items ≡ columns) × Stands reader.new rest) }
{
    let heading = read_heading(reader);
    let count = number_line(reader, b"vars ", 0, u64::MAX);
    let (columns, names) = read_columns(alloc, reader, count)?;
    Ok((heading, columns, names))
}

// Takes the ends with their dumps and the races. Where the reader is lost they mean nothing. The error is want of memory, E901.
fn read_body<'a>(
    alloc: Global,
    reader: &mut Reader<'a>,
    columns: &[Column],
    names: &Names<'a>,
    looked: Looked,
) -> Result<(Vec<End>, Vec<&'a [u8]>, Vec<Race>), NoMemory>
    requires shown { names.now ≡ map (λ c. c.name) columns.now }
    requires columns { Listed IsColumn Differ columns.now }
    ensures read { IfOk result (λ p.
        HasBody looked columns.now reader.old reader.new p.0.items p.1.items p.2.items) }
    ensures each { EachBody looked columns.now reader.old reader.new result }
{
    let count = number_line(reader, b"ends ", 0, u64::MAX);
    let (ends, dumps) = read_ends(alloc, reader, columns, looked, count)?;
    let count = number_line(reader, b"races ", 0, u64::MAX);
    let races = read_races(alloc, reader, columns, names, count)?;
    Ok((ends, dumps, races))
}

/// Reads the text of a report with the dumps of its ends.
///
/// It accepts exactly the texts of reports, of version 1, 2 and 3 (docs/FORMATS.md, "Reports"), in
/// one pass. Any other is `ReportFault::IllFormed`, E501. The error may also be want of memory, E901.
pub fn read_report<'a>(
    alloc: Global,
    text: &'a [u8],
) -> Result<ReportWithDumps<'a>, OrMemory<ReportFault>>
    ensures read { IfOk result (λ with_dumps. IsReportText text.now with_dumps) }
    ensures ill_formed { IfFault result (λ _. IsNoReportText text.now) }
    ensures accepts { ReadsEachReport text.now result }
{
    let _size = has_size(text);
    let mut reader = Reader::new(text);
    let (heading, variables, names) = read_head(alloc, &mut reader)?;
    if !reader.is_ok() {
        return Err(OrMemory::Fault(ReportFault::IllFormed));
    }
    let (ends, dumps, races) = read_body(alloc, &mut reader, &variables, &names, heading.looked)?;
    let line_races = read_line_races(alloc, &mut reader, heading.looked)?;
    reader.require(reader.is_done());
    if !reader.is_ok() {
        return Err(OrMemory::Fault(ReportFault::IllFormed));
    }
    let top = copy_of(alloc, heading.top)?;
    let report = Report {
        version: heading.version,
        top,
        until: heading.until,
        depart: heading.depart as u32,
        steps: heading.steps as u32,
        grain: heading.grain,
        departures: heading.departures,
        looked: heading.looked,
        outcome: heading.outcome,
        variables,
        ends,
        races,
        line_races,
    };
    Ok(ReportWithDumps { report, dumps })
}
