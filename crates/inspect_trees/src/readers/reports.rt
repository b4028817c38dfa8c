// Reports, read and put together again from the pieces of their texts.

use crate::text::Text;
use basis::{NoMemory, OrMemory};
use report_text::{
    ReportFault, ReportWithDumps, end_lines, head_lines, line_race_count_line, line_race_lines,
    race_count_line, race_lines, read_report,
};
use std::alloc::Global;

// The ends of a report, with their dumps.
fn put_ends(alloc: Global, text: &mut Text, told: &ReportWithDumps) -> Result<(), NoMemory> {
    for (place, end) in told.report.ends.iter().enumerate() {
        text.put(&end_lines(alloc, end)?);
        if let Some(dump) = told.dumps.get(place) {
            text.put(dump);
        }
    }
    Ok(())
}

// The text of what was read, made of its pieces.
fn rewrite(alloc: Global, told: &ReportWithDumps) -> Result<Vec<u8>, NoMemory> {
    let mut text = Text::new(alloc);
    text.put(&head_lines(alloc, &told.report)?);
    put_ends(alloc, &mut text, told)?;
    text.put(&race_count_line(alloc, &told.report)?);
    for race in &told.report.races {
        text.put(&race_lines(alloc, &told.report.variables, race)?);
    }
    text.put(&line_race_count_line(alloc, &told.report)?);
    for race in &told.report.line_races {
        text.put(&line_race_lines(alloc, race)?);
    }
    text.finish()
}

/// The report once more, or that it is none.
pub fn again(alloc: Global, text: &[u8]) -> Result<Vec<u8>, NoMemory> {
    match read_report(alloc, text) {
        Ok(told) => rewrite(alloc, &told),
        Err(OrMemory::Fault(ReportFault::IllFormed)) => Ok(Vec::from_slice(alloc, b"E501\n")?),
        Err(OrMemory::Memory(refused)) => Err(refused),
    }
}
