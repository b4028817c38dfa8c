// Reports as texts. In go a report and the dumps of its ends, and out come the pieces of its text; or in goes a text, and
// out comes the report that it is of.
// The law: exactly the texts of reports are read, each as the report that it is of.
#![tactic(auto)]

mod columns;
mod ends;
mod front;
mod heading_lines;
mod law;
mod letters;
mod line_races;
mod lines;
mod names;
mod pieces;
mod races;
mod read;
mod reader;
mod report;
mod words;

pub use law::report_text_law;
pub use pieces::{
    end_lines, head_lines, line_race_count_line, line_race_lines, race_count_line, race_lines,
};
pub use read::read_report;
pub use report::{
    Column, End, LineRace, Outcome, PrintedLines, Race, RaceValue, Report, ReportFault,
    ReportWithDumps, Version,
};
