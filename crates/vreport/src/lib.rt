// Reports of explorations. In go a machine and what an explorer found of it; out comes the report of its ends and races,
// its text with the dump of each end, or, of a report that is given, which of its items isn't true.
// The law: what a report lists is true; where the findings are all, every end and every race is listed; its text can be read
// again.
#![tactic(auto)]

mod dump;
mod ends;
mod explored;
mod law;
mod marks;
mod report;
mod row;
mod timed;
mod values;
mod write;

pub use dump::{DumpFront, HeldDump, hold_dump, write_dump, write_from};
pub use explored::{Explored, report_alone, report_shared};
pub use law::{agreement_law, report_law};
pub use report::report_of;
pub use timed::{Budget, Spent, TimedReport, entry_bytes, report_in_time};
pub use values::{line_of_values, text_of_value};
pub use write::write_report;
