// Whether what a report lists is true. In go a machine, a report and the dumps of its ends; out comes the first item that
// isn't true, if there is one.
// The law: nothing is answered exactly where the report is true (vreport's specs/Truth.antt).
#![tactic(auto)]

mod check;
mod claim;
mod end;
mod head;
mod printed;
mod race;
mod shown;

pub use check::{FirstBad, check_report};
