// The calls of the program. In go the bytes of files and options; out comes the report of an exploration, its races by their causes, the dump of one run
// under a log, its printed lines, its steps, or whether a given report is true; or the number of a fault.
// The law: what is written is `Explores` of specs/Explores.antt, `ExploresInTime` of specs/ExploresInTime.antt, or `IsShown` of
// specs/Replays.antt; a report passes where it is `IsTrueText` of specs/Checks.antt; and each fault has its reason
// (specs/Refusals.antt).
#![tactic(auto)]

mod allowed;
mod asked;
mod checking;
mod design;
mod exploring;
mod fault;
mod in_time;
pub mod law;
mod lines;
mod machine;
mod options;
mod races;
mod read;
mod replay;
mod trace;

pub use allowed::Allowed;
pub use checking::check_text;
pub use explore::{Progress, RankedFindings, RankedReason, RankedStatus, Reason, Watcher};
pub use exploring::{Status, explore_text, explore_text_alone};
pub use fault::{At, Detail, Fault};
pub use in_time::{Timed, explore_text_in_time};
pub use machine::{PlacedMachine, machine_of_files};
pub use options::Options;
pub use races::{FoundRaces, find_races_in};
pub use read::{LIMIT, read_text};
pub use replay::{Show, replay_text};
pub use report_text::Outcome;
pub use trace::{detailed_trace_text, trace_text};
pub use velab_expr::Rule;
pub use vreport::{Budget, Spent};
