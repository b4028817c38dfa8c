// What is told of races, and of a dump that runs are compared with, as plain data: statements by their places in a design, times, values,
// lines and logs. In go the findings of a search, which `race_facts` looks up in a machine; out comes what texts, documents and pages are
// made of, with no machine below. The law: the exit statuses are those of specs/Status.antt; of all else none is claimed.
#![tactic(auto)]

mod apart;
mod difference;
mod finding;
mod matched;
mod reach;
mod setting;
mod statements;
mod status;

pub use apart::{Apart, Foremost};
pub use difference::{Aspect, Difference, Evidence, RunEnd, Side};
pub use finding::{Finding, Name, is_first_at_start};
pub use matched::{Compared, Differing, FoundRun, MatchAnswer, SearchCut};
pub use reach::{CutBy, EndlessSlot, Reach};
pub use setting::Setting;
pub use statements::{RacingStatement, Statements, Touched};
pub use status::{DumpFound, TopFound, dump_status, races_status};
