// In come spaces, states with numbered choices, and logs, the choices of a run that aren't choice 0.
// Out come the texts of logs, read and written exactly, and where the run under a log stands.
// Beside them stand words of runs that reports and logs share: settings, ends, and bags of lines.
// The law: equal states have equal futures, and a replay is the run under its log.
#![tactic(auto)]

pub mod bag;
pub mod end;
mod grid;
pub mod law;
mod log;
mod log_text;
mod ranked;
mod run;
pub mod setting;
mod space;

pub use grid::{Grid, Square};
pub use log::{Log, LogFault, LogHead, Member};
pub use log_text::{append_log, read_log, read_named_log, write_log, write_named_log};
pub use ranked::Ranked;
pub use run::{Reached, ReplayFault, next_choice, replay};
pub use space::Space;
