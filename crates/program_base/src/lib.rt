// What the calls of the program share. In go the names of files and what a call is asked for; out come their texts and the options of the
// library's calls, or what ends a call early, and that is said on standard error. No law is claimed: tests/run-cases and tests/refusals
// compare what the program does.
#![tactic(auto)]

mod asked;
mod files;
mod said;
mod stop;
mod told;

pub use asked::{ENTRIES, check_limits, options_for};
pub use files::{finish, read_file, refused_open, texts, write_out};
pub use said::{say_stop, say_unparsed};
pub use stop::{DASHED, Stop};
pub use told::with_words;
