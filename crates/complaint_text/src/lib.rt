// What is said of a command line, a file or a number that is refused, behind the line of the refusal. In go the words of the call, names
// and numbers; out come lines for a person. No law is claimed: tests/refusals compares them.
#![tactic(auto)]

mod dump_flaws;
mod files;
mod limits;
mod options;

pub use files::{
    TOO_LONG_TOGETHER, dump_text, too_long_text, unopened_text, unread_text, waiver_text,
};
pub use limits::{has_great_number, limits_text};
pub use options::{NO_COMMAND, ask_for_words, first_paragraph, value_of};
