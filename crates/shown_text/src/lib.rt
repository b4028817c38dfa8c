// Bytes as a terminal may be shown them. In go names, lines and whole texts; out come the same, where each byte or letter that a terminal
// would take for a command, or that turns text round, stands as its number. No law is claimed: tests/hidden-letters compares them.
#![tactic(auto)]

mod letters;

pub use letters::{
    is_shown, put_byte_code, put_shown, shown_json, shown_name, shown_text, whole_letters,
};
