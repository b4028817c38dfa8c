// In come the entries that an explorer meets: a state, its budget, its log, its steps.
// Out come places in the book: new ones, or ones of an entry that dominates the one met.
// The law: where a closing scan answers true, the entries cover every run of at most K departures.
#![tactic(auto)]

mod book;
mod entry;
mod law;
mod limits;
mod next;
mod reason;
mod way;

pub use book::{Done, Met, PlainBook};
pub use entry::Entry;
pub use law::{book_stays_sound, closed_covers};
pub use limits::Limits;
pub use next::{budget_left, log_after, next_entry};
pub use reason::Reason;
pub use way::walk;
