// In come the entries that the workers of an explorer meet, from any thread, and what they finish.
// Out come places in one shared book: new ones, or ones of an entry that dominates the one met.
// The law: new entries are dominated by none of their shard; a true closing scan misses nothing.
#![tactic(auto)]

mod audit;
mod book;
mod chains;
mod code;
mod done;
mod entries;
mod find;
mod met;
mod parameters;
mod pass;
mod push;
mod scan;
mod seen;
mod shard;
mod slots;
mod unopened;

pub use book::Book;
pub use done::Done;
pub use met::Met;
pub use parameters::{BookIdentity, SearchParameters};
pub use pass::{ALL, Pass};
pub use seen::Seen;
pub use unopened::Unopened;
