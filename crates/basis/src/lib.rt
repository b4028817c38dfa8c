// The lowest crate: want of memory as a value that only a refused growth makes, units of time, the letters of names, numbers as
// texts, and facts that others share. In go the errors of the library's allocations; out comes `NoMemory`, alone or beside a
// fault of one's own.
// The law: a `NoMemory` is made of what the library gives where a growth was refused; `.ci/run` looks that no other crate names that.
#![tactic(auto)]

mod letters;
mod memory;
mod numerals;
mod timescale;

pub use letters::{begins_name, is_in_name};
pub use memory::{NoMemory, OrMemory};
pub use numerals::{digits_len, number_in};
pub use timescale::{Count, Span, Timescale, Unit};
