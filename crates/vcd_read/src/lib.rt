// Value change dumps of any simulator, item by item (IEEE 1364-2005, 18.2). In goes a reader; out come the variables that the dump declares
// and the unit of its times, and then, one by one, the times and values that it tells, or a refusal with its line and its reason.
// The law: what comes out is what the words of the text declare (specs/Declarations.antt) and tell (specs/Commands.antt): they say one thing.
#![tactic(auto)]

mod bytes;
mod codes;
mod commands;
mod fault;
mod header;
mod item;
mod law;
mod numbers;
mod reader;
mod same;
mod timescale;
mod words;

pub use fault::{VcdFault, VcdFlaw};
pub use header::VcdVariable;
pub use item::VcdItem;
pub use law::a_dump_says_one_thing;
pub use reader::VcdReader;
pub use same::is_same;
