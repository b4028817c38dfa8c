// What takes texts, one after another: a writer whose failures are counted, a count of bytes, a text that is held while it is short,
// or a comparison with the one that is expected. In go pieces of a text; out comes what they make of the byte sink, or its fault.
// The law: texts may come joined, and a fault in a text is one in it with more around it.
#![tactic(auto)]

mod byte_sink;
mod counter;
mod expected;
mod fault;
mod held;
mod law;
mod metered;

pub use byte_sink::{ByteSink, put};
pub use counter::Counter;
pub use expected::Expected;
pub use fault::{Full, Never, TooMany, WriteFault};
pub use held::{HELD_BYTES, HeldText};
pub use law::expected_is_whole;
pub use metered::Metered;
