// What a run of a design is, as IEEE 1364-2005 defines it: in the definitions of specs/, states, their choices and steps, and whole
// runs; as code, the parts that any engine of these steps is made of. In go values, a frame of a process and an action; out comes what
// that step does: what it writes, posts, shows, and where its process goes.
// The law: each call is the definition of its name, `effect_at` is `execute_at` of specs/Step.antt.
#![tactic(auto)]

pub mod choice;
mod edge;
pub mod effect;
mod environment;
pub mod frame;
pub mod history;
pub mod part;
mod pieces;
pub mod process_set;
pub mod sink;
pub mod touched;
pub mod value;
pub mod values;

pub use edge::is_edge;
pub use environment::environment_at;
pub use pieces::{is_print, pieces_at};
