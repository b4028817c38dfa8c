// How large modules are (E309).
// In go the trees of a module and what is left of a limit; out comes what is left behind it, 0 where it is too large.
// The law: each call takes the size of its definition in `specs/Sizes.antt` from what was left.
#![tactic(auto)]

mod expressions;
pub mod modules;
mod parts;
mod statements;
