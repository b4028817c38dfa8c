// Where the statements of a design's actions begin.
// In go the tokens of a text, its tree and the name of its top; out comes for each action of its design the number of a token.
// The law: they are those of `specs/Origins.antt`, counted from the text alone.
#![tactic(auto)]

mod expressions;
pub mod law;
mod modules;
mod parts;
mod statements;
mod units;

pub use units::origins_of;
