// Code of expressions (IEEE 1364-2005, clause 5): compiled once, with the size and sign of each node settled, so that evaluating one asks
// for none. In go an expression and the declared variables, and then their values; out comes the expression's value.
// The law: where each value has its variable's size and sign, it is the value that `vvalue` gives; guarded code tests that, and has this
// value or none.
#![tactic(auto)]

mod compile;
mod context;
mod guard;
mod law;
mod operation;
mod operators;
mod right_operand;
mod run;
mod size;

pub use compile::{compile_expression, compile_right_side};
pub use context::Context;
pub use guard::{Guard, GuardedCode, guard_expression, guard_right_side};
pub use law::expression_code_law;
pub use operation::{BinaryStep, ExpressionCode, Leaf, Operation, UnaryStep};
pub use run::run_expression;
