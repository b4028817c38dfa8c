// Refusals as compilers tell them: the file, line and column, what is refused, the source line with a caret, and what to write in its
// place. In: the number and the place of a refusal, and the files by their names and texts. Out: lines for a person. No law is claimed:
// the number and the place are pinned by clauses (docs/FAULTS.md); the words are compared by tests/refusals.
#![tactic(auto)]

mod bounds;
mod construct;
mod declarations;
mod declared;
mod directives;
mod expressions;
mod find;
mod formats;
mod grammar_mistakes;
mod keywords;
mod letters;
mod lines;
mod mended;
mod message;
mod mistakes;
mod modules;
mod numbers;
mod phrase;
mod ports;
mod printed;
mod rules;
mod statements;
mod system_verilog;
mod system_verilog_rows;
mod text;
mod told;
mod tops;
mod undeclared;
mod walk;
mod words;

pub use lines::{Files, line_of, line_starts};
pub use told::refusal_text;
