// Dumps in which one scope is read under another path. In goes a file, the path of a scope in the dump and another path; out comes the same
// text, but that the scope is declared under that path. Behind the declarations, and where nothing is renamed, each byte is as it was, and a
// declaration keeps its line. No law is claimed: tests/drive and the cases `match-scopes` compare what is made of such dumps.
#![tactic(auto)]

mod declaration;
mod paths;
mod reader;

pub use paths::{Renaming, renaming_of};
pub use reader::RenamedDump;
