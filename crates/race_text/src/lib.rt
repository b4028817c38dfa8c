// What `vrace races` tells people (docs/RACES.md, "The races of a testbench") and programs (docs/FORMATS.md, "Races as JSON", "Races as
// SARIF"). In go the findings of a search (`race_findings`), the files that they are of, and waivers; out comes the text, or a document.
// No law is claimed: how it is told the cases in tests/cases compare.
#![tactic(auto)]

mod at_end;
mod command;
mod json;
mod sarif;
mod sarif_place;
mod summary;
mod told;
mod tops;
mod waiver_file;
mod whole;

pub use summary::{Findings, KEPT, SearchSummary};
pub use told::{ToldRace, told_races};
pub use tops::{Format, Tops};
pub use waiver_file::WaiverLines;
pub use whole::{races_texts, summary_text};
