// What `vrace match` tells people and programs (docs/FROM-ICARUS.md, "Which order did my simulator take?"; docs/FORMATS.md, "Matches as
// JSON"). In go what a search found that compares runs with the dump of another simulator, and the files; out comes the text, or a
// document.
// No law is claimed: how it is told the cases in tests/cases compare.
#![tactic(auto)]

mod compared;
mod departures;
mod json;
mod json_of_pair;
mod levels;
mod pair;
mod told;
mod whole;
mod words_of_pair;

pub use json::match_json;
pub use json_of_pair::pair_json;
pub use levels::{Refuted, level_words};
pub use pair::{Apart, FoundPair, OneOfPair, PairAnswer};
pub use told::{Departure, Found};
pub use whole::match_words;
pub use words_of_pair::pair_words;
