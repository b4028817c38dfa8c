// Words of what is told of races, without a machine: pieces of text, values, members of JSON documents, and waivers. In go bytes, numbers
// and values; out comes text, or the waivers that a file has. No law is claimed: how it is told the cases in tests/cases compare.
#![tactic(auto)]

pub mod escapes;
pub mod keys;
pub mod members;
pub mod patterns;
pub mod pieces;
pub mod shell;
pub mod value;
pub mod waivers;

pub use escapes::{has_word, put_name_word};
pub use keys::{ends_key, key_of_waiver, lines_key, spot_of, variable_key};
pub use members::{Items, Members, document};
pub use patterns::{LetterSet, Pattern};
pub use pieces::{Piece, put, put_all};
pub use shell::{put_files, put_option, put_word};
pub use value::put_value;
pub use waivers::{EndPlace, LinePlace, Waiver, WaiverFault, WaiverScope, read_waivers};
