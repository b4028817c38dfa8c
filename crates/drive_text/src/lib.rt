// Testbenches that drive a module as a dump has its inputs. In go a module's ports and what changes at which time; out comes Verilog that
// this product reads. No law is claimed: the cases `drive-..` compare what is written, and tests/drive what its runs do.
#![tactic(auto)]

mod body;
mod driven;
mod head;
mod names;
mod whole;

pub use driven::{Change, Driven, DrivenPort, Parameter, Role};
pub use head::skeleton_text;
pub use names::{fresh_name, put_name};
pub use whole::{MOST_BYTES, TextFault, driven_text};
