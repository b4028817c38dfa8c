// The call `drive` of the program: a testbench from the dump of another simulator. In go the words behind the command, parsed, the files of a
// module, and a dump that has its inputs; out comes the testbench, on standard output or in a file, with what is to be known of it on standard
// error, or what ends the call early. No law is claimed: the cases `drive-..` compare what is written, and tests/drive what its runs do.
#![tactic(auto)]

mod bench;
mod comparing;
mod differing;
mod module;
mod notes;
mod reading;
mod refused;
mod scale;
mod stops;

pub use bench::drive_by;
