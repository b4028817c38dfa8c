// What is to be driven of a module: the ports that its text declares, and which variables of a design are heard as clocks. In go the texts of
// files, which have been read once already, and a design; out come names with directions, and edges. No law is claimed: the cases `drive-..`
// compare what is made of them.
#![tactic(auto)]

mod clocks;
mod copies;
mod inner;
mod ports;

pub use clocks::{Edges, edges_of};
pub use ports::{ModulePort, Modules, modules_of_files};
