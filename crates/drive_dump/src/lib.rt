// What a dump has of a module's inputs. In go the ports of the module, and a dump of which the declarations were read; out come the scopes that
// may be the module's, and what changes at its inputs, slot by slot, or why the dump isn't read to its end. No law is claimed: the cases
// `drive-..` and tests/drive compare what is made of it.
#![tactic(auto)]

mod buses;
mod changes;
mod columns;
mod dump;
mod fault;
mod indices;
mod module;
mod scopes;

pub use buses::bus_places;
pub use changes::{Collision, Recording, Window, record};
pub use columns::{InputColumns, Watched};
pub use dump::OpenDump;
pub use fault::DriveFault;
pub use indices::Indices;
pub use module::{DrivenModule, is_among};
pub use scopes::{Had, PortScope, PortScopes};
