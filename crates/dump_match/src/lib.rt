// Which order another simulator took. In go a machine and the value change dump that another simulator wrote of the same files; out comes
// a run whose values at the end of every slot are the dump's, or the first time up to which no run's are. Of two dumps, a run that has the
// values of both, or the first time up to which none has.
// The law: that is what `match_runs` says of the machine's runs, where what the dump shows is compared as specs/Comparison.antt says.
#![tactic(auto)]

mod comparison;
mod differing;
mod dump;
mod find;
mod known;
mod parting;
mod reference;
mod scopes;

pub use comparison::{Comparison, Pair};
pub use differing::Differing;
pub use dump::DumpReference;
pub use find::match_dump;
pub use parting::match_dumps;
