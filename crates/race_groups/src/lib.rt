// Races by their causes. In go a machine and limits; out come the differences that its runs show, by time, put under the pairs of
// statements that are to blame; and how far the search came.
// The law: where no difference is told, no two runs within the limits differ up to the time that was closed; each that is told is one,
// and its cause is one.
#![tactic(auto)]

mod blame_table;
mod causes;
mod collected;
mod ends;
mod find;
mod group;
mod groups;
mod shown;
mod slot_race;
mod standing;

pub use find::find_races;
pub use group::{Difference, Group, Name, Races, Scope};
