// In come a lawful space and limits: departures, steps of one run, entries; and how many workers, of which one is the caller.
// Out come the marks that were met, each under a log that reaches it, and whether that is all.
// The law: exhausted means that every mark of every run of at most K departures is listed, with the fewest departures.
#![tactic(auto)]

mod alone;
mod classes;
mod collector;
mod findings;
mod halt;
mod listing;
mod marks;
mod next;
mod rank_book;
mod rank_marks;
mod ranked;
mod ranked_classes;
mod ranked_findings;
mod ranked_search;
mod ranked_visit;
mod search;
mod visit;
mod way;
mod ways;
mod workers;

pub use alone::explore_alone;
pub use collector::{Collector, Progress, Watcher};
pub use findings::{Findings, Status};
pub use rank_marks::{FoundMark, RankMarks};
pub use ranked::explore_ranked;
pub use ranked_findings::{RankedFindings, RankedReason, RankedStatus};
pub use statebook::Reason;
pub use workers::explore;
