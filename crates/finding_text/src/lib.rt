// What is told of one race: where its statements stand and what they do, in which values, lines or ends its runs differ, and under which
// logs. In goes a finding (`race_findings`), with the files that it is of; out come its words, and its members of a JSON document. No law
// is claimed: how it is told the cases in tests/cases compare.
#![tactic(auto)]

pub mod connection;
pub mod difference;
pub mod json_side;
pub mod json_statement;
pub mod name;
pub mod place;
pub mod scope;
pub mod start;
pub mod statements;
pub mod time;

pub use connection::{port_of, put_port};
pub use difference::{named_log, put_end};
pub use json_side::{end_word, log_text, value_words};
pub use json_statement::{precision_of, statement_in};
pub use place::Sources;
pub use start::{START, START_CURE};
pub use statements::{named_instances, put_other_order, put_statements};
pub use time::put_time;
