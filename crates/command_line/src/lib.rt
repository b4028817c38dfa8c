// Command lines, and what `vrace explain` says. In go the words of a call; out come the command that they name and what it is asked
// for, by the tables of its options; and what is said of a fault's number.
// No law is claimed: tests/run-cases and tests/faults compare what the program does.
#![tactic(auto)]

mod call;
mod explanations;
mod words;

pub use call::{ParsedWords, Shown, Unparsed, parse_words};
pub use explanations::{Explanation, explanation_of, show, show_advice, show_all};
pub use words::{
    Allowance, DriveWords, DumpWords, MatchWords, RaceWords, Request, Search, VERSION, Wanted,
    drive_words_of, files_of, has_dashed_drive, has_dashed_log, has_dashed_match,
    has_dashed_report, has_dashed_top, has_dashed_waivers, has_joined_letters, has_many_dumps,
    has_many_scopes, has_one_output_for_two, has_opposites, has_output_over_file, has_two_dumps,
    is_in_words, log_of, match_request_of, match_words_of, race_request_of, race_search_of,
    race_words_of, report_of, request_of, search_of, steps_of, until_of, wanted_of,
};
