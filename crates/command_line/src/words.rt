// The words of a command line, by the rules of docs/LANGUAGE.md, "Commands".

use basis::NoMemory;
use clap::builder::ValueParser;
use clap::{Arg, ArgAction, ArgMatches, Command};
use sched_core::setting::{Departures, Grain, Looked};
use std::alloc::Global;
use std::slice;

const PAGES: &str =
    "Pages, in the folder docs: LANGUAGE.md (what is read, commands, limits), SCHEDULING.md (steps, choices, logs), RACES.md (races, reports), CI.md (statuses, waivers), FORMATS.md (dumps, lines, logs, reports, JSON, SARIF), FAULTS.md (numbers)

Exit status: 0 where all was done, of races and explore where nothing was missed and no race was found, of match where an order has the dump's values; 1 where races or explore found a race (of races one that isn't waived), no order has the dump's values, or something in a report isn't true; 2 where the call was refused, with one line on standard error (vrace explain NUMBER says what it means); 3 where races or explore found none and something was left unseen, or match didn't decide. Of several top modules races tells the worst: 2, then 1, then 3, then 0";

/// The version of the program.
pub const VERSION: &str = "0.1.0";

/// What is to be run, and how.
#[derive(Drop)]
pub struct Request<'a> {
    pub top: Option<&'a str>,
    /// The last time to which runs go, as it is written.
    pub until: Option<&'a str>,
    pub steps: u64,
    pub grain: Grain,
    pub departures: Departures,
    /// Whether a refusal of the files is told in words.
    pub in_words: bool,
    /// None: standard input.
    pub files: Vec<&'a str>,
}

// What an option takes.
#[derive(Clone, Copy)]
enum Takes {
    /// Nothing: it is there or it isn't.
    Nothing,
    /// A word, which help calls so.
    Word(&'static str),
    /// The same; it may be given more than once.
    Words(&'static str),
    /// A word that has to be given.
    Needed(&'static str),
    /// The same; it may be given more than once.
    NeededWords(&'static str),
    /// One of these words.
    One(&'static str, &'static [&'static str]),
    Number,
}

// An option, what it stands for where it isn't given, and what help says of it.
#[derive(Clone, Copy)]
struct Row {
    name: &'static str,
    takes: Takes,
    default: Option<&'static str>,
    help: &'static str,
}

const TOP: Row = Row {
    name: "top",
    takes: Takes::Word("N"),
    default: None,
    help: "The top module",
};

const UNTIL: Row = Row {
    name: "until",
    takes: Takes::Word("TIME"),
    default: Some("1000000"),
    help: "The latest time, in units of the precision, or with a unit, as 10us",
};

const DEPART: Row = Row {
    name: "depart",
    takes: Takes::Number,
    default: Some("1"),
    help: "The most departures from the default order, 0 to 4",
};

const GRAIN: Row = Row {
    name: "grain",
    takes: Takes::One("G", &["process", "statement"]),
    default: Some("process"),
    help: "How finely processes take turns",
};

const HOLD: Row = Row {
    name: "hold",
    takes: Takes::Nothing,
    default: None,
    help: "Departures may also hold back the processes that stand before the one that is taken",
};

const TAKING: Row = Row {
    name: "taking",
    takes: Takes::Nothing,
    default: None,
    help: "Departures only take a process; none holds back those that stand before it",
};

const IN_WORDS: Row = Row {
    name: "words",
    takes: Takes::Nothing,
    default: None,
    help: "Says in words what is refused, where, and what to write in its place",
};

const SECONDS: Row = Row {
    name: "seconds",
    takes: Takes::Number,
    default: None,
    help: "The most seconds before the search is cut; it then goes by time, and what it reports is whole up to where it came",
};

const PROGRESS: Row = Row {
    name: "progress",
    takes: Takes::Nothing,
    default: None,
    help: "Shows on standard error how far such a search has come; in a file or a pipe a line each ten seconds",
};

// Help on `--memory`.
const MEMORY: &str =
    "The most megabytes that states take, as the program counts them, before such a search is cut";

static REPLAY: [Row; 10] = [
    TOP,
    UNTIL,
    Row {
        name: "steps",
        takes: Takes::Number,
        default: Some("100000"),
        help: "The most steps of the run",
    },
    GRAIN,
    HOLD,
    Row {
        name: "log",
        takes: Takes::Word("L"),
        default: Some("-"),
        help: "The departures, as step:index joined by commas, or - for none; process/ or statement/ before it names the grain; \
            process-holding/ or statement-holding/ also says that departures may hold back",
    },
    Row {
        name: "lines",
        takes: Takes::Nothing,
        default: None,
        help: "Prints what $display, $write, $strobe and $monitor print, in place of the dump",
    },
    Row {
        name: "trace",
        takes: Takes::Nothing,
        default: None,
        help: "Prints the steps of the run, a line each, in place of the dump",
    },
    Row {
        name: "details",
        takes: Takes::Nothing,
        default: None,
        help: "With --trace: what each step reads, whom it wakes, and where the <= of an update stands",
    },
    IN_WORDS,
];

static EXPLORE: [Row; 13] = [
    TOP,
    UNTIL,
    DEPART,
    Row {
        name: "steps",
        takes: Takes::Number,
        default: Some("100000"),
        help: "The most steps of one run",
    },
    Row {
        name: "entries",
        takes: Takes::Number,
        default: None,
        help: "The most states that are visited before the search is cut; where nothing is said 100000, or any number where it \
            goes by time",
    },
    Row {
        name: "workers",
        takes: Takes::Number,
        default: Some("1"),
        help: "How many threads explore, 1 to 64",
    },
    GRAIN,
    HOLD,
    Row {
        name: "lines",
        takes: Takes::Nothing,
        default: None,
        help: "Compares the lines that slots print, too, in whichever order",
    },
    SECONDS,
    Row {
        name: "memory",
        takes: Takes::Number,
        default: None,
        help: MEMORY,
    },
    PROGRESS,
    IN_WORDS,
];

static RACES: [Row; 20] = [
    Row {
        name: "top",
        takes: Takes::Words("N"),
        default: None,
        help: "The top module; where it is given more than once, each is searched on its own",
    },
    Row {
        name: "until",
        takes: Takes::Word("TIME"),
        default: None,
        help: "The latest time, in units of the precision, or with a unit, s, ms, us, ns, ps or fs, as 10us; where nothing is said there \
            is none",
    },
    DEPART,
    Row {
        name: "steps",
        takes: Takes::Number,
        default: Some("1000000"),
        help: "The most steps of one run",
    },
    GRAIN,
    Row {
        name: "hold",
        takes: Takes::Nothing,
        default: None,
        help: "Departures may also hold back processes, as they may where nothing is said",
    },
    TAKING,
    Row {
        name: "lines",
        takes: Takes::Nothing,
        default: None,
        help: "Compares the lines that slots print, too, as it does where nothing is said",
    },
    Row {
        name: "values",
        takes: Takes::Nothing,
        default: None,
        help: "Compares values alone, and not the lines that slots print",
    },
    Row {
        name: "ignore-before",
        takes: Takes::Word("TIME"),
        default: None,
        help: "The time before which differences are only counted, in units of the precision, or with a unit, as 10us",
    },
    Row {
        name: "all",
        takes: Takes::Nothing,
        default: None,
        help: "Names all differences of each race",
    },
    Row {
        name: "format",
        takes: Takes::One("F", &["text", "json", "jsonl", "sarif"]),
        default: Some("text"),
        help: "How what was found is written",
    },
    Row {
        name: "waive",
        takes: Takes::Word("FILE"),
        default: None,
        help: "A file of waivers: races that may stay, which don't count for the exit status",
    },
    Row {
        name: "write-waivers",
        takes: Takes::Word("FILE"),
        default: None,
        help: "Writes a file of waivers of the races that were found, for --waive",
    },
    Row {
        name: "html",
        takes: Takes::Word("FILE"),
        default: None,
        help: "Writes a page for a browser: each race with the waveforms of both runs and the two statements",
    },
    Row {
        name: "write-vcd",
        takes: Takes::Word("FILE"),
        default: None,
        help: "Writes a value change dump of both runs of the first race, under the scopes default and departed",
    },
    Row {
        name: "vcd",
        takes: Takes::Word("FILE"),
        default: None,
        help: "The same, but not over a file that is no dump of vrace's",
    },
    SECONDS,
    Row {
        name: "memory",
        takes: Takes::Number,
        default: Some("2000"),
        help: MEMORY,
    },
    PROGRESS,
];

static MATCH: [Row; 12] = [
    Row {
        name: "vcd",
        takes: Takes::NeededWords("DUMP"),
        default: None,
        help: "The value change dump that another simulator wrote of these files; of two dumps it says whether one order has both",
    },
    Row {
        name: "scope",
        takes: Takes::Words("PATH=PATH"),
        default: None,
        help: "A scope of the dump, and the one of the files that it is compared with, as tb.dut=fifo_driven.dut; given twice, of each dump",
    },
    Row {
        name: "slot-depart",
        takes: Takes::Number,
        default: Some("2"),
        help: "The most departures in a slot, 0 to 4",
    },
    TOP,
    Row {
        name: "steps",
        takes: Takes::Number,
        default: Some("100000"),
        help: "The most steps of one slot",
    },
    Row {
        name: "entries",
        takes: Takes::Number,
        default: Some("100000"),
        help: "The most states of one slot, and the most runs that fit so far, before the search is cut",
    },
    GRAIN,
    TAKING,
    Row {
        name: "format",
        takes: Takes::One("F", &["text", "json"]),
        default: Some("text"),
        help: "How what was found is written",
    },
    SECONDS,
    Row {
        name: "memory",
        takes: Takes::Number,
        default: Some("2000"),
        help: MEMORY,
    },
    PROGRESS,
];

static DRIVE: [Row; 11] = [
    Row {
        name: "vcd",
        takes: Takes::Needed("DUMP"),
        default: None,
        help: "The value change dump that has the inputs of the module",
    },
    Row {
        name: "scope",
        takes: Takes::Word("PATH"),
        default: None,
        help: "The scope of the dump that has them, as tb.dut; where nothing is said, the one that has each of them",
    },
    Row {
        name: "top",
        takes: Takes::Word("N"),
        default: None,
        help: "The module that is driven; where nothing is said, the one that no other instantiates",
    },
    Row {
        name: "clock",
        takes: Takes::Words("NAME"),
        default: None,
        help: "An input that is a clock, beside those that are found: it is written by =, before the others of its time",
    },
    Row {
        name: "async",
        takes: Takes::Words("NAME"),
        default: None,
        help: "An input that is written by = in a process of its own, so that each order with the clocks is searched",
    },
    Row {
        name: "declared",
        takes: Takes::Words("NAME"),
        default: None,
        help: "An input whose first value stands in its declaration",
    },
    Row {
        name: "param",
        takes: Takes::Words("NAME=VALUE"),
        default: None,
        help: "The value of a parameter of the module, a number of Verilog",
    },
    Row {
        name: "from",
        takes: Takes::Word("TIME"),
        default: None,
        help: "The first time of the dump that is driven, in units of the precision, or with a unit, as 10us",
    },
    Row {
        name: "to",
        takes: Takes::Word("TIME"),
        default: None,
        help: "The last time of the dump that is driven",
    },
    Row {
        name: "steps",
        takes: Takes::Number,
        default: Some("10000000"),
        help: "The most steps of the default order that are compared with the dump; 0 compares nothing",
    },
    Row {
        name: "seconds",
        takes: Takes::Number,
        default: Some("10"),
        help: "The most seconds that comparing it may take; 0 compares nothing",
    },
];

static CHECK: [Row; 4] = [
    Row {
        name: "report",
        takes: Takes::Needed("REPORT"),
        default: None,
        help: "The file of the report",
    },
    Row {
        name: "until",
        takes: Takes::Word("TIME"),
        default: Some("4611686018427387903"),
        help: "The greatest time limit that the report may ask for, in units of the precision, or with a unit, as 10us",
    },
    Row {
        name: "steps",
        takes: Takes::Number,
        default: Some("1000000"),
        help: "The most steps of one run that the report may ask for",
    },
    IN_WORDS,
];

impl Takes {
    // What a use of the option does.
    fn action(&self) -> ArgAction {
        match self {
            Takes::Nothing => ArgAction::SetTrue,
            Takes::Words(_) | Takes::NeededWords(_) => ArgAction::Append,
            Takes::Word(_) | Takes::Needed(_) | Takes::One(_, _) | Takes::Number => ArgAction::Set,
        }
    }

    // What help calls its value.
    fn value_names(&'static self) -> &'static [&'static str] {
        match self {
            Takes::Nothing => &[],
            Takes::Word(name)
            | Takes::Words(name)
            | Takes::Needed(name)
            | Takes::NeededWords(name)
            | Takes::One(name, _) => slice::from_ref(name),
            Takes::Number => &["N"],
        }
    }

    // What its value has to be.
    fn parser(&self) -> ValueParser<'static> {
        match self {
            Takes::Nothing => ValueParser::Bool,
            Takes::Word(_) | Takes::Words(_) | Takes::Needed(_) | Takes::NeededWords(_) => {
                ValueParser::String
            }
            Takes::One(_, words) => ValueParser::Names(*words),
            Takes::Number => ValueParser::Unsigned(0, u64::MAX),
        }
    }

    // Whether it has to be given.
    fn is_needed(&self) -> bool {
        matches!(self, Takes::Needed(_) | Takes::NeededWords(_))
    }
}

// What the option takes.
fn taking<'a>(arg: Arg<'a>, takes: &'static Takes) -> Arg<'a> {
    arg.action(takes.action())
        .value_names(takes.value_names())
        .value_parser(takes.parser())
        .required(takes.is_needed())
}

// The option.
fn option<'a>(alloc: Global, row: &'static Row) -> Arg<'a> {
    let arg = Arg::new(alloc, row.name).long(row.name).help(row.help);
    let arg = taking(arg, &row.takes);
    match row.default {
        None => arg,
        Some(value) => arg.default_value(value),
    }
}

fn files<'a>(alloc: Global) -> Arg<'a> {
    Arg::new(alloc, "FILE")
        .num_args(0..)
        .action(ArgAction::Append)
        .help("Verilog files in order; none means standard input")
}

// The command of this name, with these options, and behind them the files.
fn command<'a>(
    alloc: Global,
    name: &'a str,
    about: &'a str,
    options: &'static [Row],
) -> Result<Command<'a>, NoMemory> {
    let mut command = Command::new(alloc, name).about(about);
    for row in options {
        command = command.arg(option(alloc, row))?;
    }
    Ok(command.arg(files(alloc))?)
}

// With such a command.
fn with_command<'a>(
    alloc: Global,
    all: Command<'a>,
    name: &'a str,
    about: &'a str,
    options: &'static [Row],
) -> Result<Command<'a>, NoMemory> {
    Ok(all.subcommand(command(alloc, name, about, options)?)?)
}

// The command that writes a testbench; its file is named behind a letter.
fn drive_command<'a>(alloc: Global) -> Result<Command<'a>, NoMemory> {
    let about =
        "Writes a testbench that drives a module as another simulator's dump has its inputs";
    let output = Arg::new(alloc, "output")
        .short('o')
        .value_names(&["FILE"])
        .help("The file that it is written to; where nothing is said, standard output");
    Ok(command(alloc, "drive", about, &DRIVE)?.arg(output)?)
}

// With that command.
fn with_drive<'a>(alloc: Global, all: Command<'a>) -> Result<Command<'a>, NoMemory> {
    Ok(all.subcommand(drive_command(alloc)?)?)
}

// With the commands that read files.
fn with_files_commands<'a>(alloc: Global, all: Command<'a>) -> Result<Command<'a>, NoMemory> {
    let check = "Runs each log of a report; says ok, or the first item that isn't true";
    let explore =
        "Runs every schedule of at most so many departures as --depart says; reports each end and each race";
    let matching =
        "Says which order of the files has the values of another simulator's dump, or that none has";
    let races = "Says which statements race, what differs then, and how to replay each order";
    let replay =
        "Writes the value change dump of the run under a log, or its printed lines, or its steps";
    let all = with_command(alloc, all, "check", check, &CHECK)?;
    let all = with_drive(alloc, all)?;
    let all = with_command(alloc, all, "explore", explore, &EXPLORE)?;
    let all = with_command(alloc, all, "match", matching, &MATCH)?;
    let all = with_command(alloc, all, "races", races, &RACES)?;
    with_command(alloc, all, "replay", replay, &REPLAY)
}

fn explain_command<'a>(alloc: Global) -> Result<Command<'a>, NoMemory> {
    let number = Arg::new(alloc, "NUMBER").help("The number, as E203; without it all are listed");
    let command = Command::new(alloc, "explain").about("Says what the number of a fault means");
    Ok(command.arg(number)?)
}

// With the command that says what the number of a fault means.
fn with_explain<'a>(alloc: Global, all: Command<'a>) -> Result<Command<'a>, NoMemory> {
    Ok(all.subcommand(explain_command(alloc)?)?)
}

// What help says of all commands, before them and behind them.
fn described<'a>(all: Command<'a>) -> Command<'a> {
    let about =
        "Runs Verilog in the orders that the standard leaves open, and finds races. Without words: replays standard input.";
    all.about(about).version(VERSION).after_help(PAGES)
}

/// The commands of the program.
pub fn commands<'a>(alloc: Global) -> Result<Command<'a>, NoMemory> {
    let all = Command::new(alloc, "vrace").bin_name("vrace")?;
    let all = with_files_commands(alloc, described(all).subcommand_required(true))?;
    with_explain(alloc, all)
}

// Whether a word reads as an option, as all do that begin with a minus but `-` itself.
fn is_option(word: &str) -> bool {
    word.len() > 1 && word.as_bytes()[0] == b'-'
}

// Whether the value of an option of this name, which clap takes behind `=` unasked, reads as an option itself.
fn is_dashed(matches: &ArgMatches<'_>, name: &str) -> bool {
    match matches.get_str(name) {
        None => false,
        Some(value) => is_option(value),
    }
}

// Whether one of the words reads as an option.
fn has_option(words: &[&str]) -> bool {
    for word in words {
        if is_option(word) {
            return true;
        }
    }
    false
}

/// Whether a word before `--` is one dash with several letters, as `-hold` is. No option is written so; `-h` at its front would print help.
pub fn has_joined_letters(words: &[String]) -> bool {
    for word in words {
        let letters = word.as_bytes();
        if letters == b"--".as_slice() {
            return false;
        }
        if letters.len() > 2 && letters[0] == b'-' && letters[1] != b'-' {
            return true;
        }
    }
    false
}

/// Whether a value of `--top` reads as an option.
pub fn has_dashed_top(matches: &ArgMatches<'_>) -> bool {
    match matches.get_strs("top") {
        None => false,
        Some(names) => has_option(names),
    }
}

/// Whether the value of `--log` reads as an option.
pub fn has_dashed_log(matches: &ArgMatches<'_>) -> bool {
    is_dashed(matches, "log")
}

/// The log that is to be replayed.
pub fn log_of<'a>(matches: &ArgMatches<'a>) -> &'a str {
    matches.get_str("log").unwrap_or("-")
}

/// Whether the value of `--report` reads as an option.
pub fn has_dashed_report(matches: &ArgMatches<'_>) -> bool {
    is_dashed(matches, "report")
}

/// What of a run is asked for.
#[derive(Clone, Copy, PartialEq, Eq)]
pub enum Wanted {
    /// The dump.
    Dump,
    /// The printed lines.
    Lines,
    /// The steps.
    Steps,
    /// The steps, each with what it reads and whom it wakes.
    Details,
}

/// What of the run is asked for in place of the dump, if one thing is; none where two are, or details of no trace.
pub fn wanted_of(matches: &ArgMatches<'_>) -> Option<Wanted> {
    let details = matches.get_flag("details");
    match (matches.get_flag("lines"), matches.get_flag("trace")) {
        (false, false) if !details => Some(Wanted::Dump),
        (true, false) if !details => Some(Wanted::Lines),
        (false, true) if details => Some(Wanted::Details),
        (false, true) => Some(Wanted::Steps),
        _ => None,
    }
}

/// The file of the report that is to be checked.
pub fn report_of<'a>(matches: &ArgMatches<'a>) -> &'a str {
    matches.get_str("report").unwrap_or("")
}

/// The value of `--until`.
pub fn until_of<'a>(matches: &ArgMatches<'a>) -> Option<&'a str> {
    matches.get_str("until")
}

/// Whether a refusal is told in words.
pub fn is_in_words(matches: &ArgMatches<'_>) -> bool {
    matches.get_flag("words")
}

/// The value of `--steps`.
pub fn steps_of(matches: &ArgMatches<'_>) -> u64 {
    matches.get_one::<u64>("steps").unwrap_or(0)
}

// All values of an argument.
fn values_of<'a>(
    alloc: Global,
    matches: &ArgMatches<'a>,
    name: &str,
) -> Result<Vec<&'a str>, NoMemory> {
    match matches.get_strs(name) {
        None => Ok(Vec::new(alloc)),
        Some(values) => Ok(Vec::from_slice(alloc, values)?),
    }
}

/// The files of Verilog.
pub fn files_of<'a>(alloc: Global, matches: &ArgMatches<'a>) -> Result<Vec<&'a str>, NoMemory> {
    values_of(alloc, matches, "FILE")
}

/// What an exploration by time may take: seconds, and megabytes of memory by its own count; and whether it shows how far it
/// has come.
#[derive(Clone, Copy)]
pub struct Allowance {
    pub seconds: Option<u64>,
    pub memory: Option<u64>,
    pub progress: bool,
}

// Whether the number, if there is one, is at most 1,000,000. With 0 the search is cut at its first state.
fn is_small(number: Option<u64>) -> bool {
    match number {
        None => true,
        Some(number) => number <= 1_000_000,
    }
}

impl Allowance {
    /// Whether its numbers are within their limits.
    pub fn is_within_limits(&self) -> bool {
        is_small(self.seconds) && is_small(self.memory)
    }
}

/// How far an exploration goes: departures, entries that cut it, how many workers there are, what is looked at, and what it may
/// take where it goes by time.
#[derive(Clone, Copy)]
pub struct Search {
    pub depart: u64,
    /// None: none is said.
    pub entries: Option<u64>,
    pub workers: u64,
    pub looked: Looked,
    pub allowance: Option<Allowance>,
}

// What an exploration by time may take, where one of these words asks for it.
fn allowance_of(matches: &ArgMatches<'_>) -> Option<Allowance> {
    let seconds = matches.get_one::<u64>("seconds");
    let memory = matches.get_one::<u64>("memory");
    let progress = matches.get_flag("progress");
    if seconds.is_none() && memory.is_none() && !progress {
        return None;
    }
    Some(Allowance {
        seconds,
        memory,
        progress,
    })
}

// What is looked at.
fn looked_of(matches: &ArgMatches<'_>) -> Looked {
    if matches.get_flag("lines") {
        Looked::Lines
    } else {
        Looked::Values
    }
}

/// How far the words after `explore` ask to go.
pub fn search_of(matches: &ArgMatches<'_>) -> Search {
    Search {
        depart: matches.get_one::<u64>("depart").unwrap_or(0),
        entries: matches.get_one::<u64>("entries"),
        workers: matches.get_one::<u64>("workers").unwrap_or(0),
        looked: looked_of(matches),
        allowance: allowance_of(matches),
    }
}

/// What a search for races asks for beside its machine: the top modules, none where none is named; the last time to which runs go, and the
/// first of which differences are told; whether all are named, how what was found is written, the file of the waivers, and the files that
/// waivers, a page and a dump are written to.
#[derive(Drop)]
pub struct RaceWords<'a> {
    pub tops: Vec<&'a str>,
    pub until: Option<&'a str>,
    pub from: Option<&'a str>,
    pub all: bool,
    pub format: Option<&'a str>,
    pub waive: Option<&'a str>,
    pub write_waivers: Option<&'a str>,
    pub html: Option<&'a str>,
    pub dump: Option<&'a str>,
    /// Whether that is named by `--vcd`, which writes over no file but a dump of the program.
    pub over_dumps_alone: bool,
}

/// Whether the value of an option that names a file of waivers reads as an option.
pub fn has_dashed_waivers(matches: &ArgMatches<'_>) -> bool {
    is_dashed(matches, "waive")
        || is_dashed(matches, "write-waivers")
        || is_dashed(matches, "html")
        || is_dashed(matches, "write-vcd")
        || is_dashed(matches, "vcd")
}

/// Whether words after `races` take back what others ask for.
pub fn has_opposites(matches: &ArgMatches<'_>) -> bool {
    matches.get_flag("hold") && matches.get_flag("taking")
        || matches.get_flag("lines") && matches.get_flag("values")
}

/// Whether the dump is named by two options.
pub fn has_two_dumps(matches: &ArgMatches<'_>) -> bool {
    matches.get_str("write-vcd").is_some() && matches.get_str("vcd").is_some()
}

// The file of the dump that `races` writes.
fn dump_of<'a>(matches: &ArgMatches<'a>) -> Option<&'a str> {
    match matches.get_str("write-vcd") {
        None => matches.get_str("vcd"),
        named => named,
    }
}

// Whether the word stands among these.
fn is_among(words: &[&str], word: &str) -> bool {
    for other in words {
        if *other == word {
            return true;
        }
    }
    false
}

// Whether one of the files that are read has this name.
fn is_over_file(matches: &ArgMatches<'_>, name: Option<&str>) -> bool {
    match (name, matches.get_strs("FILE")) {
        (Some(name), Some(files)) => is_among(files, name),
        _ => false,
    }
}

/// Whether a file that is written would take the place of one that is read.
pub fn has_output_over_file(matches: &ArgMatches<'_>) -> bool {
    is_over_file(matches, matches.get_str("write-waivers"))
        || is_over_file(matches, matches.get_str("html"))
        || is_over_file(matches, dump_of(matches))
}

// Whether both are there and one name.
fn are_one_name(one: Option<&str>, other: Option<&str>) -> bool {
    match (one, other) {
        (Some(name), Some(same)) => name == same,
        _ => false,
    }
}

/// Whether two files that are written would be one.
pub fn has_one_output_for_two(matches: &ArgMatches<'_>) -> bool {
    let (page, waivers) = (matches.get_str("html"), matches.get_str("write-waivers"));
    let dump = dump_of(matches);
    are_one_name(page, dump) || are_one_name(page, waivers) || are_one_name(dump, waivers)
}

/// What the words after `races` ask for alone.
pub fn race_words_of<'a>(
    alloc: Global,
    matches: &ArgMatches<'a>,
) -> Result<RaceWords<'a>, NoMemory> {
    Ok(RaceWords {
        tops: values_of(alloc, matches, "top")?,
        until: matches.get_str("until"),
        from: matches.get_str("ignore-before"),
        all: matches.get_flag("all"),
        format: matches.get_str("format"),
        waive: matches.get_str("waive"),
        write_waivers: matches.get_str("write-waivers"),
        html: matches.get_str("html"),
        dump: dump_of(matches),
        over_dumps_alone: matches.get_str("vcd").is_some(),
    })
}

/// How far the words after `races` ask to go: by time, so by one worker.
pub fn race_search_of(matches: &ArgMatches<'_>) -> Search {
    Search {
        depart: matches.get_one::<u64>("depart").unwrap_or(0),
        entries: None,
        workers: 1,
        looked: if matches.get_flag("values") {
            Looked::Values
        } else {
            Looked::Lines
        },
        allowance: allowance_of(matches),
    }
}

// What the words after `races` and `match` say of departures.
fn race_departures_of(matches: &ArgMatches<'_>) -> Departures {
    if matches.get_flag("taking") {
        Departures::Taking
    } else {
        Departures::Holding
    }
}

/// A dump that `match` reads, and a scope of it with the one of the files that it is compared with.
#[derive(Clone, Copy)]
pub struct DumpWords<'a> {
    pub dump: &'a str,
    pub scope: Option<&'a str>,
}

/// What the words after `match` ask for beside its machine: the dump, and the one that it is compared with; how many departures a slot may
/// have, how many states, what the search may take, and how what was found is written.
#[derive(Clone, Copy)]
pub struct MatchWords<'a> {
    pub first: DumpWords<'a>,
    pub second: Option<DumpWords<'a>>,
    pub slot_depart: u64,
    pub entries: u64,
    pub allowance: Allowance,
    pub format: Option<&'a str>,
}

/// Whether a value of `--vcd` or of `--scope` of `match` reads as an option.
pub fn has_dashed_match(matches: &ArgMatches<'_>) -> bool {
    has_dashed(matches, "vcd") || has_dashed(matches, "scope")
}

// How often an option was given.
fn count_of(matches: &ArgMatches<'_>, name: &str) -> usize {
    match matches.get_strs(name) {
        None => 0,
        Some(values) => values.len(),
    }
}

/// Whether `match` is given more than two dumps.
pub fn has_many_dumps(matches: &ArgMatches<'_>) -> bool {
    count_of(matches, "vcd") > 2
}

/// Whether it is given more scopes than dumps.
pub fn has_many_scopes(matches: &ArgMatches<'_>) -> bool {
    count_of(matches, "scope") > count_of(matches, "vcd")
}

// The value of this place of an option; where fewer are given, the last.
fn value_at<'a>(matches: &ArgMatches<'a>, name: &str, place: usize) -> Option<&'a str> {
    let values = matches.get_strs(name)?;
    let last = values.len().saturating_sub(1);
    values.get(place.min(last)).copied()
}

// The dump of this place. One scope is of all dumps.
fn dump_at<'a>(matches: &ArgMatches<'a>, place: usize) -> DumpWords<'a> {
    DumpWords {
        dump: value_at(matches, "vcd", place).unwrap_or(""),
        scope: value_at(matches, "scope", place),
    }
}

/// What the words after `match` ask for alone.
pub fn match_words_of<'a>(matches: &ArgMatches<'a>) -> MatchWords<'a> {
    MatchWords {
        first: dump_at(matches, 0),
        second: if count_of(matches, "vcd") > 1 {
            Some(dump_at(matches, 1))
        } else {
            None
        },
        slot_depart: matches.get_one::<u64>("slot-depart").unwrap_or(0),
        entries: matches.get_one::<u64>("entries").unwrap_or(0),
        allowance: Allowance {
            seconds: matches.get_one::<u64>("seconds"),
            memory: matches.get_one::<u64>("memory"),
            progress: matches.get_flag("progress"),
        },
        format: matches.get_str("format"),
    }
}

/// What the words after `drive` ask for: the dump and the scope in it, the module, its inputs that are clocks, those that have a process of
/// their own and those that are declared with a value, values of parameters as `NAME=VALUE`, the times between which the dump is driven, how many
/// steps and seconds the comparison with the dump may take, and the file that is written.
#[derive(Drop)]
pub struct DriveWords<'a> {
    pub dump: &'a str,
    pub scope: Option<&'a str>,
    pub top: Option<&'a str>,
    pub clocks: Vec<&'a str>,
    pub alone: Vec<&'a str>,
    pub declared: Vec<&'a str>,
    pub parameters: Vec<&'a str>,
    pub from: Option<&'a str>,
    pub to: Option<&'a str>,
    pub steps: u64,
    pub seconds: u64,
    pub output: Option<&'a str>,
    /// None: standard input.
    pub files: Vec<&'a str>,
}

// Whether a value of an option that may be given more than once reads as an option.
fn has_dashed(matches: &ArgMatches<'_>, name: &str) -> bool {
    match matches.get_strs(name) {
        None => false,
        Some(values) => has_option(values),
    }
}

/// Whether a value of an option of `drive` reads as an option.
pub fn has_dashed_drive(matches: &ArgMatches<'_>) -> bool {
    is_dashed(matches, "vcd")
        || is_dashed(matches, "scope")
        || is_dashed(matches, "top")
        || is_dashed(matches, "from")
        || is_dashed(matches, "to")
        || is_dashed(matches, "output")
        || has_dashed(matches, "clock")
        || has_dashed(matches, "async")
        || has_dashed(matches, "declared")
        || has_dashed(matches, "param")
}

/// What the words after `drive` ask for.
pub fn drive_words_of<'a>(
    alloc: Global,
    matches: &ArgMatches<'a>,
) -> Result<DriveWords<'a>, NoMemory> {
    Ok(DriveWords {
        dump: matches.get_str("vcd").unwrap_or(""),
        scope: matches.get_str("scope"),
        top: matches.get_str("top"),
        clocks: values_of(alloc, matches, "clock")?,
        alone: values_of(alloc, matches, "async")?,
        declared: values_of(alloc, matches, "declared")?,
        parameters: values_of(alloc, matches, "param")?,
        from: matches.get_str("from"),
        to: matches.get_str("to"),
        steps: steps_of(matches),
        seconds: matches.get_one::<u64>("seconds").unwrap_or(0),
        output: matches.get_str("output"),
        files: files_of(alloc, matches)?,
    })
}

/// What the words after `match` ask for, with no limit of time.
pub fn match_request_of<'a>(
    alloc: Global,
    matches: &ArgMatches<'a>,
) -> Result<Request<'a>, NoMemory> {
    request_in(alloc, matches, None, race_departures_of(matches), true)
}

/// What the words after `races` ask for, but for the time and the top modules.
pub fn race_request_of<'a>(
    alloc: Global,
    matches: &ArgMatches<'a>,
) -> Result<Request<'a>, NoMemory> {
    request_in(alloc, matches, None, race_departures_of(matches), true)
}

// Which departures there are.
fn departures_of(matches: &ArgMatches<'_>) -> Departures {
    if matches.get_flag("hold") {
        Departures::Holding
    } else {
        Departures::Taking
    }
}

/// What the words after `replay` and `explore` ask for alike.
pub fn request_of<'a>(alloc: Global, matches: &ArgMatches<'a>) -> Result<Request<'a>, NoMemory> {
    let in_words = is_in_words(matches);
    request_in(
        alloc,
        matches,
        until_of(matches),
        departures_of(matches),
        in_words,
    )
}

// What is to be run, up to this time, with these departures, and whether a refusal is told in words.
fn request_in<'a>(
    alloc: Global,
    matches: &ArgMatches<'a>,
    until: Option<&'a str>,
    departures: Departures,
    in_words: bool,
) -> Result<Request<'a>, NoMemory> {
    let files = files_of(alloc, matches)?;
    let grain = match matches.get_str("grain") {
        Some("statement") => Grain::Statement,
        _ => Grain::Process,
    };
    Ok(Request {
        top: matches.get_str("top"),
        until,
        steps: steps_of(matches),
        grain,
        departures,
        in_words,
        files,
    })
}
