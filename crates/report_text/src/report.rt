// A report of an exploration (docs/FORMATS.md, "Reports").

use sched_core::Log;
use sched_core::bag::Bag;
use sched_core::end::Cause;
use sched_core::setting::{Departures, Grain, Looked};
use std::marker::Model;
use thiserror::Error;

/// The version of a report's text. Version 1 has no line for the grain, which is process. Version 3 tells which departures
/// there are and what is looked at, and is that of an exploration that was cut for time; in the others departures take and
/// values are looked at.
#[derive(Clone, Copy, PartialEq, Eq)]
pub enum Version {
    One,
    Two,
    Three,
}

/// How an exploration went: nothing within its limits was missed, or why it stopped short.
#[derive(Clone, Copy, PartialEq, Eq)]
pub enum Outcome {
    Exhausted,
    CutMemory,
    CutEntries,
    CutSteps,
    CutTime,
}

/// A variable: its name, with the names of its scopes before it, joined by dots; and its width in bits.
#[derive(Drop)]
pub struct Column {
    pub name: Vec<u8>,
    pub width: u32,
}

impl Model for Column {
    ghost use Rattle.report_text.specs.Report as reports;

    ghost Value = { reports.Column };

    ghost view = { λ c. record { name = c.name.items; width = c.width } };
}

/// An end that runs come to: its time, in units of the precision, its cause, a log that leads there, how many bytes the
/// dump of that run has, the line that tells the values of all variables, and where lines are looked at those that its last
/// slot printed.
#[derive(Drop)]
pub struct End {
    pub time: u64,
    pub cause: Cause,
    pub log: Log,
    pub bytes: u64,
    pub line: Vec<u8>,
    pub printed: Option<Bag>,
}

impl Model for End {
    ghost use Rattle.report_text.specs.Report as reports;

    ghost Value = { reports.End };

    ghost view = { λ e. record {
      time = e.time;
      cause = e.cause;
      log = e.log;
      bytes = e.bytes;
      line = e.line.items;
      printed = e.printed;
    } };
}

/// A value that a variable has at the end of a slot, as its digits, leftmost first, and the log of a run that shows it.
#[derive(Drop)]
pub struct RaceValue {
    pub value: Vec<u8>,
    pub log: Log,
}

impl Model for RaceValue {
    ghost use Rattle.std.specs.Prelude.{ℕ, List};

    ghost Value = { List ℕ × List (ℕ × ℕ) };

    ghost view = { λ s. (s.value.items, s.log) };
}

/// A race: two or more values of one variable, by its number, at the end of the slot of one time.
#[derive(Drop)]
pub struct Race {
    pub time: u64,
    pub variable: usize,
    pub values: Vec<RaceValue>,
}

impl Model for Race {
    ghost use Rattle.report_text.specs.Report as reports;

    ghost Value = { reports.Race };

    ghost view = { λ r. record { time = r.time; variable = r.variable; values = r.values.items } };
}

/// The lines that a slot printed, and the log of a run that shows it.
#[derive(Drop)]
pub struct PrintedLines {
    pub lines: Bag,
    pub log: Log,
}

impl Model for PrintedLines {
    ghost use Rattle.std.specs.Prelude.{ℕ, List};

    ghost Value = { List (List ℕ) × List (ℕ × ℕ) };

    ghost view = { λ s. (s.lines, s.log) };
}

/// A race of lines: the slot of one time printed two or more lists of lines.
#[derive(Drop)]
pub struct LineRace {
    pub time: u64,
    pub sides: Vec<PrintedLines>,
}

impl Model for LineRace {
    ghost use Rattle.report_text.specs.Report as reports;

    ghost Value = { reports.LineRace };

    ghost view = { λ r. record { time = r.time; sides = r.sides.items } };
}

/// A report, without the dumps of its ends. A clause sees it as the record `Report` of specs/Report.antt.
#[derive(Drop)]
pub struct Report {
    pub version: Version,
    pub top: Vec<u8>,
    pub until: u64,
    pub depart: u32,
    pub steps: u32,
    pub grain: Grain,
    pub departures: Departures,
    pub looked: Looked,
    pub outcome: Outcome,
    pub variables: Vec<Column>,
    pub ends: Vec<End>,
    pub races: Vec<Race>,
    pub line_races: Vec<LineRace>,
}

impl Model for Report {
    ghost use Rattle.report_text.specs.Report as reports;

    ghost Value = { reports.Report };

    ghost view = { λ r. record {
      version = r.version;
      top = r.top.items;
      until = r.until;
      depart = r.depart;
      steps = r.steps;
      grain = r.grain;
      departures = r.departures;
      looked = r.looked;
      outcome = r.outcome;
      variables = r.variables.items;
      ends = r.ends.items;
      races = r.races.items;
      line_races = r.line_races.items;
    } };
}

/// A report and the dumps of its ends, in their order.
#[derive(Drop)]
pub struct ReportWithDumps<'a> {
    pub report: Report,
    pub dumps: Vec<&'a [u8]>,
}

impl<'a> Model for ReportWithDumps<'a> {
    ghost use Rattle.std.specs.Prelude.{ℕ, List, map};
    ghost use Rattle.report_text.specs.Report as reports;

    ghost Value = { reports.Report × List (List ℕ) };

    ghost view = { λ t. (t.report, map (λ dump. dump.now) t.dumps.items) };
}

/// Why a text was not read as a report: it is that of none (E501).
#[derive(Clone, Copy, Debug, PartialEq, Eq, Error)]
pub enum ReportFault {
    #[error("the text is that of no report")]
    IllFormed,
}
