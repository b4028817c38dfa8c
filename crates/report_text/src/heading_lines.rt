// The lines of a report's head before its variables, read.

ghost use Rattle.std.specs.Prelude.{◌≡◌, ℕ, ◌≤◌, List, true, IsTrue, ◌↔◌, codes, decimal};
ghost use Rattle.report_text.specs.Inner.Headings.{IsGrainIn, IsHeading, IsLabelLine, IsNumberLine, IsTop};
ghost use Rattle.report_text.specs.Inner.Headings.{AreViewsIn, IsToldIn, named_views_before, told_before, views_before};
ghost use Rattle.report_text.specs.Inner.Headings.{grain_before, heading_before, label_line_before};
ghost use Rattle.report_text.specs.Inner.Headings as headings;
ghost use Rattle.report_text.specs.Inner.Places.{HasSpelled, HasTaken, Stands, TakesEach, TakesSpelled, Took};
ghost use Rattle.report_text.specs.ReportText as spelled;
ghost use Rattle.vwords.specs.Names.{has_letters_of_name};
ghost use Rattle.report_text.specs.declared.report.Version as versions;
ghost use Rattle.report_text.specs.declared.report.Version.TheVariants.{One, Two, Three};
ghost use Rattle.report_text.specs.declared.report.Outcome as outcomes;
ghost use Rattle.sched_core.specs.declared.setting.Grain as grains;
ghost use Rattle.sched_core.specs.declared.setting.Grain.TheVariants.{Process};
ghost use Rattle.report_text.specs.WellFormed.{HasViews};

use crate::letters::is_name;
use crate::reader::Reader;
use crate::report::{Outcome, Version};
use crate::words::{departures_of, grain_of, looked_of, outcome_of};
use sched_core::setting::{Departures, Grain, Looked};
use std::marker::Model;

/// The last time limit.
const LAST_UNTIL: u64 = 4_611_686_018_427_387_903;

/// The most departures.
const MOST_DEPARTURES: u64 = 4;

/// The most steps.
const MOST_STEPS: u64 = 1_000_000;

/// What the head of a report tells before its variables.
#[derive(Drop)]
pub struct Heading<'a> {
    pub version: Version,
    pub top: &'a [u8],
    pub until: u64,
    pub depart: u64,
    pub steps: u64,
    pub grain: Grain,
    pub departures: Departures,
    pub looked: Looked,
    pub outcome: Outcome,
}

impl<'a> Model for Heading<'a> {
    ghost use Rattle.report_text.specs.Inner.Headings as headings;

    ghost Value = { headings.Heading };

    ghost view = { λ h. record {
      version = h.version;
      top = h.top.now;
      until = h.until;
      depart = h.depart;
      steps = h.steps;
      grain = h.grain;
      departures = h.departures;
      looked = h.looked;
      outcome = h.outcome;
    } };
}

// Whether the number is from low to high.
fn is_within(n: u64, low: u64, high: u64) -> bool
    ensures { IsTrue result ↔ ((low ≤ n) × (n ≤ high)) }
{
    low <= n && n <= high
}

// Takes a line of this label and a value.
fn label_line<'a>(reader: &mut Reader<'a>, label: &[u8]) -> &'a [u8]
    ensures read { HasTaken reader.old reader.new (IsLabelLine label.now) result.now }
    ensures each { TakesEach reader.old reader.new (IsLabelLine label.now) result.now }
{
    reader.prefix(label);
    reader.word(b'\n')
}

/// Takes a line of this label and a number from low to high.
pub fn number_line<'a>(reader: &mut Reader<'a>, label: &[u8], low: u64, high: u64) -> u64
    ensures read { HasTaken reader.old reader.new (IsNumberLine label.now low high) result }
    ensures each { TakesEach reader.old reader.new (IsNumberLine label.now low high) result }
{
    reader.prefix(label);
    let n = reader.number(b'\n');
    reader.require(is_within(n, low, high));
    n
}

// Takes the line of the version.
fn version_line(reader: &mut Reader) -> Version
    ensures read { HasTaken reader.old reader.new headings.IsVersionLine result }
    ensures each { TakesEach reader.old reader.new headings.IsVersionLine result }
{
    let n = number_line(reader, b"vrace report ", 1, 3);
    if n == 1 {
        return Version::One;
    }
    if n == 2 {
        return Version::Two;
    }
    Version::Three
}

// Takes the line of the top.
fn top_line<'a>(reader: &mut Reader<'a>) -> &'a [u8]
    ensures read { HasSpelled reader.old reader.new IsTop (label_line_before (codes "top ")) result.now }
    ensures each { TakesSpelled reader.old reader.new IsTop (label_line_before (codes "top ")) result.now }
{
    let top = label_line(reader, b"top ");
    reader.require(is_name(top));
    top
}

// Takes the line of the grain.
fn named_grain(reader: &mut Reader) -> Grain
    ensures read { HasTaken reader.old reader.new headings.IsGrainLine result }
    ensures each { TakesEach reader.old reader.new headings.IsGrainLine result }
{
    match grain_of(label_line(reader, b"grain ")) {
        Some(grain) => grain,
        None => {
            reader.require(false);
            Grain::Process
        }
    }
}

// Takes the line of the grain, where this version has one; else the grain is process.
fn grain_line(reader: &mut Reader, version: Version) -> Grain
    ensures read { HasSpelled reader.old reader.new (IsGrainIn version) (grain_before version)
        result }
    ensures each { TakesSpelled reader.old reader.new (IsGrainIn version) (grain_before version)
        result }
{
    match version {
        Version::One => Grain::Process,
        Version::Two => named_grain(reader),
        Version::Three => named_grain(reader),
    }
}

// Takes the line of the departures.
fn departures_line(reader: &mut Reader) -> Departures
    ensures read { HasTaken reader.old reader.new headings.IsDeparturesLine result }
    ensures each { TakesEach reader.old reader.new headings.IsDeparturesLine result }
{
    match departures_of(label_line(reader, b"departures ")) {
        Some(departures) => departures,
        None => {
            reader.require(false);
            Departures::Taking
        }
    }
}

// Takes the line of what is looked at.
fn looked_line(reader: &mut Reader) -> Looked
    ensures read { HasTaken reader.old reader.new headings.IsLookedLine result }
    ensures each { TakesEach reader.old reader.new headings.IsLookedLine result }
{
    match looked_of(label_line(reader, b"looked ")) {
        Some(looked) => looked,
        None => {
            reader.require(false);
            Looked::Values
        }
    }
}

// Takes the lines that tell which departures there are and what is looked at.
fn named_views(reader: &mut Reader) -> (Departures, Looked)
    ensures read { HasSpelled reader.old reader.new (AreViewsIn Three) named_views_before result }
    ensures each { TakesSpelled reader.old reader.new (AreViewsIn Three) named_views_before result }
{
    let departures = departures_line(reader);
    let looked = looked_line(reader);
    (departures, looked)
}

// Takes these lines, where this version has them; else departures take, and values are looked at.
fn view_lines(reader: &mut Reader, version: Version) -> (Departures, Looked)
    ensures read { HasSpelled reader.old reader.new (AreViewsIn version) (views_before version)
        result }
    ensures each { TakesSpelled reader.old reader.new (AreViewsIn version) (views_before version)
        result }
{
    match version {
        Version::One => (Departures::Taking, Looked::Values),
        Version::Two => (Departures::Taking, Looked::Values),
        Version::Three => named_views(reader),
    }
}

// Takes the line of the outcome.
fn outcome_line(reader: &mut Reader) -> Outcome
    ensures read { HasTaken reader.old reader.new headings.IsOutcomeLine result }
    ensures each { TakesEach reader.old reader.new headings.IsOutcomeLine result }
{
    match outcome_of(label_line(reader, b"state ")) {
        Some(outcome) => outcome,
        None => {
            reader.require(false);
            Outcome::Exhausted
        }
    }
}

// Whether a version before the third couldn't tell these.
fn are_new(departures: Departures, looked: Looked, outcome: Outcome) -> bool
    ensures { IsTrue result ↔ HasViews Three departures looked outcome }
{
    departures == Departures::Holding || looked == Looked::Lines || outcome == Outcome::CutTime
}

// Whether each version before the third tells these.
fn are_old(departures: Departures, looked: Looked, outcome: Outcome) -> bool
    ensures { IsTrue result ↔ HasViews Two departures looked outcome }
{
    departures == Departures::Taking && looked == Looked::Values && outcome != Outcome::CutTime
}

// Whether this version tells these.
fn are_told(version: Version, departures: Departures, looked: Looked, outcome: Outcome) -> bool
    ensures { IsTrue result ↔ HasViews version departures looked outcome }
{
    match version {
        Version::One => are_old(departures, looked, outcome),
        Version::Two => are_old(departures, looked, outcome),
        Version::Three => are_new(departures, looked, outcome),
    }
}

// Takes the lines that tell which departures there are, what is looked at and how the exploration went.
fn told_lines(reader: &mut Reader, version: Version) -> (Departures, Looked, Outcome)
    ensures read { HasSpelled reader.old reader.new (IsToldIn version) (told_before version)
        result }
    ensures each { TakesSpelled reader.old reader.new (IsToldIn version) (told_before version)
        result }
{
    let (departures, looked) = view_lines(reader, version);
    let outcome = outcome_line(reader);
    reader.require(are_told(version, departures, looked, outcome));
    (departures, looked, outcome)
}

/// Takes the lines of the head before its variables.
pub fn read_heading<'a>(reader: &mut Reader<'a>) -> Heading<'a>
    ensures read { HasSpelled reader.old reader.new IsHeading heading_before result }
    ensures each { TakesSpelled reader.old reader.new IsHeading heading_before result }
{
    let version = version_line(reader);
    let top = top_line(reader);
    let until = number_line(reader, b"until ", 0, LAST_UNTIL);
    let depart = number_line(reader, b"depart ", 0, MOST_DEPARTURES);
    let steps = number_line(reader, b"steps ", 1, MOST_STEPS);
    let grain = grain_line(reader, version);
    let (departures, looked, outcome) = told_lines(reader, version);
    Heading {
        version,
        top,
        until,
        depart,
        steps,
        grain,
        departures,
        looked,
        outcome,
    }
}
