// The page of all races.

use crate::figure::put_figure;
use crate::files::Files;
use crate::html::{Piece, put, put_all};
use crate::listing::{Subject, put_line_of, slot_of};
use crate::printed::put_printed;
use crate::signals::signals_of;
use crate::source::{put_heading, put_sources};
use crate::style::{END, HEAD};
use crate::table::put_table;
use crate::time::put_at;
use basis::NoMemory;
use finding_text::{START, START_CURE, Sources, named_instances};
use race_findings::{
    Aspect, Difference, Finding, RacingStatement, Setting, Statements, is_first_at_start,
};
use run_pair::{Marked, Runs};
use std::alloc::Global;
use vdesign::design::Design;
use vmachine::Machine;

/// What a page tells of a top module: of which runs, the machine that makes them, the files that they are of, what was found, the places there
/// of the findings that are told as races, how many these are in words, and what is told of each in words, in their order.
#[derive(Clone, Copy)]
pub struct TopRaces<'a> {
    pub setting: Setting<'a>,
    pub machine: &'a Machine,
    pub sources: &'a Sources<'a>,
    pub findings: &'a [Finding],
    pub races: &'a [usize],
    pub summary: &'a [u8],
    pub words: &'a [Vec<u8>],
}

impl<'a> TopRaces<'a> {
    // The finding of this place, and what is told of it as the race of this index.
    fn race(&self, index: usize, place: usize) -> Option<(&'a Finding, &'a [u8])> {
        Some((self.findings.get(place)?, self.words.get(index)?.as_slice()))
    }
}

/// A page on its way: what was told so far, and of how many races. A run is followed for at most so many steps.
#[derive(Drop)]
pub struct Page {
    alloc: Global,
    text: Vec<u8>,
    races: u64,
    steps: u32,
}

// What the shapes of the waveforms mean.
const LEGEND: &str =
    "<p>In the waveforms each column is the end of a slot, not to scale; the shaded one is the slot that the race is told of, and \
    what differs is marked. A line is one bit, a box a vector, a dashed box has bits that are x or z.</p>\n";

// What stands before the line feed at this place, and what after it.
fn cut_at(text: &[u8], at: usize) -> (&[u8], &[u8]) {
    match text.split_at_checked(at) {
        None => (text, &[]),
        Some((line, rest)) => (line, rest.get(1..).unwrap_or(&[])),
    }
}

// What stands before the first line feed, and what after it.
fn first_line(text: &[u8]) -> (&[u8], &[u8]) {
    for (at, byte) in text.iter().enumerate() {
        if *byte == b'\n' {
            return cut_at(text, at);
        }
    }
    (text, &[])
}

// The time of the slot in which both runs differ, where one does.
fn time_of(difference: &Difference) -> Option<u64> {
    match &difference.aspect {
        Aspect::Variable(_) => Some(difference.time),
        Aspect::Lines => Some(difference.time),
        Aspect::Ends(_) => None,
    }
}

// The step of the statement, in the run under the log or in its parent.
fn step_in(racing: &RacingStatement, in_run: bool) -> Option<u32> {
    if in_run {
        racing.in_run
    } else {
        racing.in_parent
    }
}

// The steps of the two statements that race, in the run under the log or in its parent.
fn marked_in(statements: &Option<Statements>, in_run: bool) -> Marked {
    match statements {
        None => Marked {
            one: None,
            other: None,
        },
        Some(both) => Marked {
            one: step_in(&both.second, in_run),
            other: step_in(&both.first, in_run),
        },
    }
}

// ` in tb.u1`, where the instance is to be named.
fn put_instance(page: &mut Vec<u8>, instance: Option<&[u8]>) -> Result<(), NoMemory> {
    match instance {
        None => Ok(()),
        Some(path) => put_all(page, &[Piece::Mark(" in "), Piece::Text(path)]),
    }
}

// `, tb.v:10 and tb.v:12`: the lines of both statements, where they are known; with their instances, where both are one line of two.
fn put_lines(
    page: &mut Vec<u8>,
    design: &Design,
    files: &Files<'_>,
    finding: &Finding,
) -> Result<(), NoMemory> {
    let Some(statements) = &finding.statements else {
        return Ok(());
    };
    let places = (
        files.place(statements.first.statement),
        files.place(statements.second.statement),
    );
    let (Some(one), Some(other)) = places else {
        return Ok(());
    };
    let (first, second) = named_instances(design, files.sources(), statements);
    put_line_of(page, ", ", files, one)?;
    put_instance(page, first)?;
    put_line_of(page, " and ", files, other)?;
    put_instance(page, second)
}

// A race in the list: a link to the race of this number, and the lines of both statements.
fn put_item(
    page: &mut Vec<u8>,
    number: u64,
    text: &[u8],
    finding: &Finding,
    design: &Design,
    files: &Files<'_>,
) -> Result<(), NoMemory> {
    put_all(
        page,
        &[
            Piece::Mark("<li><a href=\"#race-"),
            Piece::Number(number),
            Piece::Mark("\">"),
            Piece::Text(text),
            Piece::Mark("</a>"),
        ],
    )?;
    put_lines(page, design, files, finding)?;
    put(page, "</li>\n")
}

// The list of races, the first of which has this number: of each the first line that is told of it, as a link, and the lines of both
// statements.
fn put_list(
    page: &mut Vec<u8>,
    first: u64,
    top: &TopRaces<'_>,
    files: &Files<'_>,
) -> Result<(), NoMemory> {
    put(page, "<nav aria-label=\"races\">\n<ul>\n")?;
    for (index, place) in top.races.iter().enumerate() {
        if let Some((finding, words)) = top.race(index, *place) {
            let number = first.saturating_add(index as u64);
            put_opening(page, top.findings, *place)?;
            let line = first_line(words).0;
            put_item(page, number, line, finding, top.setting.design, files)?;
        }
    }
    put(page, "</ul>\n")?;
    put_closing(page, top.findings)?;
    put(page, "</nav>\n")
}

// What stands in the list before the race of this place: a heading, where it is the first of those that show at time 0.
fn put_opening(page: &mut Vec<u8>, races: &[Finding], place: usize) -> Result<(), NoMemory> {
    if !is_first_at_start(races, place) {
        return Ok(());
    }
    put_all(
        page,
        &[
            Piece::Mark("</ul>\n<p>"),
            Piece::Text(START),
            Piece::Mark("</p>\n<ul>\n"),
        ],
    )
}

// How the races that show at time 0 are mostly cured, where there are such: the last one is.
fn put_closing(page: &mut Vec<u8>, races: &[Finding]) -> Result<(), NoMemory> {
    match races.last() {
        Some(finding) if finding.is_at_start() => put_all(
            page,
            &[
                Piece::Mark("<p>"),
                Piece::Text(START_CURE),
                Piece::Mark("</p>\n"),
            ],
        ),
        _ => Ok(()),
    }
}

// `<h1>Races of tb</h1>`, and the begin of what is told first.
fn put_title(page: &mut Vec<u8>, top: &[u8]) -> Result<(), NoMemory> {
    put_all(
        page,
        &[
            Piece::Mark("<h1>Races of "),
            Piece::Text(top),
            Piece::Mark("</h1>\n<p>"),
        ],
    )
}

// What the names of the runs mean, and the shapes of the waveforms.
const NAMES: &str =
    "<p><em>departed</em> is the run in the other order, <em>default</em> the one that it departs from. A time without a unit is in \
    ns.</p>\n";

// The heading of a race, as the first line of what is told of it, and the other lines.
fn put_words(page: &mut Vec<u8>, words: &[u8]) -> Result<(), NoMemory> {
    let (head, rest) = first_line(words);
    put_all(
        page,
        &[
            Piece::Mark("<h2>"),
            Piece::Text(head),
            Piece::Mark("</h2>\n<pre tabindex=\"0\">"),
            Piece::Text(rest),
            Piece::Mark("</pre>\n"),
        ],
    )
}

// What both runs do, as waveforms, as a table, and step by step.
fn put_runs(
    alloc: Global,
    page: &mut Vec<u8>,
    setting: Setting<'_>,
    files: &Files<'_>,
    finding: &Finding,
    runs: &Runs,
) -> Result<(), NoMemory> {
    let design = setting.design;
    let signals = signals_of(alloc, finding, runs, design.variables.len())?;
    put_at(
        page,
        design,
        "<h3>The waveforms round the slot at ",
        runs.time,
        "</h3>\n",
    )?;
    put_figure(alloc, page, runs, design, &signals)?;
    put_table(alloc, page, runs, design, &signals.shown)?;
    put_printed(page, design, &finding.first, runs)?;
    let subject = Subject {
        alloc,
        setting,
        files,
        statements: &finding.statements,
    };
    subject.put_listing(page, runs)
}

impl Page {
    /// A page of which nothing was told yet. A run is followed for at most so many steps.
    pub fn new(alloc: Global, steps: u32) -> Result<Page, NoMemory> {
        let mut text = Vec::new(alloc);
        put(&mut text, HEAD)?;
        Ok(Page {
            alloc,
            text,
            races: 0,
            steps,
        })
    }

    // Both runs of the race.
    fn runs_of(&self, machine: &Machine, finding: &Finding) -> Result<Runs, NoMemory> {
        Runs::new(
            self.alloc,
            machine,
            &finding.log,
            time_of(&finding.first),
            marked_in(&finding.statements, true),
            marked_in(&finding.statements, false),
            self.steps,
        )
    }

    // A race: what is told of it in words, both statements, and both runs.
    fn put_race(
        &mut self,
        top: &TopRaces<'_>,
        files: &Files<'_>,
        finding: &Finding,
        words: &[u8],
    ) -> Result<(), NoMemory> {
        self.races = self.races.saturating_add(1);
        put_all(
            &mut self.text,
            &[
                Piece::Mark("<section id=\"race-"),
                Piece::Number(self.races),
                Piece::Mark("\">\n"),
            ],
        )?;
        put_words(&mut self.text, words)?;
        let runs = self.runs_of(top.machine, finding)?;
        if let Some(statements) = &finding.statements {
            put_heading(&mut self.text, top.setting.design, slot_of(&runs))?;
            put_sources(self.alloc, &mut self.text, files, statements)?;
        }
        put_runs(
            self.alloc,
            &mut self.text,
            top.setting,
            files,
            finding,
            &runs,
        )?;
        put(
            &mut self.text,
            "<p><a href=\"#top\">All races</a></p>\n</section>\n",
        )
    }

    // What stands before the races of a top module: its name, how many races there are, what wasn't looked at, and the list.
    fn put_head(&mut self, top: &TopRaces<'_>, files: &Files<'_>) -> Result<(), NoMemory> {
        let design = top.setting.design;
        put_title(&mut self.text, &design.top)?;
        put_all(
            &mut self.text,
            &[Piece::Text(top.summary), Piece::Mark("</p>\n")],
        )?;
        if top.words.is_empty() {
            return Ok(());
        }
        put_all(&mut self.text, &[Piece::Mark(NAMES), Piece::Mark(LEGEND)])?;
        let first = self.races.saturating_add(1);
        put_list(&mut self.text, first, top, files)
    }

    /// What was found of a top module: a list of all races, and of each what is told of it in words, both statements in their files, the
    /// waveforms of both runs round the slot in which they differ, and the steps of both from where they part. E901 is the only refusal.
    pub fn tell(&mut self, top: &TopRaces<'_>) -> Result<(), NoMemory> {
        let files = Files::new(self.alloc, top.sources)?;
        self.put_head(top, &files)?;
        for (index, place) in top.races.iter().enumerate() {
            if let Some((finding, words)) = top.race(index, *place) {
                self.put_race(top, &files, finding, words)?;
            }
        }
        Ok(())
    }

    /// The document.
    pub fn document(self) -> Result<Vec<u8>, NoMemory> {
        let mut text = self.text;
        put(&mut text, END)?;
        Ok(text)
    }
}
