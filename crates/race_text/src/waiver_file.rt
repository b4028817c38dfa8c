// Waivers of what was found, as a file that `--waive` reads.

use crate::summary::Findings;
use basis::NoMemory;
use finding_text::place::Sources;
use race_findings::{Finding, RacingStatement, Statements};
use race_waivers::ends_of;
use race_words::escapes::{has_word, put_name_word};
use race_words::pieces::{Piece, put, put_all};
use std::alloc::Global;
use std::collections::BTreeMap;
use vdesign::design::Design;

// `FILE:LINE`; answers whether a waiver can name that.
fn put_spot(
    text: &mut Vec<u8>,
    sources: &Sources<'_>,
    racing: &RacingStatement,
) -> Result<bool, NoMemory> {
    let Some(place) = sources.place(racing.statement) else {
        return Ok(false);
    };
    let name = sources.name(place.file).as_bytes();
    put_name_word(text, name)?;
    let line = Piece::Number(place.line as u64);
    put_all(text, &[Piece::Bytes(b":"), line])?;
    Ok(has_word(name))
}

// `FILE:LINE FILE:LINE # todo`, if a waiver can name both.
fn line_of_statements(
    alloc: Global,
    sources: &Sources<'_>,
    statements: &Statements,
) -> Result<Option<Vec<u8>>, NoMemory> {
    let mut line = Vec::new(alloc);
    let one = put_spot(&mut line, sources, &statements.first)?;
    put(&mut line, b" ")?;
    let other = put_spot(&mut line, sources, &statements.second)?;
    put(&mut line, b" # todo")?;
    Ok(if one && other { Some(line) } else { None })
}

// `ends TOP CAUSE:TIME CAUSE:TIME # todo`, if both ends are known.
fn line_of_ends(
    alloc: Global,
    design: &Design,
    finding: &Finding,
) -> Result<Option<Vec<u8>>, NoMemory> {
    let Some((one, other)) = ends_of(alloc, design, finding)? else {
        return Ok(None);
    };
    let mut line = Vec::new(alloc);
    put(&mut line, b"ends ")?;
    put_name_word(&mut line, &design.top)?;
    put(&mut line, b" ")?;
    put(&mut line, &one)?;
    put(&mut line, b" ")?;
    put(&mut line, &other)?;
    put(&mut line, b" # todo")?;
    Ok(Some(line))
}

// The line of a waiver of the race, if one can be written. A race of ends is waived by its ends alone.
fn waiver_line(
    alloc: Global,
    findings: &Findings<'_>,
    finding: &Finding,
) -> Result<Option<Vec<u8>>, NoMemory> {
    if finding.first.apart().is_some() {
        return line_of_ends(alloc, findings.setting.design, finding);
    }
    match &finding.statements {
        Some(statements) => line_of_statements(alloc, findings.sources, statements),
        None => Ok(None),
    }
}

// The remark that stands for a waiver of the race, where none can be written.
fn remark(alloc: Global, findings: &Findings<'_>, number: u64) -> Result<Vec<u8>, NoMemory> {
    let design = findings.setting.design;
    let mut line = Vec::new(alloc);
    put_all(
        &mut line,
        &[
            Piece::Bytes(b"# race "),
            Piece::Number(number),
            Piece::Bytes(b" of "),
            Piece::Cut(&design.top, usize::MAX),
            Piece::Bytes(b" has no two lines that a waiver can name"),
        ],
    )?;
    Ok(line)
}

// The line for the race of this place: the text of its waiver, if it is waived.
fn line_of(
    alloc: Global,
    findings: &Findings<'_>,
    place: usize,
    finding: &Finding,
) -> Result<Vec<u8>, NoMemory> {
    if let Some(waiver) = findings.waiver(place) {
        return Ok(Vec::from_slice(alloc, waiver.text)?);
    }
    if let Some(line) = waiver_line(alloc, findings, finding)? {
        return Ok(line);
    }
    remark(alloc, findings, (place as u64).saturating_add(1))
}

/// The lines of a file of waivers, each once.
#[derive(Drop)]
pub struct WaiverLines {
    alloc: Global,
    lines: Vec<Vec<u8>>,
    known: BTreeMap<Vec<u8>, ()>,
}

impl WaiverLines {
    /// None yet.
    pub fn new(alloc: Global) -> WaiverLines {
        WaiverLines {
            alloc,
            lines: Vec::new(alloc),
            known: BTreeMap::new(alloc),
        }
    }

    // The line, unless it is there.
    fn put_line(&mut self, line: Vec<u8>) -> Result<(), NoMemory> {
        if self.known.get(&line).is_some() {
            return Ok(());
        }
        self.known.insert(Vec::from_slice(self.alloc, &line)?, ())?;
        self.lines.push(line)?;
        Ok(())
    }

    /// A waiver of each race of a top module, by the lines of its two statements or by its ends, with `todo` as the reason; of one that is
    /// waived the line of its waiver.
    pub fn waive(&mut self, findings: &Findings<'_>) -> Result<(), NoMemory> {
        for (place, finding) in findings.races.iter().enumerate() {
            let line = line_of(self.alloc, findings, place, finding)?;
            self.put_line(line)?;
        }
        Ok(())
    }

    /// The lines as a text.
    pub fn text(self) -> Result<Vec<u8>, NoMemory> {
        let WaiverLines { alloc, lines, .. } = self;
        let mut text = Vec::new(alloc);
        for line in lines {
            put_all(&mut text, &[Piece::Bytes(&line), Piece::Bytes(b"\n")])?;
        }
        Ok(text)
    }
}
