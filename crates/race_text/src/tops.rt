// What is told of top modules, one after another, in one format.

use crate::json::{json_of, last_line_of, put_cause_lines, seen_of, top_of};
use crate::sarif::{push_results, push_unmatched, push_unseen, sarif_of};
use crate::summary::{Findings, matched_at, put_top, put_waivers};
use crate::whole::put_races;
use basis::NoMemory;
use race_waivers::Waived;
use race_words::members::Items;
use race_words::pieces::put;
use race_words::waivers::Waiver;
use shown_text::shown_text;
use std::alloc::Global;

/// How races are written.
#[derive(Clone, Copy, PartialEq, Eq)]
pub enum Format {
    Text,
    Json,
    JsonLines,
    Sarif,
}

/// What was told so far of top modules, in a format: a text; or values, one for each top module in JSON, one for each race in SARIF, and
/// what SARIF notes beside them; or lines of JSON, and a value for each top module. And what each waiver matched in all of them.
#[derive(Drop)]
pub struct Tops<'w> {
    alloc: Global,
    format: Format,
    is_headed: bool,
    waivers: &'w [Waiver<'w>],
    matched: Vec<u64>,
    text: Vec<u8>,
    values: Items,
    notifications: Items,
}

// What waivers matched so far, and matched now.
fn add_matches(
    alloc: Global,
    waivers: &[Waiver<'_>],
    matched: &[u64],
    waived: &Waived,
) -> Result<Vec<u64>, NoMemory> {
    let mut sums = Vec::new(alloc);
    for (place, _) in waivers.iter().enumerate() {
        sums.push(matched_at(matched, place).saturating_add(waived.count(place)))?;
    }
    Ok(sums)
}

impl<'w> Tops<'w> {
    /// Nothing is told yet. Where several top modules will be, each part of a text is headed by the name of its top.
    pub fn new(
        alloc: Global,
        format: Format,
        is_headed: bool,
        waivers: &'w [Waiver<'w>],
    ) -> Tops<'w> {
        Tops {
            alloc,
            format,
            is_headed,
            waivers,
            matched: Vec::new(alloc),
            text: Vec::new(alloc),
            values: Items::new(alloc),
            notifications: Items::new(alloc),
        }
    }

    // The part of the text that is of this top module.
    fn put_part(&mut self, findings: &Findings<'_>) -> Result<(), NoMemory> {
        if self.is_headed {
            put_top(&mut self.text, findings)?;
            put(&mut self.text, b"\n")?;
        }
        put_races(self.alloc, &mut self.text, findings)
    }

    /// Tells of a top module.
    pub fn tell(&mut self, findings: &Findings<'_>) -> Result<(), NoMemory> {
        self.matched = add_matches(self.alloc, self.waivers, &self.matched, findings.waived)?;
        match self.format {
            Format::Text => self.put_part(findings),
            Format::Json => {
                self.values.try_value(top_of(self.alloc, findings));
                Ok(())
            }
            Format::JsonLines => {
                put_cause_lines(self.alloc, &mut self.text, findings)?;
                self.values.try_value(seen_of(self.alloc, findings));
                Ok(())
            }
            Format::Sarif => {
                push_results(self.alloc, &mut self.values, findings)?;
                push_unseen(
                    self.alloc,
                    &mut self.notifications,
                    findings,
                    self.is_headed,
                );
                Ok(())
            }
        }
    }

    /// All that was told, as one text or document; the version is that of the program.
    pub fn document(self, version: &str) -> Result<Vec<u8>, NoMemory> {
        let Tops {
            alloc,
            format,
            waivers,
            matched,
            mut text,
            values,
            mut notifications,
            ..
        } = self;
        match format {
            Format::Text => {
                put_waivers(&mut text, waivers, &matched)?;
                shown_text(alloc, &text)
            }
            Format::Json => json_of(alloc, values, waivers, &matched),
            Format::JsonLines => {
                let last = last_line_of(alloc, values, waivers, &matched)?;
                put(&mut text, &last)?;
                Ok(text)
            }
            Format::Sarif => {
                push_unmatched(alloc, &mut notifications, waivers, &matched);
                sarif_of(alloc, values, notifications, version)
            }
        }
    }
}
