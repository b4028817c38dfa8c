// The lines of the files.

use basis::NoMemory;
use finding_text::Sources;
use std::alloc::Global;
use vsrc::Place;

/// The files, and where the lines of each begin.
#[derive(Drop)]
pub(crate) struct Files<'a> {
    sources: &'a Sources<'a>,
    starts: Vec<Vec<usize>>,
}

// Where the lines of the text begin.
fn starts_of(alloc: Global, text: &[u8]) -> Result<Vec<usize>, NoMemory> {
    let mut starts = Vec::new(alloc);
    starts.push(0usize)?;
    for (at, byte) in text.iter().enumerate() {
        if *byte == b'\n' {
            starts.push(at.saturating_add(1))?;
        }
    }
    Ok(starts)
}

impl<'a> Files<'a> {
    /// Looks where the lines begin.
    pub(crate) fn new(alloc: Global, sources: &'a Sources<'a>) -> Result<Files<'a>, NoMemory> {
        let mut starts = Vec::new(alloc);
        for text in sources.texts {
            starts.push(starts_of(alloc, text)?)?;
        }
        Ok(Files { sources, starts })
    }

    /// The files as they were searched.
    pub(crate) fn sources(&self) -> &'a Sources<'a> {
        self.sources
    }

    /// Where the statement of the action begins, if that is known.
    pub(crate) fn place(&self, action: usize) -> Option<Place> {
        self.sources.place(action)
    }

    /// The name of the file of this number, from 1.
    pub(crate) fn name(&self, file: usize) -> &'a str {
        self.sources.name(file)
    }

    /// The line of this number, from 1, of the file, without its end; none where the file has no such line.
    pub(crate) fn line(&self, file: usize, number: usize) -> Option<&'a [u8]> {
        let index = file.checked_sub(1)?;
        let text = self.sources.texts.get(index)?;
        let starts = self.starts.get(index)?;
        let from = *starts.get(number.checked_sub(1)?)?;
        if from > 0 && from >= text.len() {
            return None;
        }
        let to = match starts.get(number) {
            None => text.len(),
            Some(next) => next.saturating_sub(1),
        };
        Some(text.get(from..to)?.trim_ascii_end())
    }

    /// The source from the place to the end of its line.
    pub(crate) fn source(&self, place: Place) -> &'a [u8] {
        match self.line(place.file, place.line) {
            None => &[],
            Some(line) => line.get(place.column..).unwrap_or(&[]),
        }
    }
}
