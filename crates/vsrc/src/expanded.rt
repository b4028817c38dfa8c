// Text with the place of each of its bytes in the files.

ghost use Rattle.std.specs.Prelude.{◌≡◌, ◌≤◌, is_some, length, map, unwrap_or};
ghost use Rattle.basis.specs.Timescales.{usual_timescale};
ghost use Rattle.std.specs.List.Sorted.{IsNonDecreasing};
ghost use Rattle.vsrc.specs.Source.{count_below, file_start, place_by, text_limit};

use basis::Timescale;
use std::marker::Model;

/// A place in the files: the number of the file and of the line in it, both from 1, and how many bytes of the line stand before it.
#[derive(Clone, Copy, Debug, PartialEq, Eq)]
pub struct Place {
    pub file: usize,
    pub line: usize,
    pub column: usize,
}

/// The text that files are expanded to, of at most 33,554,432 bytes, with the place of each byte and the timescale.
#[derive(Drop)]
pub struct Expanded {
    text: Vec<u8>,
    // for each byte where in the joined files it comes from, and where those end
    origins: Vec<u32>,
    end: usize,
    lines: Lines,
    timescale: Timescale,
    timed: bool,
}

/// Where in the joined files the lines of the files begin.
#[derive(Drop)]
pub struct Lines {
    // the places of the line feeds put between files
    borders: Vec<usize>,
    // the places of all line feeds
    feeds: Vec<usize>,
}

impl Model for Lines {
    ghost use Rattle.vsrc.specs.Inner.{LinesOf, AreLines};

    ghost Value = { LinesOf };

    ghost view = { λ l. record { borders = l.borders.items; feeds = l.feeds.items } };

    ghost invariant = { λ l. AreLines l.borders.items l.feeds.items };
}

impl Lines {
    ghost use Rattle.vsrc.specs.Inner.{AreLines};

    /// The lines of these borders and line feeds.
    pub fn new(borders: Vec<usize>, feeds: Vec<usize>) -> Lines
        requires { AreLines borders.items feeds.items }
        ensures { result ≡ record { borders = borders.items; feeds = feeds.items } }
    {
        Lines { borders, feeds }
    }

    /// The file, the line and the column of a place in the joined files.
    pub fn place(&self, at: usize) -> Place
        ensures { result ≡ place_by self.now.borders self.now.feeds at }
    {
        let begins = start_of(&self.borders, at);
        let line = below(&self.feeds, at) - below(&self.feeds, begins);
        Place {
            file: below(&self.borders, at) + 1,
            line: line + 1,
            column: at - start_of(&self.feeds, at),
        }
    }
}

impl Model for Expanded {
    ghost use Rattle.std.specs.Prelude.{◌≤◌, length, map};
    ghost use Rattle.vsrc.specs.Source.{Source, place_by, text_limit};

    ghost Value = { Source };

    ghost view = { λ e. record {
      text = e.text.items;
      places = map (place_by e.lines.borders e.lines.feeds) e.origins.items;
      end = place_by e.lines.borders e.lines.feeds e.end;
      timescale = e.timescale;
      timed = e.timed;
    } };

    ghost invariant = { λ e. length e.text.items ≤ text_limit };
}

impl Expanded {
    ghost use Rattle.vsrc.specs.Source.{place_of};

    pub(crate) fn new(
        text: Vec<u8>,
        origins: Vec<u32>,
        end: usize,
        lines: Lines,
        timescale: Option<Timescale>,
    ) -> Expanded
        requires { length text.items ≤ text_limit }
        ensures text { result.text ≡ text.items }
        ensures places { result.places ≡ map (place_by lines.borders lines.feeds) origins.items }
        ensures end { result.end ≡ place_by lines.borders lines.feeds end }
        ensures timescale { result.timescale ≡ unwrap_or timescale usual_timescale }
        ensures timed { result.timed ≡ is_some timescale }
    {
        Expanded {
            text,
            origins,
            end,
            lines,
            timescale: timescale.unwrap_or(Timescale::usual()),
            timed: timescale.is_some(),
        }
    }

    /// The whole text.
    pub fn text(&self) -> &[u8]
        ensures value { result.now ≡ self.now.text }
        ensures short { length result.now ≤ text_limit }
    {
        self.text.as_slice()
    }

    /// The place of the byte at `at`; of the text's end where `at` is its length.
    pub fn place(&self, at: usize) -> Place
        requires { at ≤ length self.now.text }
        ensures { result ≡ place_of self.now at }
    {
        if at < self.origins.len() {
            self.lines.place(self.origins[at] as usize)
        } else {
            self.lines.place(self.end)
        }
    }

    /// The timescale; 1 ns / 1 ns where none stands in the files (19.8).
    pub fn timescale(&self) -> Timescale
        ensures { result ≡ self.now.timescale }
    {
        self.timescale
    }

    /// Whether a `` `timescale `` stands in the files, in a part that is read.
    pub fn is_timed(&self) -> bool
        ensures { result ≡ self.now.timed }
    {
        self.timed
    }
}

// Where what `at` stands in begins: after the last of the places before it.
fn start_of(places: &[usize], at: usize) -> usize
    requires { IsNonDecreasing places.now }
    ensures { result ≡ file_start 0 places.now at }
{
    let count = below(places, at);
    if count == 0 { 0 } else { places[count - 1] + 1 }
}

// How many of the places stand before `at`.
fn below(places: &[usize], at: usize) -> usize
    requires { IsNonDecreasing places.now }
    ensures { result ≡ count_below places.now at }
{
    places.partition_point(|place| *place < at)
}
