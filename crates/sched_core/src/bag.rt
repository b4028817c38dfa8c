// The lines of a time slot, as a bag in the order of their bytes (IEEE 1364-2005, 17.1.1, 17.1.2).

ghost use Rattle.std.specs.Prelude.{◌≡◌, ◌≤◌, ◌++◌, ◌∷◌, [], length, IfOk, OnOk, OnErr};
ghost use Rattle.std.specs.Ordering.{nat_cmp, is_lt};
ghost use Rattle.std.specs.Cmp.Lexicographic.{slice_cmp};
ghost use Rattle.sched_core.specs.Bags.{with_line, is_whole, lines_of, whole_lines, piece_of, with_each, with_text, AreLinesInOrder};
ghost use Rattle.sched_core.specs.Inner.Bags.{IsBehind, IsBefore, HasNoFeed};

use basis::NoMemory;
use std::alloc::Global;
use std::cmp::Ordering;
use std::marker::Model;
use std::mem::replace;
use std::sync::ArcSlice;

/// A line as it was printed, with its line feed. Its bytes never change, and bags share them. A clause sees the bytes.
#[derive(Drop)]
pub struct PrintedLine {
    bytes: ArcSlice<u8>,
}

impl Model for PrintedLine {
    ghost use Rattle.std.specs.Prelude.{ℕ, List};
    ghost use Rattle.std.specs.Arc.{arc_slice_items};

    ghost Value = { List ℕ };

    ghost view = { λ line. arc_slice_items line.bytes };
}

/// Two are equal where they have the same bytes.
impl PartialEq for PrintedLine {
    ghost use Rattle.std.specs.Prelude.{nat_eq};
    ghost use Rattle.std.specs.Cmp.{partial_equiv_from_equiv};
    ghost use Rattle.std.specs.Cmp.Lexicographic.{pointwise};
    ghost use Rattle.std.proofs.lemmas.Cmp.{nat_list_eq_equiv};

    ghost eq = { pointwise nat_eq };

    ghost laws = { partial_equiv_from_equiv nat_list_eq_equiv };

    fn eq(&self, other: &PrintedLine) -> bool {
        self.as_bytes() == other.as_bytes()
    }
}

impl Eq for PrintedLine {
    ghost use Rattle.std.proofs.lemmas.Cmp.{nat_list_eq_equiv};

    ghost laws = { nat_list_eq_equiv };
}

/// Lines are compared by their bytes, a front before the longer.
impl PartialOrd for PrintedLine {
    ghost use Rattle.std.specs.Prelude.{Some};
    ghost use Rattle.std.specs.Ordering.{nat_cmp};
    ghost use Rattle.std.specs.Cmp.Lexicographic.{slice_cmp, texts_po};

    ghost partial_cmp = { λ a b. Some (slice_cmp nat_cmp a b) };

    ghost laws = { texts_po };

    fn partial_cmp(&self, other: &PrintedLine) -> Option<Ordering> {
        Some(self.cmp(other))
    }
}

impl Ord for PrintedLine {
    ghost use Rattle.std.specs.Prelude.{refl};
    ghost use Rattle.std.specs.Ordering.{nat_cmp};
    ghost use Rattle.std.specs.Cmp.Lexicographic.{slice_cmp, texts_ties};
    ghost use Rattle.std.proofs.lemmas.Cmp.{nat_list_cmp_total};

    ghost cmp = { slice_cmp nat_cmp };

    ghost total = { nat_list_cmp_total };

    ghost matches_partial_cmp = { λ a b. refl };

    ghost matches_eq = { texts_ties };

    fn cmp(&self, other: &PrintedLine) -> Ordering {
        self.as_bytes().cmp(other.as_bytes())
    }
}

impl PrintedLine {
    /// A line of these bytes.
    pub fn new(alloc: Global, bytes: &[u8]) -> Result<PrintedLine, NoMemory>
        ensures { IfOk result (λ line. line ≡ bytes.now) }
    {
        let list = Vec::from_slice(alloc, bytes)?;
        Ok(PrintedLine {
            bytes: ArcSlice::from_vec(list)?,
        })
    }

    /// The same line. Its bytes aren't copied: one more owner of them is counted, and refused only where 2^63 - 1 are counted already.
    pub fn share(&self) -> Result<PrintedLine, NoMemory>
        ensures { IfOk result (λ line. line ≡ self.now) }
    {
        Ok(PrintedLine {
            bytes: self.bytes.clone()?,
        })
    }

    /// Its bytes.
    pub fn as_bytes(&self) -> &[u8]
        ensures { result.now ≡ self.now }
    {
        self.bytes.as_slice()
    }
}

/// Lines in the order of their bytes, each as often as it was printed. A clause sees the list of lists of bytes.
#[derive(Drop)]
pub struct Bag {
    lines: Vec<PrintedLine>,
    // whether a line may stand there that no line feed has ended yet
    has_piece: bool,
}

impl Model for Bag {
    ghost use Rattle.std.specs.Prelude.{◌≡◌, ℕ, false, List, []};
    ghost use Rattle.sched_core.specs.Bags.{AreLinesInOrder, pieces_of};

    ghost Value = { List (List ℕ) };

    ghost view = { λ bag. bag.lines.items };

    ghost invariant = { λ bag. AreLinesInOrder bag.lines.items × (bag.has_piece ≡ false → pieces_of bag.lines.items ≡ []) };
}

/// Two are equal where they have the same lines, each as often.
impl PartialEq for Bag {
    ghost use Rattle.std.specs.Cmp.{partial_equiv_from_equiv};
    ghost use Rattle.sched_core.specs.Bags.{lines_same};
    ghost use Rattle.sched_core.specs.BagLaws.{lines_equivalent};

    ghost eq = { lines_same };

    ghost laws = { partial_equiv_from_equiv lines_equivalent };

    fn eq(&self, other: &Bag) -> bool {
        self.lines == other.lines
    }
}

impl Eq for Bag {
    ghost use Rattle.sched_core.specs.BagLaws.{lines_equivalent};

    ghost laws = { lines_equivalent };
}

/// Bags are compared line by line, a front before the longer.
impl PartialOrd for Bag {
    ghost use Rattle.std.specs.Prelude.{Some};
    ghost use Rattle.sched_core.specs.Bags.{bag_cmp};
    ghost use Rattle.sched_core.specs.BagLaws.{bags_ordered};

    ghost partial_cmp = { λ a b. Some (bag_cmp a b) };

    ghost laws = { bags_ordered };

    fn partial_cmp(&self, other: &Bag) -> Option<Ordering> {
        Some(self.cmp(other))
    }
}

impl Ord for Bag {
    ghost use Rattle.std.specs.Prelude.{refl};
    ghost use Rattle.sched_core.specs.Bags.{bag_cmp};
    ghost use Rattle.sched_core.specs.BagLaws.{bags_total, bags_tie};

    ghost cmp = { bag_cmp };

    ghost total = { bags_total };

    ghost matches_partial_cmp = { λ a b. refl };

    ghost matches_eq = { bags_tie };

    fn cmp(&self, other: &Bag) -> Ordering {
        self.lines.cmp(&other.lines)
    }
}

// Whether a line stands before another.
fn is_before(line: &[u8], other: &[u8]) -> bool
    ensures { result ≡ is_lt (slice_cmp nat_cmp line.now other.now) }
{
    line.cmp(other) == Ordering::Less
}

// Where a new line goes: behind all that aren't greater. So a line that repeats goes behind the others, without moving one.
fn place_among(lines: &[PrintedLine], line: &[u8]) -> usize
    requires { AreLinesInOrder lines.now }
    ensures within { result ≤ length lines.now }
    ensures behind { IsBehind line.now lines.now result }
    ensures before { IsBefore line.now lines.now result }
{
    let mut low = 0;
    let mut high = lines.len();
    while low < high {
        let middle = low + (high - low) / 2;
        if is_before(line, lines[middle].as_bytes()) {
            high = middle;
        } else {
            low = middle + 1;
        }
    }
    low
}

// Whether a line feed ends the line.
fn is_ended(line: &[u8]) -> bool
    ensures { result ≡ is_whole line.now }
{
    match line.last() {
        Some(byte) => *byte == b'\n',
        None => false,
    }
}

// What no line feed has ended yet.
fn piece_among(alloc: Global, lines: &[PrintedLine]) -> Result<Vec<u8>, NoMemory>
    ensures { IfOk result (λ piece. piece.items ≡ piece_of lines.now) }
{
    let mut piece = Vec::new(alloc);
    for line in lines {
        if !is_ended(line.as_bytes()) {
            piece.extend_from_slice(line.as_bytes())?;
        }
    }
    Ok(piece)
}

// The lines that a line feed ends.
fn ended_lines(alloc: Global, lines: Vec<PrintedLine>) -> Result<Vec<PrintedLine>, NoMemory>
    ensures { IfOk result (λ ended. ended.items ≡ whole_lines lines.items) }
{
    let mut ended = Vec::new(alloc);
    for line in lines {
        if is_ended(line.as_bytes()) {
            ended.push(line)?;
        }
    }
    Ok(ended)
}

fn copy_lines(alloc: Global, lines: &[PrintedLine]) -> Result<Vec<PrintedLine>, NoMemory>
    ensures { IfOk result (λ copied. copied.items ≡ lines.now) }
{
    let mut copied = Vec::new(alloc);
    for line in lines {
        copied.push(line.share()?)?;
    }
    Ok(copied)
}

impl Bag {
    /// The bag without a line.
    pub fn new(alloc: Global) -> Bag
        ensures { result ≡ [] }
    {
        Bag {
            lines: Vec::new(alloc),
            has_piece: false,
        }
    }

    // The bag with one line more.
    fn insert(&mut self, line: &[u8]) -> Result<(), NoMemory>
        ensures { OnOk result (self.new ≡ with_line line.now self.old) }
    {
        let alloc = *self.lines.allocator();
        let place = place_among(&self.lines, line);
        self.lines.insert(place, PrintedLine::new(alloc, line)?)?;
        if !is_ended(line) {
            self.has_piece = true;
        }
        Ok(())
    }

    // The bag with the last line of a text, where no line feed ends it.
    fn insert_rest(&mut self, line: &[u8]) -> Result<(), NoMemory>
        requires { HasNoFeed line.now }
        ensures { OnOk result (self.new ≡ with_each (lines_of line.now) self.old) }
    {
        if line.is_empty() {
            return Ok(());
        }
        self.insert(line)
    }

    // The bag with the lines of a text.
    fn insert_lines(&mut self, text: &[u8]) -> Result<(), NoMemory>
        ensures { OnOk result (self.new ≡ with_each (lines_of text.now) self.old) }
    {
        let mut line = Vec::new(*self.lines.allocator());
        for byte in text {
            line.push(*byte)?;
            if *byte == b'\n' {
                self.insert(&line)?;
                line.clear();
            }
        }
        self.insert_rest(&line)
    }

    // Takes what no line feed has ended yet out of the bag.
    fn take_piece(&mut self) -> Result<Vec<u8>, NoMemory>
        ensures piece { IfOk result (λ piece. piece.items ≡ piece_of self.old) }
        ensures rest { OnOk result (self.new ≡ whole_lines self.old) }
    {
        let alloc = *self.lines.allocator();
        let piece = piece_among(alloc, &self.lines)?;
        let lines = replace(&mut self.lines, Vec::new(alloc));
        self.lines = ended_lines(alloc, lines)?;
        self.has_piece = false;
        Ok(piece)
    }

    /// The bag of a slot that prints this text, behind what it printed last. After want of memory the bag means nothing.
    pub fn print(&mut self, text: &[u8]) -> Result<(), NoMemory>
        ensures { OnOk result (self.new ≡ with_text text.now self.old) }
    {
        if !self.has_piece {
            return self.insert_lines(text);
        }
        let mut line = self.take_piece()?;
        line.extend_from_slice(text)?;
        self.insert_lines(&line)
    }

    /// The bag with one line more, none of whose lines is greater. After want of memory it is as it was.
    pub fn push(&mut self, line: &[u8]) -> Result<(), NoMemory>
        requires { AreLinesInOrder (self.old ++ line.now ∷ []) }
        ensures ok { OnOk result (self.new ≡ self.old ++ line.now ∷ []) }
        ensures err { OnErr result (self.new ≡ self.old) }
    {
        let alloc = *self.lines.allocator();
        self.lines.push(PrintedLine::new(alloc, line)?)?;
        if !is_ended(line) {
            self.has_piece = true;
        }
        Ok(())
    }

    /// The bag without a line again.
    pub fn clear(&mut self)
        ensures { self.new ≡ [] }
    {
        self.lines.clear();
        self.has_piece = false;
    }

    /// A bag of the same lines.
    pub fn copy(&self, alloc: Global) -> Result<Bag, NoMemory>
        ensures { IfOk result (λ bag. bag ≡ self.now) }
    {
        Ok(Bag {
            lines: copy_lines(alloc, &self.lines)?,
            has_piece: self.has_piece,
        })
    }

    /// The lines, in the order of their bytes.
    pub fn as_slice(&self) -> &[PrintedLine]
        ensures { result.now ≡ self.now }
    {
        &self.lines
    }
}
