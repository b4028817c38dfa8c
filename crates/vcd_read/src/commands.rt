// A dump from a reader, item by item.

ghost use Rattle.std.specs.Prelude.{◌≡◌, ◌∷◌, [], ◌<◌, ◌≤◌, ℕ, Bool, not, true, false, codes, List, IfOk, IfSome, IfNone, Some};
ghost use Rattle.std.specs.List.{list_all};
ghost use Rattle.vcd_read.specs.Words.{Text};
ghost use Rattle.vcd_read.specs.Bytes.{left, AreAll, IsReady, Takes};
ghost use Rattle.vcd_read.specs.Commands.{IsReal, IsVector, Tells, is_digit};
ghost use Rattle.vcd_read.specs.Faults.{IsNoDump};
ghost use Rattle.vcd_read.specs.Telling.{Tell, Opens, item_of, items_of};

use crate::fault::{VcdFault, VcdFlaw};
use crate::item::VcdItem;
use crate::numbers::decimal_in;
use crate::same::is_same;
use crate::words::WordReader;
use basis::{NoMemory, OrMemory};
use std::alloc::Global;
use std::io::Read;

// Whether the byte is a digit of a value.
fn is_digit(byte: u8) -> bool
    ensures { result ≡ is_digit byte }
{
    byte == b'0' || byte == b'1' || byte == b'x' || byte == b'X' || byte == b'z' || byte == b'Z'
}

// Whether all are digits.
fn are_digits(digits: &[u8]) -> bool
    ensures { result ≡ list_all is_digit digits.now }
{
    digits.iter().all(|byte| is_digit(*byte))
}

/// What is to come of a dump behind its declarations, and whether a block of values is open.
#[derive(Drop)]
pub(crate) struct Commands<R> {
    words: WordReader<R>,
    inside: bool,
}

// The value of one bit.
fn bit(alloc: Global, digit: u8, code: &[u8]) -> Result<VcdItem, NoMemory>
    requires { is_digit digit ≡ true }
    ensures { IfOk result (λ item. (inside : Bool) → Tell ((digit ∷ code.now) ∷ []) inside inside (items_of (Some item))) }
{
    let mut name = Vec::new(alloc);
    name.extend_from_slice(code)?;
    let mut digits = Vec::new(alloc);
    digits.push(digit)?;
    Ok(VcdItem::Value { code: name, digits })
}

// What a keyword tells that opens a block, if it is one.
fn opened_by(word: &[u8]) -> Option<Option<VcdItem>>
    ensures { IfSome result (λ item. Opens word.now (items_of item)) }
{
    if is_same(word, b"$dumpvars") {
        Some(None)
    } else if is_same(word, b"$dumpall") {
        Some(None)
    } else if is_same(word, b"$dumpoff") {
        Some(Some(VcdItem::Off))
    } else if is_same(word, b"$dumpon") {
        Some(Some(VcdItem::On))
    } else {
        None
    }
}

impl<R: Read + Drop> Commands<R> {
    /// No block is open.
    pub(crate) fn new(words: WordReader<R>) -> Commands<R>
        ensures words { result.words ≡ words }
        ensures inside { result.inside ≡ false }
    {
        Commands {
            words,
            inside: false,
        }
    }

    /// The text is no dump, for this reason, as the last word shows.
    pub(crate) fn no_dump(&self, flaw: VcdFlaw) -> OrMemory<VcdFault>
        ensures { IsNoDump flaw result }
    {
        self.words.no_dump(flaw)
    }

    // A time, of which the digits have come.
    fn time(&mut self, digits: &[u8]) -> Result<VcdItem, OrMemory<VcdFault>>
        ensures same { self.new ≡ self.old }
        ensures tell { IfOk result (λ item. Tell ((35 ∷ digits.now) ∷ []) self.old.inside self.new.inside (items_of (Some item))) }
    {
        match decimal_in(digits) {
            Some(time) if !self.inside => Ok(VcdItem::Time(time)),
            Some(_) => Err(self.words.no_dump(VcdFlaw::Block)),
            None => Err(self.words.no_dump(VcdFlaw::Number)),
        }
    }

    // The value of a vector, of which the digits have come.
    fn vector(&mut self, alloc: Global, digits: &[u8]) -> Result<VcdItem, OrMemory<VcdFault>>
        requires { IsReady self.old.words.bytes }
        ensures ready { IsReady self.new.words.bytes }
        ensures tell { IfOk result (λ item. Takes R.remaining self.old.words self.new.words (λ list.
            ((letter : ℕ) → IsVector letter → Tell ((letter ∷ digits.now) ∷ list) self.old.inside self.new.inside (items_of (Some item))))) }
        ensures budget { IfOk result (λ _. self.new.words.bytes.budget < self.old.words.bytes.budget) }
    {
        let code = self.words.take(alloc)?;
        if !are_digits(digits) {
            return Err(self.words.no_dump(VcdFlaw::Digit));
        }
        let mut kept = Vec::new(alloc);
        kept.extend_from_slice(digits)?;
        Ok(VcdItem::Value { code, digits: kept })
    }

    // A real number, which has come.
    fn real(&mut self) -> Result<(), OrMemory<VcdFault>>
        requires { IsReady self.old.words.bytes }
        ensures ready { IsReady self.new.words.bytes }
        ensures tell { IfOk result (λ _. Takes R.remaining self.old.words self.new.words (λ list.
            ((letter : ℕ) (number : Text) → IsReal letter → Tell ((letter ∷ number) ∷ list) self.old.inside self.new.inside []))) }
        ensures budget { IfOk result (λ _. self.new.words.bytes.budget < self.old.words.bytes.budget) }
    {
        self.words.must()?;
        Ok(())
    }

    // A block opens, or closes.
    fn turn(&mut self, inside: bool) -> Result<(), OrMemory<VcdFault>>
        ensures words { self.new.words ≡ self.old.words }
        ensures inside { IfOk result (λ _. (self.old.inside ≡ not inside) × (self.new.inside ≡ inside)) }
    {
        if self.inside == inside {
            return Err(self.words.no_dump(VcdFlaw::Block));
        }
        self.inside = inside;
        Ok(())
    }

    // A comment, of which the keyword has come.
    fn comment(&mut self) -> Result<(), OrMemory<VcdFault>>
        requires { IsReady self.old.words.bytes }
        ensures ready { IsReady self.new.words.bytes }
        ensures tell { IfOk result (λ _. Takes R.remaining self.old.words self.new.words (λ list.
            Tell (codes "$comment" ∷ list) self.old.inside self.new.inside [])) }
        ensures budget { IfOk result (λ _. self.new.words.bytes.budget < self.old.words.bytes.budget) }
    {
        if self.inside {
            return Err(self.words.no_dump(VcdFlaw::Block));
        }
        self.words.pass()?;
        Ok(())
    }

    // A command that begins with a keyword.
    fn keyword(&mut self, word: &[u8]) -> Result<Option<VcdItem>, OrMemory<VcdFault>>
        requires { IsReady self.old.words.bytes }
        ensures ready { IsReady self.new.words.bytes }
        ensures tell { IfOk result (λ item. Takes R.remaining self.old.words self.new.words (λ list.
            Tell (word.now ∷ list) self.old.inside self.new.inside (items_of item))) }
        ensures budget { IfOk result (λ _. self.new.words.bytes.budget ≤ self.old.words.bytes.budget) }
    {
        if is_same(word, b"$comment") {
            self.comment()?;
            return Ok(None);
        }
        if is_same(word, b"$end") {
            self.turn(false)?;
            return Ok(None);
        }
        let Some(item) = opened_by(word) else {
            return Err(self.words.no_dump(VcdFlaw::Word));
        };
        self.turn(true)?;
        Ok(item)
    }

    // The command that begins with this word.
    fn command(&mut self, alloc: Global, word: &[u8]) -> Result<Option<VcdItem>, OrMemory<VcdFault>>
        requires { IsReady self.old.words.bytes }
        ensures ready { IsReady self.new.words.bytes }
        ensures tell { IfOk result (λ item. Takes R.remaining self.old.words self.new.words (λ list.
            Tell (word.now ∷ list) self.old.inside self.new.inside (items_of item))) }
        ensures budget { IfOk result (λ _. self.new.words.bytes.budget ≤ self.old.words.bytes.budget) }
    {
        let Some((first, rest)) = word.split_first() else {
            return Err(self.words.no_dump(VcdFlaw::Word));
        };
        match *first {
            b'#' => Ok(Some(self.time(rest)?)),
            b'b' | b'B' => Ok(Some(self.vector(alloc, rest)?)),
            b'r' | b'R' => {
                self.real()?;
                Ok(None)
            }
            digit if is_digit(digit) => Ok(Some(bit(alloc, digit, rest)?)),
            _ => self.keyword(word),
        }
    }

    /// The next item; none at the end.
    pub(crate) fn next(&mut self, alloc: Global) -> Result<Option<VcdItem>, OrMemory<VcdFault>>
        requires { IsReady self.old.words.bytes }
        ensures ready { IsReady self.new.words.bytes }
        ensures item { IfOk result (λ told. IfSome told (λ item. Takes R.remaining self.old.words self.new.words (λ list.
            Tell list self.old.inside self.new.inside (item_of item ∷ [])))) }
        ensures end { IfOk result (λ told. IfNone told ((list : List Text)
            × AreAll list (left R.remaining self.old.words.bytes) (left R.remaining self.new.words.bytes) × Tells self.old.inside list [])) }
        ensures budget { IfOk result (λ told. IfSome told (λ _. self.new.words.bytes.budget < self.old.words.bytes.budget)) }
    {
        'commands: loop {
            if !self.words.next()? {
                return if self.inside {
                    Err(self.words.no_dump(VcdFlaw::Ends))
                } else {
                    Ok(None)
                };
            }
            let word = self.words.take_word(alloc);
            if let Some(item) = self.command(alloc, &word)? {
                return Ok(Some(item));
            }
        }
    }
}
