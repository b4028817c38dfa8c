// A reader of a text from its front. It remembers where something that was asked for didn't stand there.

ghost use Rattle.std.specs.Prelude.{◌≡◌, ℕ, List, ◌++◌, ◌&&◌, ◌==◌, true, false, length};
ghost use Rattle.std.specs.Char.{is_ascii_digit};
ghost use Rattle.report_text.specs.Inner.Fronts.{IsCut};
ghost use Rattle.report_text.specs.Inner.Places.{AreBytes, EachBytes, EachCut, HasTaken, IsNumberFront, PassesEach, Stands, TakesEach, Took};

use crate::front::{after, cut};
use basis::number_in;
use std::marker::Model;

/// What is left of a text. Once something that was asked for didn't stand in front, the reader is lost and stays so: what it
/// gives then means nothing, and it is asked once, at the end.
#[derive(Drop)]
pub struct Reader<'a> {
    rest: &'a [u8],
    ok: bool,
}

impl<'a> Model for Reader<'a> {
    ghost use Rattle.report_text.specs.Inner.Places.{Place};

    ghost Value = { Place };

    ghost view = { λ r. record { ok = r.ok; rest = r.rest.now } };
}

impl<'a> Reader<'a> {
    /// A reader of the whole text.
    pub fn new(text: &'a [u8]) -> Reader<'a>
        ensures { Stands result text.now }
    {
        Reader {
            rest: text,
            ok: true,
        }
    }

    /// Whether all that was asked for stood there.
    pub fn is_ok(&self) -> bool
        ensures { result ≡ self.now.ok }
    {
        self.ok
    }

    /// Whether nothing is left.
    pub fn is_done(&self) -> bool
        ensures { result ≡ (length self.now.rest == 0) }
    {
        self.rest.is_empty()
    }

    /// The reader is lost where this doesn't hold.
    pub fn require(&mut self, holds: bool)
        ensures ok { self.new.ok ≡ (self.old.ok && holds) }
        ensures rest { self.new.rest ≡ self.old.rest }
    {
        self.ok = self.ok && holds;
    }

    /// Takes these bytes.
    pub fn prefix(&mut self, bytes: &[u8])
        ensures read { Took self.old self.new (λ text rest. text ≡ bytes.now ++ rest) }
        ensures each { PassesEach self.old self.new bytes.now }
    {
        match after(self.rest, bytes) {
            Some(rest) => self.rest = rest,
            None => self.ok = false,
        }
    }

    /// Takes what stands before the first such byte, and the byte.
    pub fn word(&mut self, byte: u8) -> &'a [u8]
        ensures read { Took self.old self.new (λ text rest. IsCut byte text result.now rest) }
        ensures each { EachCut byte self.old (λ left right.
            (result.now ≡ left) × Stands self.new right) }
    {
        match cut(self.rest, byte) {
            Some((left, right)) => {
                self.rest = right;
                left
            }
            None => {
                self.ok = false;
                self.rest
            }
        }
    }

    /// Takes so many bytes.
    pub fn bytes(&mut self, count: u64) -> &'a [u8]
        ensures read { HasTaken self.old self.new (AreBytes count) result.now }
        ensures each { EachBytes count self.old (λ bytes rest.
            (result.now ≡ bytes) × Stands self.new rest) }
    {
        if count > self.rest.len() as u64 {
            self.ok = false;
            return self.rest;
        }
        let (bytes, rest) = self.rest.split_at(count as usize);
        self.rest = rest;
        bytes
    }

    /// Takes a number of 64 bits and the byte after it, which is no digit.
    pub fn number(&mut self, byte: u8) -> u64
        requires { is_ascii_digit byte ≡ false }
        ensures read { HasTaken self.old self.new (IsNumberFront byte) result }
        ensures each { TakesEach self.old self.new (IsNumberFront byte) result }
    {
        let word = self.word(byte);
        match number_in(word) {
            Some(n) => n,
            None => {
                self.require(false);
                0
            }
        }
    }
}
