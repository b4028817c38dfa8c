// The walk over the joined files: directives are obeyed, macros replaced, and what is skipped left out.

ghost use Rattle.std.specs.Prelude.{◌≡◌, ◌≤◌, ◌<◌, ◌+◌, ◌∷◌, ◌&&◌, ◌||◌, ◌==◌, not, length, slice_index, is_some, true, IfOk, OnOk, Ok, Err};
ghost use Rattle.basis.specs.Reasons.{IfFault};
ghost use Rattle.vsrc.specs.Source.{text_limit};
ghost use Rattle.vsrc.specs.Words.{name_behind};
ghost use Rattle.vsrc.specs.Ignored.{ignored_len};
ghost use Rattle.vsrc.specs.Macros.{may_be_macro};
ghost use Rattle.vsrc.specs.Conditionals.{is_read};
ghost use Rattle.vsrc.specs.Expansion.{walk_text};
ghost use Rattle.vsrc.specs.Walking.{state_of};
ghost use Rattle.vsrc.specs.Pieces.{by_name};
ghost use Rattle.vsrc.specs.Timescales.{timescale_behind};
ghost use Rattle.vsrc.specs.Walk.{begins_arguments, is_conditional, is_fresh, is_nettype, is_met};

use crate::conditionals::Opens;
use crate::ignored::{ignored_len, keywords_behind};
use crate::macro_text::{lines_len, macro_text};
use crate::macros::{Table, put_use};
use crate::output::Output;
use crate::outside::stretch_len;
use crate::pieces::may_be_macro;
use crate::refusal::{Refusal, Why, refuse};
use crate::timescale::timescale_behind;
use crate::words::{
    Ignored, Word, blanks_len, directive_of, ignored_of, is_blank, name_behind, name_len,
};
use basis::{OrMemory, Timescale};
use std::alloc::Global;

// The most levels of macros in macros.
const LEVELS: u32 = 32;

/// What is known between two pieces of the joined files.
#[derive(Drop)]
pub struct Walk {
    at: usize,
    fresh: bool,
    macros: Table,
    opens: Opens,
    // how many `begin_keywords` are open
    keywords: u32,
    timescale: Option<Timescale>,
    made: Output,
    alloc: Global,
}

impl Walk {
    ghost use Rattle.vsrc.specs.Walk.{start, step, copy_stretch, keep, read_backtick, read_name, replace_use, word_in, heed, obey, define, undefine, opening, alternative, with_timescale, with_nettype, pass_over, with_opens};
    ghost use Rattle.vsrc.specs.Conditionals.{begin_part, close_part};
    ghost use Rattle.vsrc.specs.Walking.{StepResult};

    /// Before the first byte.
    pub fn new(alloc: Global) -> Self
        ensures { state_of result ≡ start }
    {
        Walk {
            at: 0,
            fresh: true,
            macros: Table::new(alloc),
            opens: Opens::new(alloc),
            keywords: 0,
            timescale: None,
            made: Output::new(alloc),
            alloc,
        }
    }

    /// What was made, and the timescale if one stood.
    pub fn into_parts(self) -> (Output, Option<Timescale>)
        ensures made { result.0 ≡ self.made }
        ensures timescale { result.1 ≡ self.timescale }
    {
        let Walk {
            at: _,
            fresh: _,
            macros: _,
            opens: _,
            keywords: _,
            timescale,
            made,
            alloc: _,
        } = self;
        (made, timescale)
    }

    /// Takes the piece at the head of what is left of the files.
    pub fn step(&mut self, rest: &[u8]) -> Result<(), OrMemory<Refusal>>
        requires some { 0 < length rest.now }
        requires short { self.old.at + length rest.now ≤ text_limit }
        ensures ok { OnOk result (step rest.now (state_of self.old) ≡ Ok (state_of self.new)) }
        ensures on { OnOk result (self.old.at < self.new.at) }
        ensures within { OnOk result (self.new.at ≤ self.old.at + length rest.now) }
        ensures err { IfFault result (λ refusal. step rest.now (state_of self.old) ≡ Err refusal) }
    {
        if rest[0] == b'`' {
            return self.tick(rest.split_at(1).1);
        }
        self.pass(rest)
    }

    // A comment, a string or a byte stays where its part is read.
    fn pass(&mut self, rest: &[u8]) -> Result<(), OrMemory<Refusal>>
        requires some { 0 < length rest.now }
        requires short { self.old.at + length rest.now ≤ text_limit }
        ensures ok { OnOk result
            (copy_stretch (slice_index rest.now 0) rest.now (state_of self.old) ≡ Ok
            (state_of self.new)) }
        ensures on { OnOk result (self.old.at < self.new.at) }
        ensures within { OnOk result (self.new.at ≤ self.old.at + length rest.now) }
        ensures err { IfFault result (λ refusal.
            copy_stretch (slice_index rest.now 0) rest.now (state_of self.old) ≡ Err refusal) }
    {
        let len = stretch_len(rest);
        self.keep(rest.split_at(len).0)?;
        self.at += len;
        self.fresh = is_fresh(self.fresh, rest[0]);
        Ok(())
    }

    fn keep(&mut self, bytes: &[u8]) -> Result<(), OrMemory<Refusal>>
        requires { self.old.at + length bytes.now ≤ text_limit }
        ensures ok { OnOk result (keep bytes.now (state_of self.old) ≡ Ok self.new.made) }
        ensures others { OnOk result
            (state_of self.new ≡ record (state_of self.old) { made = self.new.made }) }
        ensures err { IfFault result (λ refusal. keep bytes.now (state_of self.old) ≡ Err refusal) }
    {
        if self.opens.is_read() {
            self.made.put_copied(bytes, self.at)?;
        }
        Ok(())
    }

    // What begins with a backtick, told from the bytes behind it.
    fn tick(&mut self, behind: &[u8]) -> Result<(), OrMemory<Refusal>>
        requires { self.old.at + length behind.now < text_limit }
        ensures ok { OnOk result (read_backtick behind.now (state_of self.old) ≡ Ok (state_of self.new)) }
        ensures on { OnOk result (self.old.at < self.new.at) }
        ensures within { OnOk result (self.new.at ≤ self.old.at + 1 + length behind.now) }
        ensures err { IfFault result (λ refusal.
            read_backtick behind.now (state_of self.old) ≡ Err refusal) }
    {
        let len = name_len(behind);
        let (name, rest) = behind.split_at(len);
        let taken = self.meet(name, rest)?;
        self.at += 1 + len + taken;
        self.fresh = false;
        Ok(())
    }

    // The name behind a backtick, and what stands behind it.
    fn meet(&mut self, name: &[u8], rest: &[u8]) -> Result<usize, OrMemory<Refusal>>
        requires { self.old.at ≤ text_limit }
        ensures ok { IfOk result
            (StepResult (read_name (word_in (by_name self.old.macros) name.now) name.now rest.now
            (state_of self.old)) (state_of self.new)) }
        ensures within { IfOk result (λ len. len ≤ length rest.now) }
        ensures still { self.new.at ≡ self.old.at }
        ensures err { IfFault result (λ refusal.
            read_name (word_in (by_name self.old.macros) name.now) name.now rest.now (state_of self.old)
            ≡ Err refusal) }
    {
        match self.word_in(name) {
            None => self.replace(name),
            Some(word) => self.heed(word, rest),
        }
    }

    // The directive that the name is the word of, if any.
    fn word_in(&self, name: &[u8]) -> Option<Word>
        ensures { result ≡ word_in (by_name self.now.macros) name.now }
    {
        if let Some(word) = directive_of(name) {
            return Some(word);
        }
        let Some(ignored) = ignored_of(name) else {
            return None;
        };
        if self.macros.has(name) {
            return None;
        }
        Some(Word::Ignored(ignored))
    }

    // A use of a macro.
    fn replace(&mut self, name: &[u8]) -> Result<usize, OrMemory<Refusal>>
        requires { self.old.at ≤ text_limit }
        ensures ok { IfOk result (StepResult (replace_use name.now (state_of self.old)) (state_of self.new)) }
        ensures none { IfOk result (λ len. len ≡ 0) }
        ensures still { self.new.at ≡ self.old.at }
        ensures err { IfFault result (λ refusal.
            replace_use name.now (state_of self.old) ≡ Err refusal) }
    {
        if self.opens.is_read() {
            put_use(&self.macros, name, self.at, LEVELS, &mut self.made)?;
        }
        Ok(0)
    }

    // A directive, where it is heeded.
    fn heed(&mut self, word: Word, rest: &[u8]) -> Result<usize, OrMemory<Refusal>>
        ensures ok { IfOk result
            (StepResult (heed word rest.now (state_of self.old)) (state_of self.new)) }
        ensures within { IfOk result (λ len. len ≤ length rest.now) }
        ensures still { self.new.at ≡ self.old.at }
        ensures err { IfFault result (λ refusal.
            heed word rest.now (state_of self.old) ≡ Err refusal) }
    {
        if !self.is_heeded(word) {
            return Ok(0);
        }
        if !self.fresh {
            return Err(refuse(Why::Directive, self.at));
        }
        self.obey(word, rest)
    }

    fn is_heeded(&self, word: Word) -> bool
        ensures { result ≡ (is_read self.now.opens || is_conditional word) }
    {
        self.opens.is_read() || is_conditional(word)
    }

    // A directive and what stands behind its word.
    fn obey(&mut self, word: Word, rest: &[u8]) -> Result<usize, OrMemory<Refusal>>
        ensures ok { IfOk result
            (StepResult (obey word rest.now (state_of self.old)) (state_of self.new)) }
        ensures within { IfOk result (λ len. len ≤ length rest.now) }
        ensures still { self.new.at ≡ self.old.at }
        ensures err { IfFault result (λ refusal.
            obey word rest.now (state_of self.old) ≡ Err refusal) }
    {
        match word {
            Word::Define => self.define(rest),
            Word::Undef => self.undefine(rest),
            Word::Ifdef => self.open(true, rest),
            Word::Ifndef => self.open(false, rest),
            Word::Elsif => self.otherwise_if(rest),
            Word::Else => self.otherwise(),
            Word::Endif => self.close(),
            Word::Timescale => self.time(rest),
            Word::DefaultNettype => self.set_type(rest),
            Word::Ignored(ignored) => self.pass_over(ignored, rest),
        }
    }

    fn define(&mut self, rest: &[u8]) -> Result<usize, OrMemory<Refusal>>
        ensures ok { IfOk result
            (StepResult (define (name_behind rest.now) rest.now (state_of self.old))
            (state_of self.new)) }
        ensures within { IfOk result (λ len. len ≤ length rest.now) }
        ensures still { self.new.at ≡ self.old.at }
        ensures err { IfFault result (λ refusal.
            define (name_behind rest.now) rest.now (state_of self.old) ≡ Err refusal) }
    {
        let Some((name, len)) = name_behind(rest) else {
            return Err(refuse(Why::Directive, self.at));
        };
        let behind = rest.split_at(len).1;
        if !is_defined_well(name, behind) {
            return Err(refuse(Why::Directive, self.at));
        }
        let blanks = blanks_len(behind);
        let text = behind.split_at(blanks).1;
        self.macros
            .define(self.alloc, name, macro_text(self.alloc, text)?)?;
        Ok(len + blanks + lines_len(text))
    }

    fn undefine(&mut self, rest: &[u8]) -> Result<usize, OrMemory<Refusal>>
        ensures ok { IfOk result
            (StepResult (undefine (name_behind rest.now) (state_of self.old)) (state_of self.new)) }
        ensures within { IfOk result (λ len. len ≤ length rest.now) }
        ensures still { self.new.at ≡ self.old.at }
        ensures err { IfFault result (λ refusal.
            undefine (name_behind rest.now) (state_of self.old) ≡ Err refusal) }
    {
        let Some((name, len)) = name_behind(rest) else {
            return Err(refuse(Why::Directive, self.at));
        };
        self.macros.undefine(self.alloc, name)?;
        Ok(len)
    }

    fn open(&mut self, wanted: bool, rest: &[u8]) -> Result<usize, OrMemory<Refusal>>
        ensures ok { IfOk result
            (StepResult (opening wanted (name_behind rest.now) (state_of self.old)) (state_of self.new)) }
        ensures within { IfOk result (λ len. len ≤ length rest.now) }
        ensures still { self.new.at ≡ self.old.at }
        ensures err { IfFault result (λ refusal.
            opening wanted (name_behind rest.now) (state_of self.old) ≡ Err refusal) }
    {
        let Some((name, len)) = name_behind(rest) else {
            return Err(refuse(Why::Directive, self.at));
        };
        let holds = self.holds(wanted, name);
        self.opens.begin(holds, self.at)?;
        Ok(len)
    }

    // Whether the name has a macro, or has none where that is wanted.
    fn holds(&self, wanted: bool, name: &[u8]) -> bool
        ensures { result ≡ is_met wanted
            (is_some (by_name self.now.macros name.now)) }
    {
        self.macros.has(name) == wanted
    }

    fn otherwise_if(&mut self, rest: &[u8]) -> Result<usize, OrMemory<Refusal>>
        ensures ok { IfOk result
            (StepResult (alternative (name_behind rest.now) (state_of self.old)) (state_of self.new)) }
        ensures within { IfOk result (λ len. len ≤ length rest.now) }
        ensures still { self.new.at ≡ self.old.at }
        ensures err { IfFault result (λ refusal.
            alternative (name_behind rest.now) (state_of self.old) ≡ Err refusal) }
    {
        let Some((name, len)) = name_behind(rest) else {
            return Err(refuse(Why::Directive, self.at));
        };
        let holds = self.holds(true, name);
        self.opens.turn(holds, false, self.at)?;
        Ok(len)
    }

    fn otherwise(&mut self) -> Result<usize, OrMemory<Refusal>>
        ensures ok { IfOk result
            (StepResult (with_opens 0 (state_of self.old) (begin_part true true self.old.at self.old.opens))
            (state_of self.new)) }
        ensures none { IfOk result (λ len. len ≡ 0) }
        ensures still { self.new.at ≡ self.old.at }
        ensures err { IfFault result (λ refusal.
            with_opens 0 (state_of self.old) (begin_part true true self.old.at self.old.opens) ≡ Err
            refusal) }
    {
        self.opens.turn(true, true, self.at)?;
        Ok(0)
    }

    fn close(&mut self) -> Result<usize, OrMemory<Refusal>>
        ensures ok { IfOk result
            (StepResult (with_opens 0 (state_of self.old) (close_part self.old.at self.old.opens))
            (state_of self.new)) }
        ensures none { IfOk result (λ len. len ≡ 0) }
        ensures still { self.new.at ≡ self.old.at }
        ensures err { IfFault result (λ refusal.
            with_opens 0 (state_of self.old) (close_part self.old.at self.old.opens) ≡ Err refusal) }
    {
        self.opens.close(self.at)?;
        Ok(0)
    }

    fn time(&mut self, rest: &[u8]) -> Result<usize, OrMemory<Refusal>>
        ensures ok { IfOk result
            (StepResult (with_timescale (timescale_behind rest.now) (state_of self.old)) (state_of self.new)) }
        ensures within { IfOk result (λ len. len ≤ length rest.now) }
        ensures still { self.new.at ≡ self.old.at }
        ensures err { IfFault result (λ refusal.
            with_timescale (timescale_behind rest.now) (state_of self.old) ≡ Err refusal) }
    {
        let Some((timescale, len)) = timescale_behind(rest) else {
            return Err(refuse(Why::Directive, self.at));
        };
        match self.timescale {
            None => self.timescale = Some(timescale),
            Some(first) => {
                if !first.is_like(timescale) {
                    return Err(refuse(Why::Timescales, self.at));
                }
            }
        }
        Ok(len)
    }

    fn set_type(&mut self, rest: &[u8]) -> Result<usize, OrMemory<Refusal>>
        ensures ok { IfOk result
            (StepResult (with_nettype (name_behind rest.now) (state_of self.old)) (state_of self.new)) }
        ensures within { IfOk result (λ len. len ≤ length rest.now) }
        ensures still { self.new.at ≡ self.old.at }
        ensures err { IfFault result (λ refusal.
            with_nettype (name_behind rest.now) (state_of self.old) ≡ Err refusal) }
    {
        let Some((name, len)) = name_behind(rest) else {
            return Err(refuse(Why::Directive, self.at));
        };
        if !is_nettype(name) {
            return Err(refuse(Why::Directive, self.at));
        }
        Ok(len)
    }

    // A directive that is passed over.
    fn pass_over(&mut self, ignored: Ignored, rest: &[u8]) -> Result<usize, OrMemory<Refusal>>
        ensures ok { IfOk result
            (StepResult (pass_over ignored (ignored_len ignored rest.now) (state_of self.old))
            (state_of self.new)) }
        ensures within { IfOk result (λ len. len ≤ length rest.now) }
        ensures still { self.new.at ≡ self.old.at }
        ensures err { IfFault result (λ refusal.
            pass_over ignored (ignored_len ignored rest.now) (state_of self.old) ≡ Err refusal) }
    {
        let Some(len) = ignored_len(ignored, rest) else {
            return Err(refuse(Why::Directive, self.at));
        };
        self.keywords = keywords_behind(ignored, self.at, self.keywords)?;
        Ok(len)
    }
}

/// The walk over a whole text. E113 where a conditional is left open at its end.
pub fn walk_over(alloc: Global, text: &[u8]) -> Result<Walk, OrMemory<Refusal>>
    requires { length text.now ≤ text_limit }
    ensures ok { IfOk result (λ walk. walk_text text.now ≡ Ok (state_of walk)) }
    ensures err { IfFault result (λ refusal. walk_text text.now ≡ Err refusal) }
{
    let mut walk = Walk::new(alloc);
    while walk.at < text.len() {
        let rest = text.split_at(walk.at).1;
        walk.step(rest)?;
    }
    match walk.opens.innermost() {
        None => Ok(walk),
        Some(inner) => Err(refuse(Why::Open, inner.at)),
    }
}

// Whether the name may be given the text that stands at once behind it.
fn is_defined_well(name: &[u8], behind: &[u8]) -> bool
    ensures { result ≡ (may_be_macro name.now && not (begins_arguments behind.now)) }
{
    may_be_macro(name) && !begins_arguments(behind)
}

fn begins_arguments(behind: &[u8]) -> bool
    ensures { result ≡ begins_arguments behind.now }
{
    if behind.is_empty() {
        return false;
    }
    behind[0] == b'('
}

fn is_nettype(name: &[u8]) -> bool
    ensures { result ≡ is_nettype name.now }
{
    name == b"none".as_slice() || name == b"wire".as_slice()
}

fn is_fresh(fresh: bool, byte: u8) -> bool
    ensures { result ≡ is_fresh fresh byte }
{
    byte == b'\n' || (fresh && is_blank(byte))
}

fn is_conditional(word: Word) -> bool
    ensures { result ≡ is_conditional word }
{
    match word {
        Word::Define => false,
        Word::Undef => false,
        Word::Ifdef => true,
        Word::Ifndef => true,
        Word::Elsif => true,
        Word::Else => true,
        Word::Endif => true,
        Word::Timescale => false,
        Word::DefaultNettype => false,
        Word::Ignored(_) => false,
    }
}
