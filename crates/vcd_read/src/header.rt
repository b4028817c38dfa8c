// Declarations: the variables of a dump, with the names of their scopes.

ghost use Rattle.std.specs.Prelude.{◌≡◌, ◌∷◌, ◌++◌, [], ◌<◌, ◌≤◌, ◌==◌, true, false, codes, get_or, List, length, None, IfOk};
ghost use Rattle.std.specs.List.{prefix_len};
ghost use Rattle.vcd_read.specs.Words.{Text};
ghost use Rattle.vcd_read.specs.Bytes.{left, IsReady, Come, Takes};
ghost use Rattle.vcd_read.specs.Declaring.{Lead, all_seen, outer_of, view_of};
ghost use Rattle.vcd_read.specs.Declarations.{Declares, declared_variable, name_of as name_of_reference, is_declaring, is_no_bracket, is_note, is_telling, last_words};

use crate::fault::{VcdFault, VcdFlaw};
use crate::numbers::decimal_in;
use crate::same::is_same;
use crate::timescale::read_span;
use crate::words::WordReader;
use basis::{NoMemory, OrMemory, Span};
use std::alloc::Global;
use std::io::Read;
use std::mem;

/// A variable of a dump: its name with those of its scopes, as `tb.u.q`, how many bits it has, and the code that stands for it (18.2.3.8).
#[derive(Drop)]
pub struct VcdVariable {
    pub name: Vec<u8>,
    pub width: u64,
    pub code: Vec<u8>,
}

/// The variables so far, with what names begin with in the open scope, and in those round it; and the unit of times, if it was declared.
#[derive(Drop)]
pub(crate) struct Header {
    prefix: Vec<u8>,
    outer: Vec<Vec<u8>>,
    pub(crate) unit: Option<Span>,
    pub(crate) variables: Vec<VcdVariable>,
}

// How deep scopes nest at most, and how many variables there are at most.
const DEEPEST: usize = 1_024;

const MOST: usize = 1_048_576;

// Whether the byte may stand before the range of a reference.
fn is_of_name(byte: u8) -> bool
    ensures { result ≡ is_no_bracket byte }
{
    byte != b'['
}

// What stands before the range of a reference.
fn name_len(reference: &[u8]) -> usize
    ensures within { result ≤ length reference.now }
    ensures value { result ≡ prefix_len is_no_bracket reference.now }
{
    for (at, byte) in reference.iter().enumerate() {
        if !is_of_name(*byte) {
            return at;
        }
    }
    reference.len()
}

// Whether the word begins with this letter.
fn begins_with(word: &[u8], letter: u8) -> bool
    requires { 0 < letter }
    ensures { result ≡ (get_or word.now 0 0 == letter) }
{
    match word.split_first() {
        None => false,
        Some((first, _)) => *first == letter,
    }
}

// The name of a reference.
fn name_of(reference: &[u8]) -> &[u8]
    ensures { result.now ≡ name_of_reference reference.now }
{
    let Some((first, name)) = reference.split_first() else {
        return reference;
    };
    if *first == b'\\' {
        return name;
    }
    reference.split_at(name_len(reference)).0
}

// The variable of this reference, where names begin so.
fn variable_of(
    prefix: &Vec<u8>,
    reference: &[u8],
    width: u64,
    code: Vec<u8>,
) -> Result<VcdVariable, NoMemory>
    ensures { IfOk result (λ v. view_of v ≡ declared_variable prefix.now.items reference.now width code.items) }
{
    let mut name = prefix.clone()?;
    name.extend_from_slice(name_of(reference))?;
    Ok(VcdVariable { name, width, code })
}

// Whether it is a keyword of declarations that tell something.
fn is_declaring(word: &[u8]) -> bool
    ensures { result ≡ is_declaring word.now }
{
    is_same(word, b"$scope")
        || is_same(word, b"$upscope")
        || is_same(word, b"$var")
        || is_same(word, b"$timescale")
        || is_same(word, b"$enddefinitions")
}

// Whether it is one of what comes behind the declarations, or an end.
fn is_telling(word: &[u8]) -> bool
    ensures { result ≡ is_telling word.now }
{
    is_same(word, b"$end")
        || is_same(word, b"$dumpvars")
        || is_same(word, b"$dumpall")
        || is_same(word, b"$dumpoff")
        || is_same(word, b"$dumpon")
}

// Whether words with this keyword are passed over.
fn is_note(word: &[u8]) -> bool
    ensures { result ≡ is_note word.now }
{
    begins_with(word, b'$') && !is_declaring(word) && !is_telling(word)
}

impl Header {
    /// Nothing is declared yet.
    pub(crate) fn new(alloc: Global) -> Header
        ensures prefix { result.prefix.items ≡ [] }
        ensures outer { result.outer.items ≡ [] }
        ensures unit { result.unit ≡ None }
        ensures variables { result.variables.items ≡ [] }
    {
        Header {
            prefix: Vec::new(alloc),
            outer: Vec::new(alloc),
            unit: None,
            variables: Vec::new(alloc),
        }
    }

    // In the scope of this name.
    fn enter(&mut self, name: &[u8]) -> Result<(), NoMemory>
        ensures prefix { IfOk result (λ _. self.new.prefix.items ≡ self.old.prefix.items ++ (name.now ++ 46 ∷ [])) }
        ensures outer { IfOk result (λ _. outer_of self.new ≡ self.old.prefix.items ∷ outer_of self.old) }
        ensures unit { IfOk result (λ _. self.new.unit ≡ self.old.unit) }
        ensures variables { IfOk result (λ _. self.new.variables.items ≡ self.old.variables.items) }
    {
        let mut prefix = self.prefix.clone()?;
        prefix.extend_from_slice(name)?;
        prefix.push(b'.')?;
        self.outer.push(mem::replace(&mut self.prefix, prefix))?;
        Ok(())
    }

    // Out of the innermost scope; false where none is open.
    fn leave(&mut self) -> bool
        ensures outer { result ≡ true → outer_of self.old ≡ self.new.prefix.items ∷ outer_of self.new }
        ensures unit { self.new.unit ≡ self.old.unit }
        ensures variables { self.new.variables.items ≡ self.old.variables.items }
    {
        match self.outer.pop() {
            None => false,
            Some(prefix) => {
                self.prefix = prefix;
                true
            }
        }
    }

    // With a variable of this reference more.
    fn add(&mut self, reference: &[u8], width: u64, code: Vec<u8>) -> Result<(), NoMemory>
        ensures prefix { IfOk result (λ _. self.new.prefix.items ≡ self.old.prefix.items) }
        ensures outer { IfOk result (λ _. outer_of self.new ≡ outer_of self.old) }
        ensures unit { IfOk result (λ _. self.new.unit ≡ self.old.unit) }
        ensures variables { IfOk result (λ _. all_seen self.new.variables.items
            ≡ all_seen self.old.variables.items ++ declared_variable self.old.prefix.items reference.now width code.items ∷ []) }
    {
        let variable = variable_of(&self.prefix, reference, width, code)?;
        self.variables.push(variable)?;
        Ok(())
    }

    // A scope opens: its kind, its name, the end.
    fn open<R: Read + Drop>(
        &mut self,
        alloc: Global,
        words: &mut WordReader<R>,
    ) -> Result<(), OrMemory<VcdFault>>
        requires { IsReady words.old.bytes }
        ensures ready { IsReady words.new.bytes }
        ensures lead { IfOk result (λ _. Takes R.remaining words.old words.new
            (λ list. Lead (codes "$scope" ∷ list) self.old self.new)) }
        ensures budget { IfOk result (λ _. words.new.bytes.budget < words.old.bytes.budget) }
    {
        words.must()?;
        let name = words.take(alloc)?;
        words.expect(b"$end")?;
        if self.outer.len() >= DEEPEST {
            return Err(words.no_dump(VcdFlaw::Limit));
        }
        self.enter(&name)?;
        Ok(())
    }

    // The innermost scope closes: the end.
    fn close<R: Read + Drop>(&mut self, words: &mut WordReader<R>) -> Result<(), OrMemory<VcdFault>>
        requires { IsReady words.old.bytes }
        ensures ready { IsReady words.new.bytes }
        ensures lead { IfOk result (λ _. Takes R.remaining words.old words.new
            (λ list. Lead (codes "$upscope" ∷ list) self.old self.new)) }
        ensures budget { IfOk result (λ _. words.new.bytes.budget < words.old.bytes.budget) }
    {
        words.expect(b"$end")?;
        if self.leave() {
            Ok(())
        } else {
            Err(words.no_dump(VcdFlaw::Scope))
        }
    }

    // The unit of times: a number and a unit, the end.
    fn time<R: Read + Drop>(
        &mut self,
        alloc: Global,
        words: &mut WordReader<R>,
    ) -> Result<(), OrMemory<VcdFault>>
        requires { IsReady words.old.bytes }
        ensures ready { IsReady words.new.bytes }
        ensures lead { IfOk result (λ _. Takes R.remaining words.old words.new
            (λ list. Lead (codes "$timescale" ∷ list) self.old self.new)) }
        ensures budget { IfOk result (λ _. words.new.bytes.budget < words.old.bytes.budget) }
    {
        if self.unit.is_some() {
            return Err(words.no_dump(VcdFlaw::Timescale));
        }
        let Some(unit) = read_span(alloc, words)? else {
            return Err(words.no_dump(VcdFlaw::Timescale));
        };
        words.expect(b"$end")?;
        self.unit = Some(unit);
        Ok(())
    }

    // A variable: its kind, its size, its code, its name, perhaps a range, the end.
    fn declare<R: Read + Drop>(
        &mut self,
        alloc: Global,
        words: &mut WordReader<R>,
    ) -> Result<(), OrMemory<VcdFault>>
        requires { IsReady words.old.bytes }
        ensures ready { IsReady words.new.bytes }
        ensures lead { IfOk result (λ _. Takes R.remaining words.old words.new
            (λ list. Lead (codes "$var" ∷ list) self.old self.new)) }
        ensures budget { IfOk result (λ _. words.new.bytes.budget < words.old.bytes.budget) }
    {
        words.must()?;
        words.must()?;
        let Some(width) = decimal_in(words.word()) else {
            return Err(words.no_dump(VcdFlaw::Number));
        };
        let code = words.take(alloc)?;
        let reference = words.take_inner(alloc)?;
        words.pass()?;
        if self.variables.len() >= MOST {
            return Err(words.no_dump(VcdFlaw::Limit));
        }
        self.add(&reference, width, code)?;
        Ok(())
    }

    // One declaration; false where it is the end of them.
    fn go_on<R: Read + Drop>(
        &mut self,
        alloc: Global,
        words: &mut WordReader<R>,
    ) -> Result<bool, OrMemory<VcdFault>>
        requires { IsReady words.old.bytes }
        ensures ready { IsReady words.new.bytes }
        ensures more { IfOk result (λ more. more ≡ true →
            Takes R.remaining words.old words.new (λ list. Lead list self.old self.new)) }
        ensures last { IfOk result (λ more. more ≡ false →
            Come last_words (left R.remaining words.old.bytes) (left R.remaining words.new.bytes) × (self.new ≡ self.old)) }
        ensures budget { IfOk result (λ _. words.new.bytes.budget < words.old.bytes.budget) }
    {
        words.must()?;
        let keyword = words.word();
        if keyword == b"$scope".as_slice() {
            self.open(alloc, words)?;
        } else if keyword == b"$upscope".as_slice() {
            self.close(words)?;
        } else if keyword == b"$var".as_slice() {
            self.declare(alloc, words)?;
        } else if keyword == b"$timescale".as_slice() {
            self.time(alloc, words)?;
        } else if is_note(keyword) {
            words.pass()?;
        } else if keyword == b"$enddefinitions".as_slice() {
            words.expect(b"$end")?;
            return Ok(false);
        } else {
            return Err(words.no_dump(VcdFlaw::Word));
        }
        Ok(true)
    }

    /// All declarations, with what they declare.
    pub(crate) fn read<R: Read + Drop>(
        alloc: Global,
        words: &mut WordReader<R>,
    ) -> Result<Header, OrMemory<VcdFault>>
        requires { IsReady words.old.bytes }
        ensures ready { IsReady words.new.bytes }
        ensures declared { IfOk result (λ header. Takes R.remaining words.old words.new (λ list.
            Declares None [] [] list header.unit (all_seen header.variables.items))) }
    {
        let mut header = Header::new(alloc);
        'declarations: loop {
            if !header.go_on(alloc, words)? {
                return Ok(header);
            }
        }
    }
}
