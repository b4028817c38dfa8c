// The text that an expansion makes, as it grows.

ghost use Rattle.std.specs.Prelude.{◌≡◌, ◌≤◌, ◌<◌, ◌+◌, ◌++◌, nat_lt, nat_le, length, map, OnOk, Ok, Err};
ghost use Rattle.std.specs.List.{range_with_len};
ghost use Rattle.basis.specs.Reasons.{IfFault};
ghost use Rattle.vsrc.specs.Source.{text_limit};

use crate::refusal::{Refusal, Why, refuse};
use basis::{NoMemory, OrMemory};
use std::alloc::Global;
use std::marker::Model;

/// The most bytes that a text may have.
pub const TEXT_LIMIT: usize = 33_554_432;
// The most uses of macros that are expanded.
const USE_LIMIT: u32 = 1_000_000;

/// The text that was made so far, where in the joined files each of its bytes comes from, and how many uses of macros
/// were expanded.
#[derive(Drop)]
pub struct Output {
    text: Vec<u8>,
    origins: Vec<u32>,
    uses: u32,
}

impl Model for Output {
    ghost use Rattle.std.specs.Prelude.{◌≤◌, length};
    ghost use Rattle.vsrc.specs.Source.{text_limit};
    ghost use Rattle.vsrc.specs.Macros.{Made, use_limit};

    ghost Value = { Made };

    ghost view = { λ o. record { text = o.text.items; origins = o.origins.items; uses = o.uses } };

    ghost invariant = { λ o. record { short : length o.text.items ≤ text_limit; few : o.uses ≤ use_limit } };
}

impl Output {
    ghost use Rattle.vsrc.specs.Macros.{Made, nothing_made, put_copied, put_given, count_use, use_limit};

    /// Nothing yet.
    pub fn new(alloc: Global) -> Output
        ensures { result ≡ nothing_made }
    {
        Output {
            text: Vec::new(alloc),
            origins: Vec::new(alloc),
            uses: 0,
        }
    }

    /// Puts bytes of the joined files after the text; they stand there from `at` on. Refused where the text gets too long.
    pub fn put_copied(&mut self, bytes: &[u8], at: usize) -> Result<(), OrMemory<Refusal>>
        requires { at + length bytes.now ≤ text_limit }
        ensures ok { OnOk result (put_copied bytes.now at self.old ≡ Ok self.new) }
        ensures err { IfFault result (λ refusal. put_copied bytes.now at self.old ≡ Err refusal) }
    {
        if bytes.len() > TEXT_LIMIT - self.text.len() {
            return Err(refuse(Why::Limit, at));
        }
        self.text.extend_from_slice(bytes)?;
        push_run(&mut self.origins, at, bytes.len())?;
        Ok(())
    }

    /// Puts bytes that a macro gave after the text, for a use at `at`. Refused where the text gets too long.
    pub fn put_given(&mut self, bytes: &[u8], at: usize) -> Result<(), OrMemory<Refusal>>
        requires { at ≤ text_limit }
        ensures ok { OnOk result (put_given bytes.now at self.old ≡ Ok self.new) }
        ensures err { IfFault result (λ refusal. put_given bytes.now at self.old ≡ Err refusal) }
    {
        if bytes.len() > TEXT_LIMIT - self.text.len() {
            return Err(refuse(Why::Limit, at));
        }
        self.text.extend_from_slice(bytes)?;
        push_same(&mut self.origins, at, bytes)?;
        Ok(())
    }

    /// Whether no further use may be expanded.
    pub fn is_used_up(&self) -> bool
        ensures { result ≡ nat_le use_limit self.now.uses }
    {
        self.uses >= USE_LIMIT
    }

    /// Counts a use.
    pub fn count(&mut self)
        requires { self.old.uses < use_limit }
        ensures { self.new ≡ count_use self.old }
    {
        self.uses += 1;
    }

    /// The text, and where its bytes come from.
    pub fn into_parts(self) -> (Vec<u8>, Vec<u32>)
        ensures text { result.0.items ≡ self.text }
        ensures origins { result.1.items ≡ self.origins }
        ensures short { length self.text ≤ text_limit }
    {
        let Output {
            text,
            origins,
            uses: _,
        } = self;
        (text, origins)
    }
}

// Adds the places from `at` on, so many.
fn push_run(origins: &mut Vec<u32>, at: usize, len: usize) -> Result<(), NoMemory>
    requires { at + len ≤ text_limit }
    ensures { OnOk result (origins.new.items ≡ origins.old.items ++ range_with_len at len) }
{
    for place in at..at + len {
        origins.push(place as u32)?;
    }
    Ok(())
}

// Adds the same place for each of the bytes.
fn push_same(origins: &mut Vec<u32>, at: usize, bytes: &[u8]) -> Result<(), NoMemory>
    requires { at ≤ text_limit }
    ensures { OnOk result (origins.new.items ≡ origins.old.items ++ map (λ byte. at) bytes.now) }
{
    for _byte in bytes {
        origins.push(at as u32)?;
    }
    Ok(())
}
