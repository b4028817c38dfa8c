// Conditional parts of a text (IEEE 1364-2005, 19.4).

ghost use Rattle.std.specs.Prelude.{◌≡◌, OnOk, Ok, Err};
ghost use Rattle.basis.specs.Reasons.{IfFault};
ghost use Rattle.vsrc.specs.Conditionals.{first_part, next_part, is_taken};

use crate::refusal::{Refusal, Why, refuse};
use basis::OrMemory;
use std::alloc::Global;
use std::marker::Model;

/// What becomes of the part of a conditional that the walk is in.
#[derive(Clone, Copy)]
pub enum Part {
    /// It is read.
    Read,
    /// It is skipped, and none was read before it.
    Sought,
    /// It is skipped, and so are those after it.
    Past,
}

/// A conditional that is open: where its word stands, its part, and whether that is the one after `else`.
#[derive(Clone, Copy)]
pub struct Open {
    pub at: usize,
    pub part: Part,
    pub last: bool,
}

/// The conditionals that are open.
#[derive(Drop)]
pub struct Opens {
    // the innermost last
    stack: Vec<Open>,
}

impl Model for Opens {
    ghost use Rattle.std.specs.Prelude.{List, reverse};
    ghost use Rattle.vsrc.specs.declared.conditionals.Open.{Open};

    ghost Value = { List Open };

    ghost view = { λ o. reverse o.stack.items };
}

impl Opens {
    ghost use Rattle.std.specs.Prelude.{[], slice_get};
    ghost use Rattle.vsrc.specs.Conditionals.{is_read, open_part, begin_part, close_part};

    /// None is open.
    pub fn new(alloc: Global) -> Opens
        ensures { result ≡ [] }
    {
        Opens {
            stack: Vec::new(alloc),
        }
    }

    /// The innermost one.
    pub fn innermost(&self) -> Option<Open>
        ensures { result ≡ slice_get self.now 0 }
    {
        self.stack.last().copied()
    }

    /// Whether what stands here is read.
    pub fn is_read(&self) -> bool
        ensures { result ≡ is_read self.now }
    {
        match self.innermost() {
            None => true,
            Some(inner) => is_taken(inner.part),
        }
    }

    /// Opens one at `at`. E112 where there are 32.
    pub fn begin(&mut self, holds: bool, at: usize) -> Result<(), OrMemory<Refusal>>
        ensures ok { OnOk result (open_part holds at self.old ≡ Ok self.new) }
        ensures err { IfFault result (λ refusal. open_part holds at self.old ≡ Err refusal) }
    {
        if self.stack.len() >= 32 {
            return Err(refuse(Why::Limit, at));
        }
        let part = first_part(self.is_read(), holds);
        self.stack.push(Open {
            at,
            part,
            last: false,
        })?;
        Ok(())
    }

    /// Begins the next part of the innermost one. E110 where none is open, or the part after `else` is.
    pub fn turn(&mut self, holds: bool, last: bool, at: usize) -> Result<(), OrMemory<Refusal>>
        ensures ok { OnOk result (begin_part holds last at self.old ≡ Ok self.new) }
        ensures err { IfFault result (λ refusal. begin_part holds last at self.old ≡ Err refusal) }
    {
        let Some(inner) = self.stack.pop() else {
            return Err(refuse(Why::Directive, at));
        };
        if inner.last {
            return Err(refuse(Why::Directive, at));
        }
        self.stack.push(Open {
            at: inner.at,
            part: next_part(inner.part, holds),
            last,
        })?;
        Ok(())
    }

    /// Closes the innermost one. E110 where none is open.
    pub fn close(&mut self, at: usize) -> Result<(), OrMemory<Refusal>>
        ensures ok { OnOk result (close_part at self.old ≡ Ok self.new) }
        ensures err { IfFault result (λ refusal. close_part at self.old ≡ Err refusal) }
    {
        match self.stack.pop() {
            None => Err(refuse(Why::Directive, at)),
            Some(_) => Ok(()),
        }
    }
}

fn is_taken(part: Part) -> bool
    ensures { result ≡ is_taken part }
{
    match part {
        Part::Read => true,
        Part::Sought => false,
        Part::Past => false,
    }
}

fn first_part(read: bool, holds: bool) -> Part
    ensures { result ≡ first_part read holds }
{
    if !read {
        return Part::Past;
    }
    if holds { Part::Read } else { Part::Sought }
}

fn next_part(part: Part, holds: bool) -> Part
    ensures { result ≡ next_part part holds }
{
    match part {
        Part::Read => Part::Past,
        Part::Sought => { if holds { Part::Read } else { Part::Sought } }
        Part::Past => Part::Past,
    }
}
