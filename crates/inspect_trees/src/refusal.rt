// Texts that are refused.

use basis::OrMemory;
use std::alloc::Global;
use vlex::{LexFault, Tokens, tokens};
use vparse::SyntaxFault;
use vsrc::{Expanded, Place, SrcFault, expand};

/// A fault of a text: its number, and its place in the files.
#[derive(Clone, Copy)]
pub struct Refusal {
    pub number: u32,
    pub place: Place,
}

fn of_source(fault: SrcFault) -> Refusal {
    match fault {
        SrcFault::Directive { place } => Refusal { number: 110, place },
        SrcFault::NoMacro { place } => Refusal { number: 111, place },
        SrcFault::Growth { place } => Refusal { number: 112, place },
        SrcFault::LeftOpen { place } => Refusal { number: 113, place },
        SrcFault::Timescales { place } => Refusal { number: 114, place },
    }
}

fn of_tokens(fault: LexFault) -> Refusal {
    match fault {
        LexFault::NotEnded { place } => Refusal { number: 101, place },
        LexFault::BadToken { place } => Refusal { number: 102, place },
    }
}

/// The refusal of a text that has no tree.
pub fn of_tree(fault: SyntaxFault) -> Refusal {
    match fault {
        SyntaxFault::NoTree { place } => Refusal { number: 201, place },
        SyntaxFault::Outside { place } => Refusal { number: 202, place },
        SyntaxFault::TooDeep { place } => Refusal { number: 203, place },
    }
}

/// The text of the files after directives and macros.
pub fn source_of(alloc: Global, files: &[Vec<u8>]) -> Result<Expanded, OrMemory<Refusal>> {
    match expand(alloc, files) {
        Ok(source) => Ok(source),
        Err(OrMemory::Fault(fault)) => Err(OrMemory::Fault(of_source(fault))),
        Err(OrMemory::Memory(refused)) => Err(OrMemory::Memory(refused)),
    }
}

/// The tokens of a text.
pub fn tokens_of<'s>(alloc: Global, source: &'s Expanded) -> Result<Tokens<'s>, OrMemory<Refusal>> {
    match tokens(alloc, source) {
        Ok(tokens) => Ok(tokens),
        Err(OrMemory::Fault(fault)) => Err(OrMemory::Fault(of_tokens(fault))),
        Err(OrMemory::Memory(refused)) => Err(OrMemory::Memory(refused)),
    }
}
