// The tree of the text on standard input, as one line in which each node stands as `(kind part ..)` and each word that a node keeps as it
// is written; or one line with the number and the place of the fault that the text is refused for, with status 2. With the word `spell`
// the line has whether the tree fits its words, and the words that it spells; with `expression` and a number the number of the word behind
// the longest expression that begins at the word of that number, and that expression's tree; with `delays` and a number whether the tree of
// so many delays round an empty statement fits the words.

mod expressions;
mod items;
mod lines;
mod modules;
mod page;
mod statements;
mod tasks;

use crate::refusal::{Refusal, of_tree, source_of, tokens_of};
use crate::word_at;
use basis::OrMemory;
use lines::{delays_line, expression_line, spelling_line, tree_line};
use std::alloc::Global;
use std::io::{self, Read, Write};
use std::process::ExitCode;

// What is asked for.
#[derive(Clone, Copy)]
enum Asked {
    Tree,
    Spelling,
    Expression(usize),
    Delays(usize),
}

// What the words ask for: the tree, where they ask for nothing else.
fn asked_of(words: &[String]) -> Asked {
    let number = word_at(words, 1).parse::<usize>().unwrap_or(0);
    match word_at(words, 0) {
        "spell" => Asked::Spelling,
        "expression" => Asked::Expression(number),
        "delays" => Asked::Delays(number),
        _ => Asked::Tree,
    }
}

// The line that tells of a text.
fn answer(alloc: Global, text: Vec<u8>, asked: Asked) -> Result<Vec<u8>, OrMemory<Refusal>> {
    let mut files = Vec::new(alloc);
    files.push(text)?;
    let source = source_of(alloc, &files)?;
    let tokens = tokens_of(alloc, &source)?;
    let line = match asked {
        Asked::Tree => tree_line(alloc, &tokens),
        Asked::Spelling => spelling_line(alloc, &tokens),
        Asked::Expression(at) => expression_line(alloc, &tokens, at),
        Asked::Delays(count) => delays_line(alloc, &tokens, count),
    };
    match line {
        Ok(line) => Ok(line),
        Err(OrMemory::Fault(fault)) => Err(OrMemory::Fault(of_tree(fault))),
        Err(OrMemory::Memory(refused)) => Err(OrMemory::Memory(refused)),
    }
}

/// Writes what these words ask for.
pub fn tell(rt: &HostRuntime, words: &[String]) -> io::Result<ExitCode> {
    let mut text = Vec::new(rt.alloc());
    rt.reader().read_to_end(&mut text)?;
    match answer(rt.alloc(), text, asked_of(words)) {
        Ok(line) => {
            io::writer(rt).write_all(&line)?;
            return Ok(ExitCode::SUCCESS);
        }
        Err(OrMemory::Fault(Refusal { number, place })) => {
            println!(rt; "E{number} at {}:{}", place.file, place.line)?
        }
        Err(OrMemory::Memory(_)) => rt.println("E901")?,
    }
    Ok(ExitCode::from(2))
}
