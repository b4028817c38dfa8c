// What a text declares, as far as it tells what is left out: its modules, and their outputs.

use crate::construct::Construct;
use crate::modules::{Named, are_named, modules_of};
use crate::walk::{Group, Level, Opening, Walk};
use crate::words::{Words, is, is_name, is_one_of};
use basis::NoMemory;
use std::alloc::Global;
use vlex::Tokens;

// How many outputs are kept: a design has no more ports.
const MOST: usize = 1_024;

// How far the words of a connection are looked at.
const FAR: usize = 256;

// An output of a module, by both names.
#[derive(Clone, Copy)]
struct Output<'a> {
    module: &'a [u8],
    port: &'a [u8],
}

/// The modules of a text, and their outputs.
#[derive(Drop)]
pub(crate) struct Declared<'a> {
    modules: Vec<Named<'a>>,
    outputs: Vec<Output<'a>>,
}

// The module that is read, and whether the ports that are declared are outputs.
#[derive(Clone, Copy)]
struct Head<'a> {
    module: &'a [u8],
    is_output: bool,
}

// Whether the word stands among the ports of a module's head.
fn is_in_ports(walk: Walk) -> bool {
    walk.level == Level::Head && walk.group == Group::Plain && walk.open == 1
}

// Whether the word stands in an item that declares ports.
fn is_in_item(walk: Walk) -> bool {
    walk.level == Level::Items && walk.opening == Opening::Port && walk.open == 0
}

// Whether the word is the name of a port, where its direction was told before.
fn is_port(words: Words<'_>, walk: Walk) -> bool {
    let next = words.after;
    let is_listed = is_in_ports(walk) && is_one_of(next, ", ) =");
    let is_declared = is_in_item(walk) && is_one_of(next, ", ; =");
    is_name(words.word) && !walk.assigned && (is_listed || is_declared)
}

impl<'a> Head<'a> {
    // Behind the word.
    fn after(&self, words: Words<'a>, walk: Walk) -> Head<'a> {
        let mut next = *self;
        if is(words.before, "module") {
            next.module = words.name();
            next.is_output = false;
        }
        if walk.level == Level::Items && walk.starts {
            next.is_output = is(words.word, "output");
        }
        if is_in_ports(walk) && is_one_of(words.word, "input output inout") {
            next.is_output = is(words.word, "output");
        }
        next
    }
}

// The outputs of the modules of a text.
fn outputs_of<'a>(alloc: Global, tokens: &'a Tokens<'a>) -> Result<Vec<Output<'a>>, NoMemory> {
    let mut outputs = Vec::new(alloc);
    let mut walk = Walk::new();
    let mut head = Head {
        module: &[],
        is_output: false,
    };
    for at in 0..tokens.len() {
        let words = Words::new(tokens, at);
        head = head.after(words, walk);
        if head.is_output && is_port(words, walk) && outputs.len() < MOST {
            outputs.push(Output {
                module: head.module,
                port: words.name(),
            })?;
        }
        walk = walk.after(words);
    }
    Ok(outputs)
}

/// What the text declares.
pub(crate) fn declared_of<'a>(
    alloc: Global,
    tokens: &'a Tokens<'a>,
) -> Result<Declared<'a>, NoMemory> {
    let all = modules_of(alloc, tokens)?;
    Ok(Declared {
        modules: all.modules,
        outputs: outputs_of(alloc, tokens)?,
    })
}

// Whether the word begins a path of `$dumpvars`.
fn is_path(words: Words<'_>, walk: Walk) -> bool {
    walk.group == Group::Dump && walk.open == 1 && is(words.before, ",") && is_name(words.word)
}

// Whether the word so many places later may stand in what is driven, outside of square brackets.
fn is_of_target(words: Words<'_>, more: usize) -> bool {
    is_name(words.word_after(more)) || is_one_of(words.word_after(more), "{ } , [ ]")
}

// Whether what this word begins, up to the parenthesis that closes it, is nets, bits and parts of nets, and concatenations of these; or
// it is nothing, or longer.
fn is_target(words: Words<'_>) -> bool {
    let mut open = 0usize;
    for more in 0..FAR {
        let word = words.word_after(more);
        if open == 0 && is(word, ")") {
            return true;
        }
        if open == 0 && !is_of_target(words, more) {
            return false;
        }
        if is(word, "[") {
            open = open.saturating_add(1);
        }
        if is(word, "]") {
            open = open.saturating_sub(1);
        }
    }
    true
}

// Whether the word begins an expression to which a port is connected by name, and which can't be driven.
fn is_expression(words: Words<'_>, walk: Walk) -> bool {
    let is_first = is(words.before, "(") && is(words.word_before(3), ".");
    walk.level == Level::Items
        && walk.opening == Opening::Instance
        && walk.open == 2
        && is_first
        && !is_target(words)
}

impl<'a> Declared<'a> {
    // Whether the module has an output of this name.
    fn has_output(&self, module: &[u8], port: &[u8]) -> bool {
        for one in &self.outputs {
            if one.module == module && one.port == port {
                return true;
            }
        }
        false
    }

    /// The construct that the word tells, in an instance of this module, by what is declared.
    pub(crate) fn construct_of(
        &self,
        words: Words<'_>,
        walk: Walk,
        module: &[u8],
    ) -> Option<Construct> {
        if is_path(words, walk) && !are_named(&self.modules, words.name()) {
            return Some(Construct::DumpPath);
        }
        if is_expression(words, walk) && self.has_output(module, words.name_before(2)) {
            return Some(Construct::OutputExpression);
        }
        None
    }
}
