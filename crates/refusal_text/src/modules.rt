// The modules of a text, and of which of them there are instances.

use crate::walk::{Level, Opening, Walk};
use crate::words::{Words, is, is_name};
use basis::NoMemory;
use indexmap::IndexSet;
use std::alloc::Global;
use vlex::Tokens;
use vsrc::Place;

/// A module, or an instance of one, by the module's name, and the word that has the name.
#[derive(Clone, Copy)]
pub(crate) struct Named<'a> {
    pub(crate) name: &'a [u8],
    pub(crate) word: &'a [u8],
    pub(crate) place: Place,
}

/// The modules of a text, and its instances, each by the name of its module.
#[derive(Drop)]
pub(crate) struct Modules<'a> {
    pub(crate) modules: Vec<Named<'a>>,
    pub(crate) instances: Vec<Named<'a>>,
}

/// Whether one of these has the name.
pub(crate) fn are_named(all: &[Named<'_>], name: &[u8]) -> bool {
    for one in all {
        if one.name == name {
            return true;
        }
    }
    false
}

/// Their names, each once.
pub(crate) fn names_of(alloc: Global, all: &[Named<'_>]) -> Result<IndexSet<Vec<u8>>, NoMemory> {
    let mut names = IndexSet::new(alloc);
    for one in all {
        names.insert(Vec::from_slice(alloc, one.name)?)?;
    }
    Ok(names)
}

/// Whether the word begins instances of a module.
pub(crate) fn begins_instances(words: Words<'_>, walk: Walk) -> bool {
    walk.level == Level::Items
        && walk.starts
        && walk.after(words).opening == Opening::Instance
        && (is_name(words.after) || is(words.after, "#"))
}

/// The modules and the instances of a text.
pub(crate) fn modules_of<'a>(
    alloc: Global,
    tokens: &'a Tokens<'a>,
) -> Result<Modules<'a>, NoMemory> {
    let mut modules = Vec::new(alloc);
    let mut instances = Vec::new(alloc);
    let mut walk = Walk::new();
    for at in 0..tokens.len() {
        let words = Words::new(tokens, at);
        let named = Named {
            name: words.name(),
            word: words.word,
            place: words.place(),
        };
        if is(words.before, "module") {
            modules.push(named)?;
        } else if begins_instances(words, walk) {
            instances.push(named)?;
        }
        walk = walk.after(words);
    }
    Ok(Modules { modules, instances })
}
