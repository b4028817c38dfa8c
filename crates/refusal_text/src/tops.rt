// Which modules may be the top, where none is, or several are.

use crate::find::{Found, What};
use crate::lines::Files;
use crate::message::{put_place, put_quoted, put_rest, put_shown};
use crate::modules::{Modules, Named, are_named, names_of};
use crate::text::Text;
use basis::NoMemory;
use indexmap::IndexSet;
use std::alloc::Global;
use vsrc::Place;

// The names, with this before each of them and a separator between them.
fn put_names(text: &mut Text, all: &[Named<'_>], before: &[u8], between: &[u8]) {
    for (at, one) in all.iter().enumerate() {
        let between = if at > 0 { between } else { &[] };
        text.put_all(&[between, before]);
        put_shown(text, one.name);
    }
}

// The modules of which there are no instances.
fn never_instantiated<'a>(
    alloc: Global,
    modules: &Modules<'a>,
) -> Result<Vec<Named<'a>>, NoMemory> {
    let instantiated = names_of(alloc, &modules.instances)?;
    let mut tops = Vec::new(alloc);
    for module in &modules.modules {
        if !instantiated.contains(module.name) {
            tops.push(*module)?;
        }
    }
    Ok(tops)
}

/// Where several modules may be the top: their names, and how to choose.
pub(crate) fn put_several(
    alloc: Global,
    text: &mut Text,
    files: Files<'_>,
    place: Place,
    modules: &Modules<'_>,
) -> Result<(), NoMemory> {
    let tops = never_instantiated(alloc, modules)?;
    let mut choice = Text::new(alloc);
    choice.put_all(&[b"choose one with --top; `vrace races` takes several: "]);
    put_names(&mut choice, &tops, b"--top ", b" ");
    put_place(text, files, place);
    text.put_all(&[b"modules that none instantiates: "]);
    put_names(text, &tops, b"", b", ");
    put_rest(text, files, place, &choice.finish()?);
    Ok(())
}

// Each of these top modules that isn't there.
fn put_missing(text: &mut Text, modules: &Modules<'_>, tops: &[&str]) {
    for top in tops {
        if !are_named(&modules.modules, top.as_bytes()) {
            text.put_all(&[b"--top: "]);
            put_quoted(text, top.as_bytes());
            text.put_all(&[b" is no module of the files\n"]);
        }
    }
}

// Why none is the top.
fn reason_of(alloc: Global, modules: &Modules<'_>) -> Result<&'static [u8], NoMemory> {
    Ok(if never_instantiated(alloc, modules)?.is_empty() {
        b"none is the top: each module is instantiated by one of the modules\n"
    } else {
        b"the top that is asked for is no module of the files\n"
    })
}

/// Where no module is the top: which were asked for, and which there are.
pub(crate) fn put_none(
    alloc: Global,
    text: &mut Text,
    modules: &Modules<'_>,
    tops: &[&str],
) -> Result<(), NoMemory> {
    put_missing(text, modules, tops);
    if modules.modules.is_empty() {
        text.put_all(&[b"the files have no module\n    instead: name the file of the testbench\n"]);
        return Ok(());
    }
    if tops.is_empty() {
        text.put_all(&[reason_of(alloc, modules)?]);
    }
    let mut choice = Text::new(alloc);
    choice.put_all(&[b"name one of the modules with --top: "]);
    put_names(&mut choice, &modules.modules, b"", b", ");
    text.put_advice(&choice.finish()?);
    Ok(())
}

// A module that isn't there, by one of its instances.
fn missing<'a>(one: &Named<'a>) -> Found<'a> {
    Found {
        what: What::Broken(301),
        word: one.word,
        place: one.place,
        more: 0,
    }
}

/// Each module that isn't there and of which the text has instances, by the first of these; and how many more there are.
pub(crate) fn missing_modules<'a>(
    alloc: Global,
    modules: &Modules<'a>,
) -> Result<Vec<Found<'a>>, NoMemory> {
    let defined = names_of(alloc, &modules.modules)?;
    let mut names: IndexSet<Vec<u8>> = IndexSet::new(alloc);
    let mut all: Vec<Found<'a>> = Vec::new(alloc);
    for one in &modules.instances {
        if defined.contains(one.name) {
            continue;
        }
        let (at, is_new) = names.insert_full(Vec::from_slice(alloc, one.name)?)?;
        if is_new {
            all.push(missing(one))?;
        } else if let Some(found) = all.get_mut(at) {
            found.more = found.more.saturating_add(1);
        }
    }
    Ok(all)
}
