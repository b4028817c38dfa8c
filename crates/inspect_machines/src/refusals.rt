// Calls whose growths of memory may be refused, and what a refusal left: whether what was there stands as it was, and whether the same call
// then succeeds. Which growth is refused is up to whoever starts the program. In goes the name of the calls: `meet`, `share`, or, with the
// text of a module, `step` and `report`; out comes one line, after the report where one was asked for. `timed`, with the text of a module,
// a number of departures and one of entries, tells what a search by time finds that is stopped once so many entries were taken. Without
// words nothing is called.

mod counts;
mod entries;
mod plain;
mod reports;
mod shared;
mod stepped;
mod timed;

use crate::given::{Stop, small_number_at, word_at};
use counts::show;
use plain::inserts;
use reports::reports;
use sched_core::setting::Grain;
use shared::shares;
use std::alloc::Global;
use std::io::{self, Write};
use std::sync::Wait;
use stepped::walks;
use text_read::design_of;
use timed::stopped_search;
use vmachine::Machine;

// The machine of this text in grain process, up to the time 1,000,000; none where it has no design, or memory was refused.
fn machine_of(alloc: Global, text: &[u8]) -> Option<Machine> {
    let design = design_of(alloc, Vec::from_slice(alloc, text).ok()?, None)?;
    Machine::new(alloc, design, 1_000_000, Grain::Process).ok()
}

// Makes the calls of this name that take the machine of a text.
fn call_with_text(rt: &HostRuntime, name: &str, words: &[String]) -> io::Result<()> {
    let alloc = rt.alloc();
    let Some(machine) = machine_of(alloc, word_at(words, 1).as_bytes()) else {
        return rt.println("no machine");
    };
    match name {
        "step" => show(rt, walks(&machine)),
        "timed" => {
            let depart = small_number_at(words, 2, 0);
            match stopped_search(alloc, &machine, depart, small_number_at(words, 3, 0)) {
                Ok(text) => io::writer(rt).write_all(&text),
                Err(_) => rt.println("E901"),
            }
        }
        _ => reports(rt, alloc, &machine),
    }
}

/// Makes the calls that the first of these words names. The book that threads share may wait.
pub fn tell<R: Wait>(rt: &HostRuntime, waits: &R, words: &[String]) -> Result<(), Stop> {
    match words.first() {
        None => {}
        Some(name) => match name.as_str() {
            "meet" => show(rt, inserts(rt.alloc()))?,
            "share" => show(rt, shares(waits, rt.alloc()))?,
            name => call_with_text(rt, name, words)?,
        },
    }
    Ok(())
}
