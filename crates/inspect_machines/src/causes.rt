// The cause of what the run under a log has and its parent hasn't. In go a text, and the words: the grain, `taking` or `holding`, the time
// limit, the log and, where it is named, the top. Out come the step from which on both differ, a line for each part of the two visits, and a
// line for each thing that both touch; `none` where there is no cause.

use crate::given::{Stop, design_given, grain_at, log_at, number_at, word_at};
use basis::NoMemory;
use cause::{Blamed, Cause, Checkpoints, cause_of};
use footprints::{Actor, Awaited, Thing};
use sched_core::Log;
use sched_core::setting::{Departures, Looked};
use std::alloc::Global;
use std::io;
use vdesign::design::Design;
use vmachine::Machine;

// How many steps a slot may end before.
const STEPS: u32 = 100_000;

fn departures_of(word: &str) -> Departures {
    if word == "holding" {
        Departures::Holding
    } else {
        Departures::Taking
    }
}

// The cause of a log in the runs of a design.
fn found_of(
    alloc: Global,
    design: Design,
    words: &[String],
    log: &Log,
) -> Result<Option<Cause>, NoMemory> {
    let mut machine = Machine::new(alloc, design, number_at(words, 2, 100), grain_at(words, 0))?;
    machine.look(departures_of(word_at(words, 1)), Looked::Values);
    let mut checkpoints = Checkpoints::new(alloc, &machine);
    cause_of(alloc, &mut checkpoints, log, STEPS)
}

// A step, or `-` where there is none.
fn show_step(rt: &impl Print, word: &str, step: Option<u32>) -> io::Result<()> {
    match step {
        None => println!(rt; "{word} -"),
        Some(step) => println!(rt; "{word} {step}"),
    }
}

fn show_visit(rt: &impl Print, word: &str, visit: Blamed) -> io::Result<()> {
    match visit.actor {
        Actor::Process(process) => println!(rt; "{word} process {process}")?,
        Actor::UpdateOf(_) => println!(rt; "{word} update")?,
    }
    show_step(rt, "run", visit.in_run)?;
    show_step(rt, "parent", visit.in_parent)?;
    println!(rt; "place {}\nstatement {}", visit.place, visit.statement)
}

fn show_thing(rt: &impl Print, thing: &Thing) -> io::Result<()> {
    match thing {
        Thing::Variable(number) => println!(rt; "variable {number}"),
        Thing::Wait {
            process,
            number,
            of: Awaited::Variable(of),
        } => println!(rt; "wait {process} {number} variable {of}"),
        Thing::Wait {
            process,
            number,
            of: Awaited::Event(of),
        } => println!(rt; "wait {process} {number} event {of}"),
        Thing::End => println!(rt; "end"),
    }
}

fn show(rt: &impl Print, cause: &Cause) -> io::Result<()> {
    println!(rt; "step {}", cause.step)?;
    show_visit(rt, "first", cause.first)?;
    show_visit(rt, "second", cause.second)?;
    for thing in cause.things.as_slice() {
        show_thing(rt, thing)?;
    }
    Ok(())
}

/// Writes what these words ask for.
pub fn tell(rt: &HostRuntime, words: &[String]) -> Result<(), Stop> {
    let design = design_given(rt, words.get(4))?;
    let log = log_at(rt.alloc(), words, 3)?;
    match found_of(rt.alloc(), design, words, &log)? {
        None => Ok(rt.println("none")?),
        Some(cause) => Ok(show(rt, &cause)?),
    }
}
