// What step code is like. In go a text, and as the only word how often its code is made, once without it. Out comes one line: whether the
// code is whole, and how many places, counters and listeners it has.

use crate::given::{Stop, design_given, number_at};
use basis::NoMemory;
use std::alloc::Global;
use vcode::code::Code;
use vcode::listener::Listeners;
use vcompile::compile;
use vdesign::design::Design;

fn counters_in(counters: &[Option<u32>]) -> u64 {
    let mut count: u64 = 0;
    for counter in counters {
        if counter.is_some() {
            count = count.saturating_add(1);
        }
    }
    count
}

fn listeners_in(lists: &[Listeners]) -> u64 {
    let mut count: u64 = 0;
    for list in lists {
        count = count.saturating_add(list.as_slice().len() as u64);
    }
    count
}

// Its code, which is made so often.
fn code_of(alloc: Global, design: &Design, times: u64) -> Result<Code, NoMemory> {
    for _ in 1..times {
        let _code = compile(alloc, design)?;
    }
    compile(alloc, design)
}

/// Writes what these words ask for.
pub fn tell(rt: &HostRuntime, words: &[String]) -> Result<(), Stop> {
    let design = design_given(rt, None)?;
    let code = code_of(rt.alloc(), &design, number_at(words, 0, 1))?;
    let word = if code.whole { "whole" } else { "not whole" };
    let places = code.links.len();
    let counters = counters_in(&code.counters);
    let listeners = listeners_in(&code.by_variable).saturating_add(listeners_in(&code.by_event));
    println!(rt; "{word}, {places} places, {counters} counters, {listeners} listeners")?;
    Ok(())
}
