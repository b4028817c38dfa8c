// The two statements that race, of a cause.

use basis::NoMemory;
use cause::{Blamed, Cause};
use footprints::{Actor, Awaited, Thing};
use race_findings::{RacingStatement, Statements, Touched};
use std::alloc::Global;

// Whether it is an update that makes the visit.
fn is_update(actor: Actor) -> bool {
    match actor {
        Actor::Process(_) => false,
        Actor::UpdateOf(_) => true,
    }
}

// One of the two.
fn racing_of(blamed: &Blamed) -> RacingStatement {
    RacingStatement {
        is_update: is_update(blamed.actor),
        action: blamed.place,
        statement: blamed.statement,
        in_run: blamed.in_run,
        in_parent: blamed.in_parent,
    }
}

// A thing, as it is told: a variable or an event by which both touch, which the end of the run is not.
fn touched_of(thing: Thing) -> Option<Touched> {
    match thing {
        Thing::Variable(number) => Some(Touched::Variable(number as usize)),
        Thing::Wait {
            of: Awaited::Variable(number),
            ..
        } => Some(Touched::Variable(number as usize)),
        Thing::Wait {
            of: Awaited::Event(_),
            ..
        } => Some(Touched::Event),
        Thing::End => None,
    }
}

fn is_same(one: Touched, other: Touched) -> bool {
    match (one, other) {
        (Touched::Variable(number), Touched::Variable(same)) => number == same,
        (Touched::Event, Touched::Event) => true,
        _ => false,
    }
}

fn is_among(told: Touched, touched: &[Touched]) -> bool {
    for one in touched {
        if is_same(told, *one) {
            return true;
        }
    }
    false
}

// What one more thing is told as, unless it was told.
fn put_touched(touched: &mut Vec<Touched>, thing: Thing) -> Result<(), NoMemory> {
    if let Some(told) = touched_of(thing) {
        if !is_among(told, touched) {
            touched.push(told)?;
        }
    }
    Ok(())
}

// The things, each once.
fn all_touched(alloc: Global, things: &[Thing]) -> Result<Vec<Touched>, NoMemory> {
    let mut touched = Vec::new(alloc);
    for thing in things {
        put_touched(&mut touched, *thing)?;
    }
    Ok(touched)
}

/// The two statements of the cause, if there is one, in the order of the parent's run.
pub fn statements_of(alloc: Global, cause: &Option<Cause>) -> Result<Option<Statements>, NoMemory> {
    match cause {
        None => Ok(None),
        Some(cause) => Ok(Some(Statements {
            first: racing_of(&cause.second),
            second: racing_of(&cause.first),
            touched: all_touched(alloc, cause.things.as_slice())?,
        })),
    }
}
