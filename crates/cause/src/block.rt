// `always` blocks that wait for what they read (IEEE 1364-2005, 9.7.5, 9.9.2).

ghost use Rattle.std.specs.Prelude.{◌≡◌, [], ◌++◌, map, length, slice_get, option_map, IfOk, OnOk};
ghost use Rattle.std.specs.List.{flat_map, list_any};
ghost use Rattle.cause.specs.Behind as spec;
ghost use Rattle.footprints.specs.Footprints as footprints;

use basis::NoMemory;
use footprints::Actor;
use footprints::footprint::reads_at;
use footprints::thing::{Thing, Things};
use std::alloc::Global;
use vdesign::action::{Action, Branch, Edge, Term, Terms};
use vdesign::design::Design;

// Where the statements within the branches of a `case` stand (9.5).
fn put_branches(places: &mut Vec<usize>, branches: &[Branch]) -> Result<(), NoMemory>
    ensures { OnOk result (places.new.items ≡ places.old.items ++ flat_map spec.places_in_branch branches.now) }
{
    for branch in branches {
        places.extend_from_slice(branch.body.as_slice())?;
    }
    Ok(())
}

// Where the statements within the action at a place stand.
fn put_within(places: &mut Vec<usize>, actions: &[Action], place: usize) -> Result<(), NoMemory>
    ensures { OnOk result (places.new.items ≡ places.old.items ++ spec.places_in (slice_get actions.now place)) }
{
    match actions.get(place) {
        Some(
            Action::Test {
                when_true,
                otherwise,
                ..
            },
        ) => {
            places.extend_from_slice(when_true.as_slice())?;
            places.extend_from_slice(otherwise.as_slice())?;
        }
        Some(
            Action::Case {
                branches,
                otherwise,
                ..
            },
        ) => {
            put_branches(places, branches.as_slice())?;
            places.extend_from_slice(otherwise.as_slice())?;
        }
        Some(Action::While { body, .. }) => places.extend_from_slice(body.as_slice())?,
        Some(Action::Repeat { body, .. }) => places.extend_from_slice(body.as_slice())?,
        Some(Action::Forever { body }) => places.extend_from_slice(body.as_slice())?,
        Some(Action::Delay { body, .. }) => places.extend_from_slice(body.as_slice())?,
        Some(Action::EventControl { body, .. }) => places.extend_from_slice(body.as_slice())?,
        Some(Action::Wait { body, .. }) => places.extend_from_slice(body.as_slice())?,
        _ => {}
    }
    Ok(())
}

// What the actions at these places read, and those within them.
fn read_from(alloc: Global, actions: &[Action], body: &[usize]) -> Result<Things, NoMemory>
    ensures { IfOk result (λ things. things ≡ spec.read_from actions.now (length actions.now) body.now) }
{
    let mut things = Things::none(alloc);
    let mut places = Vec::new(alloc);
    places.extend_from_slice(body)?;
    for k in 0..actions.len() {
        let Some(place) = place_at(&places, k) else {
            return Ok(things);
        };
        things.put_all(reads_at(alloc, actions, place, true)?.as_slice())?;
        put_within(&mut places, actions, place)?;
    }
    Ok(things)
}

fn place_at(places: &[usize], k: usize) -> Option<usize>
    ensures { result ≡ slice_get places.now k }
{
    match places.get(k) {
        None => None,
        Some(place) => Some(*place),
    }
}

// Whether a term is a change, not an edge (9.7.2).
fn is_plain(term: Term) -> bool
    ensures { result ≡ spec.is_plain term }
{
    match term {
        Term::Change { edge, .. } => match edge {
            Edge::Any => true,
            Edge::Rise => false,
            Edge::Fall => false,
        },
        Term::Event(_) => false,
    }
}

fn are_plain(terms: &[Term]) -> bool
    ensures { result ≡ spec.are_plain terms.now }
{
    for term in terms {
        if !is_plain(*term) {
            return false;
        }
    }
    true
}

// Whether a term is of a variable.
fn is_of(number: u32, term: Term) -> bool
    ensures { result ≡ spec.is_of number term }
{
    match term {
        Term::Change { variable, .. } => variable == number,
        Term::Event(_) => false,
    }
}

fn is_any_of(number: u32, terms: &[Term]) -> bool
    ensures { result ≡ list_any (spec.is_of number) terms.now }
{
    for term in terms {
        if is_of(number, *term) {
            return true;
        }
    }
    false
}

// Whether a thing, if it is a variable, is waited for.
fn is_heard(terms: &[Term], thing: &Thing) -> bool
    ensures { result ≡ spec.is_heard terms.now thing.now }
{
    match thing {
        Thing::Variable(number) => is_any_of(*number, terms),
        _ => true,
    }
}

fn are_heard(terms: &[Term], things: &[Thing]) -> bool
    ensures { result ≡ spec.are_heard terms.now things.now }
{
    for thing in things {
        if !is_heard(terms, thing) {
            return false;
        }
    }
    true
}

// Whether a list names all that is read behind it.
fn waits_for_all(
    alloc: Global,
    actions: &[Action],
    terms: &[Term],
    body: &[usize],
) -> Result<bool, NoMemory>
    ensures { IfOk result (λ all. all ≡ spec.waits_for_all actions.now terms.now body.now) }
{
    if !are_plain(terms) {
        return Ok(false);
    }
    let things = read_from(alloc, actions, body)?;
    Ok(are_heard(terms, things.as_slice()))
}

// The only one of some places.
fn only(places: &[usize]) -> Option<usize>
    ensures { result ≡ spec.only (Some places.now) }
{
    if places.len() == 1 {
        place_at(places, 0)
    } else {
        None
    }
}

// The action that alone stands in an `always` (9.9.2).
fn inner_of<'d>(design: &'d Design, begin: usize) -> Option<&'d Action>
    ensures { option_map (λ action. action.now) result
        ≡ spec.action_at design.now.actions (spec.only (spec.body_of (slice_get design.now.actions begin))) }
{
    match design.actions.get(begin) {
        Some(Action::Forever { body }) => design.actions.get(only(body.as_slice())?),
        _ => None,
    }
}

// The same of a process, if it is an `always`.
fn control_of<'d>(design: &'d Design, process: u32) -> Option<&'d Action>
    ensures { option_map (λ action. action.now) result ≡ spec.control_of design.now process }
{
    match design.processes.get(process as usize) {
        None => None,
        Some(places) => inner_of(design, only(places.as_slice())?),
    }
}

// What a term waits for.
fn thing_heard(term: Term) -> Thing
    ensures { result ≡ spec.thing_heard term }
{
    match term {
        Term::Change { variable, .. } => Thing::Variable(variable),
        Term::Event(_) => Thing::Variable(0),
    }
}

fn all_heard(alloc: Global, terms: &Terms) -> Result<Things, NoMemory>
    ensures { IfOk result (λ things. things ≡ map spec.thing_heard terms.now) }
{
    let mut things = Vec::new(alloc);
    for term in terms.as_slice() {
        things.push(thing_heard(*term))?;
    }
    Ok(Things::new(things))
}

// What a block waits for whose control is this one.
fn heard_by_block(
    alloc: Global,
    actions: &[Action],
    control: Option<&Action>,
) -> Result<Things, NoMemory>
    ensures { IfOk result (λ things. things ≡ spec.heard_by_block actions.now (option_map (λ action. action.now) control.entry)) }
{
    match control {
        Some(Action::EventControl { terms, body }) => {
            if waits_for_all(alloc, actions, terms.as_slice(), body.as_slice())? {
                all_heard(alloc, terms)
            } else {
                Ok(Things::none(alloc))
            }
        }
        _ => Ok(Things::none(alloc)),
    }
}

/// What a process waits for that is an `always` block and waits for what it reads; else nothing.
pub(crate) fn heard_by_actor(
    alloc: Global,
    design: &Design,
    actor: Actor,
) -> Result<Things, NoMemory>
    ensures { IfOk result (λ things. things ≡ spec.heard_by_actor design.now actor) }
{
    match actor {
        Actor::Process(process) => heard_by_block(
            alloc,
            &design.actions,
            control_of(design, process),
        ),
        Actor::UpdateOf(_) => Ok(Things::none(alloc)),
    }
}
