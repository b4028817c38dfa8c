// Who listens to which variable and to which event of a design (IEEE 1364-2005, 9.7.2, 9.7.3).

ghost use Rattle.std.specs.Prelude.{◌≡◌, [], replicate, OnOk, IfOk};
ghost use Rattle.vcompile.specs.Listening as spec;

use crate::links::{first_point, place_number};
use basis::NoMemory;
use std::alloc::Global;
use std::marker::Model;
use vcode::code::link_at;
use vcode::link::Link;
use vcode::listener::{Listener, Listeners};
use vcode::point::Point;
use vdesign::action::{Action, Edge, Term};
use vdesign::design::Design;

/// The lists of listeners, by variable and by event.
#[derive(Drop)]
pub(crate) struct Lists {
    pub(crate) by_variable: Vec<Listeners>,
    pub(crate) by_event: Vec<Listeners>,
}

impl Model for Lists {
    ghost use Rattle.vcompile.specs.Listening as listening;

    ghost Value = { listening.Lists };

    ghost view = { λ l. record { by_variable = l.by_variable.items; by_event = l.by_event.items } };
}

/// What is waited for at an action.
pub(crate) fn terms_of(action: &Action) -> &[Term]
    ensures { result.now ≡ spec.terms_of action.now }
{
    match action {
        Action::EventControl { terms, .. } => terms.as_slice(),
        Action::Wait { terms, .. } => terms.as_slice(),
        Action::ContinuousAssign { terms, .. } => terms.as_slice(),
        _ => &[],
    }
}

// Where a process goes on that waited at an action.
fn resumes_at(place: usize, next: Point, action: &Action) -> Point
    ensures { result ≡ spec.resumes_at place next action.now }
{
    match action {
        Action::EventControl { body, .. } => first_point(body.as_slice(), next),
        _ => Point::Executing(place_number(place)),
    }
}

// The process of an action, as it listens to any change.
fn listener_at(links: &[Link], place: usize, action: &Action) -> Listener
    ensures { result ≡ spec.listener_at links.now place action.now Edge.Any }
{
    let Link { next, owner } = link_at(links, place);
    Listener {
        process: owner,
        place: place_number(place),
        edge: Edge::Any,
        resumes: resumes_at(place, next, action),
    }
}

// One more in the list of this number, where there is such a list.
fn put_listener(
    lists: &mut Vec<Listeners>,
    number: usize,
    listener: Listener,
) -> Result<(), NoMemory>
    ensures { OnOk result (lists.new.items ≡ spec.with_listener number listener lists.old.items) }
{
    if number < lists.len() {
        lists[number].push(listener)?;
    }
    Ok(())
}

// Who listens to a term.
fn put_term(lists: &mut Lists, listener: Listener, term: Term) -> Result<(), NoMemory>
    ensures { OnOk result (lists.new ≡ spec.with_term listener term lists.old) }
{
    match term {
        Term::Change { edge, variable } => {
            let hearing = Listener { edge, ..listener };
            put_listener(&mut lists.by_variable, variable as usize, hearing)
        }
        Term::Event(event) => {
            let hearing = Listener {
                edge: Edge::Any,
                ..listener
            };
            put_listener(&mut lists.by_event, event, hearing)
        }
    }
}

fn put_terms(lists: &mut Lists, listener: Listener, terms: &[Term]) -> Result<(), NoMemory>
    ensures { OnOk result (lists.new ≡ spec.with_terms listener terms.now lists.old) }
{
    for term in terms {
        put_term(lists, listener, *term)?;
    }
    Ok(())
}

fn put_heard(lists: &mut Lists, links: &[Link], actions: &[Action]) -> Result<(), NoMemory>
    ensures { OnOk result (lists.new ≡ spec.with_heard links.now 0 actions.now lists.old) }
{
    let mut place = 0;
    for action in actions {
        put_terms(lists, listener_at(links, place, action), terms_of(action))?;
        place += 1;
    }
    Ok(())
}

// One event more than this, of those of which lists are kept.
fn event_count(term: &Term) -> usize
    ensures { result ≡ spec.event_count term.now }
{
    match term {
        Term::Change { .. } => 0,
        Term::Event(event) => (*event).min(65_535) + 1,
    }
}

fn most_events(most: usize, terms: &[Term]) -> usize
    ensures { result ≡ spec.most_events most terms.now }
{
    let mut events = most;
    for term in terms {
        events = events.max(event_count(term));
    }
    events
}

/// How many events are waited for.
pub(crate) fn events_in(actions: &[Action]) -> usize
    ensures { result ≡ spec.events_in actions.now }
{
    let mut events = 0;
    for action in actions {
        events = most_events(events, terms_of(action));
    }
    events
}

// So many lists of nobody.
fn no_listeners(alloc: Global, count: usize) -> Result<Vec<Listeners>, NoMemory>
    ensures { IfOk result (λ lists. lists.items ≡ replicate count []) }
{
    let mut lists = Vec::new(alloc);
    for _ in 0..count {
        lists.push(Listeners::new(alloc))?;
    }
    Ok(lists)
}

/// Everybody who may wait.
pub(crate) fn lists_of(alloc: Global, design: &Design, links: &[Link]) -> Result<Lists, NoMemory>
    ensures { IfOk result (λ lists. lists ≡ spec.lists_of design.now links.now) }
{
    let mut lists = Lists {
        by_variable: no_listeners(alloc, design.variables.len())?,
        by_event: no_listeners(alloc, events_in(&design.actions))?,
    };
    put_heard(&mut lists, links, &design.actions)?;
    Ok(lists)
}
