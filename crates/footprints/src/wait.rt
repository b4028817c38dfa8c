// Waits that stand, and what wakes them (IEEE 1364-2005, 9.7).

ghost use Rattle.std.specs.Prelude.{◌≡◌, ◌++◌, map, slice_get, IfOk, OnOk};
ghost use Rattle.vmodel.specs.Waking as waking;
ghost use Rattle.footprints.specs.Visits as spec;

use crate::thing::{Awaited, Thing};
use basis::NoMemory;
use std::alloc::Global;
use std::marker::Model;
use vbits::Vec4;
use vdesign::action::{Action, Term};
use vmodel::choice::Choice;
use vmodel::effect::Disposition;
use vmodel::is_edge;
use vmodel::values::value_in;

/// A wait at which a process stands since its visit of this number: that of the `@` or `wait` at this place of the design's table.
#[derive(Clone, Copy)]
pub struct Standing {
    pub process: u32,
    pub number: usize,
    pub place: usize,
}

/// What may wake by a step: the values before it and after it, and the named event that it triggers.
#[derive(Drop)]
pub(crate) struct News<'n> {
    pub(crate) before: &'n [Vec4],
    pub(crate) after: &'n [Vec4],
    pub(crate) triggered: Option<usize>,
}

impl<'n> Model for News<'n> {
    ghost use Rattle.footprints.specs.Visits as visits;

    ghost Value = { visits.News };

    ghost view = { λ n. record { before = n.before.now; after = n.after.now; triggered = n.triggered } };
}

// What the `@` or `wait` at a place waits for.
fn terms_at(actions: &[Action], place: usize) -> &[Term]
    ensures { result.now ≡ spec.terms_of (slice_get actions.now place) }
{
    match actions.get(place) {
        Some(Action::EventControl { terms, .. }) => terms.as_slice(),
        Some(Action::Wait { terms, .. }) => terms.as_slice(),
        _ => &[],
    }
}

// Whether such an action stands at a place.
fn is_wait_at(actions: &[Action], place: usize) -> bool
    ensures { result ≡ spec.is_wait (slice_get actions.now place) }
{
    match actions.get(place) {
        Some(Action::EventControl { .. }) => true,
        Some(Action::Wait { .. }) => true,
        _ => false,
    }
}

// That a term of a wait comes (9.7.2, 9.7.3).
fn awaited_by(wait: Standing, term: Term) -> Thing
    ensures { result ≡ spec.awaited_by wait term }
{
    let of = match term {
        Term::Change { variable, .. } => Awaited::Variable(variable),
        Term::Event(event) => Awaited::Event(event),
    };
    Thing::Wait {
        process: wait.process,
        number: wait.number,
        of,
    }
}

fn put_awaited(things: &mut Vec<Thing>, wait: Standing, terms: &[Term]) -> Result<(), NoMemory>
    ensures { OnOk result (things.new.items ≡ things.old.items ++ map (spec.awaited_by wait) terms.now) }
{
    for term in terms {
        things.push(awaited_by(wait, *term))?;
    }
    Ok(())
}

/// What the visit reads that begins this wait.
pub(crate) fn put_read_by_wait(
    things: &mut Vec<Thing>,
    actions: &[Action],
    begun: Option<Standing>,
) -> Result<(), NoMemory>
    ensures { OnOk result (things.new.items ≡ things.old.items ++ spec.read_by_wait actions.now begun) }
{
    match begun {
        None => Ok(()),
        Some(wait) => put_awaited(things, wait, terms_at(actions, wait.place)),
    }
}

/// The wait that a visit begins with this number, a step of a choice, of the action at a place, if it begins one, and has something left.
pub(crate) fn begun_by(
    actions: &[Action],
    choice: Choice,
    place: usize,
    number: usize,
    disposition: Disposition,
    left: Option<usize>,
) -> Option<Standing>
    ensures { result ≡ spec.begun_by actions.now choice place number disposition left }
{
    match (choice, disposition, left) {
        (Choice::Run(process), Disposition::Waiting(_), Some(_)) => {
            if is_wait_at(actions, place) {
                Some(Standing {
                    process,
                    number,
                    place,
                })
            } else {
                None
            }
        }
        _ => None,
    }
}

// Whether the event that a step triggers, if it does, is this one (9.7.3).
fn is_triggered(triggered: Option<usize>, event: usize) -> bool
    ensures { result ≡ waking.is_triggered triggered event }
{
    match triggered {
        None => false,
        Some(one) => one == event,
    }
}

// Whether a term comes by a step (9.7.2).
fn hears(news: &News<'_>, term: Term) -> bool
    ensures { result ≡ waking.hears news.now.before news.now.after news.now.triggered term }
{
    match term {
        Term::Change { edge, variable } => is_edge(
            edge,
            value_in(news.before, variable),
            value_in(news.after, variable),
        ),
        Term::Event(event) => is_triggered(news.triggered, event),
    }
}

fn any_hears(news: &News<'_>, terms: &[Term]) -> bool
    ensures { result ≡ waking.any_hears news.now.before news.now.after news.now.triggered terms.now }
{
    for term in terms {
        if hears(news, *term) {
            return true;
        }
    }
    false
}

// Those terms of a wait that come by a step (9.7.4).
fn put_heard(
    things: &mut Vec<Thing>,
    news: &News<'_>,
    wait: Standing,
    terms: &[Term],
) -> Result<(), NoMemory>
    ensures { OnOk result (things.new.items
        ≡ things.old.items ++ spec.heard_by news.now wait terms.now) }
{
    for term in terms {
        if hears(news, *term) {
            things.push(awaited_by(wait, *term))?;
        }
    }
    Ok(())
}

/// What a step wakes of the waits that stand.
pub(crate) fn put_woken(
    things: &mut Vec<Thing>,
    actions: &[Action],
    news: &News<'_>,
    waits: &[Standing],
) -> Result<(), NoMemory>
    ensures { OnOk result (things.new.items
        ≡ things.old.items ++ spec.woken_by actions.now news.now waits.now) }
{
    for wait in waits {
        put_heard(things, news, *wait, terms_at(actions, wait.place))?;
    }
    Ok(())
}

/// The waits that stand on.
pub(crate) fn standing_on(
    alloc: Global,
    actions: &[Action],
    news: &News<'_>,
    waits: &[Standing],
) -> Result<Vec<Standing>, NoMemory>
    ensures { IfOk result (λ left. left.items
        ≡ spec.standing_on actions.now news.now waits.now) }
{
    let mut left = Vec::new(alloc);
    for wait in waits {
        if !any_hears(news, terms_at(actions, wait.place)) {
            left.push(*wait)?;
        }
    }
    Ok(left)
}
