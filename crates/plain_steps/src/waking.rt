// What wakes by a step (IEEE 1364-2005, 9.7.2, 9.7.3): processes that wait for a change, or for a named event.

ghost use Rattle.std.specs.Prelude.{◌≡◌, ◌≤◌, length, map};
ghost use Rattle.vmodel.specs.Waking as spec;
ghost use Rattle.vmodel.specs.InnerWaking.{with_active};
ghost use Rattle.plain_steps.specs.InnerNews.{changes_one as changes_one_of, changes_many as changes_many_of, changes_so as changes_so_of, hears_of, any_hears_of, comes as comes_of};

use crate::process::Process;
use crate::queue::Queue;
use vbits::Vec4;
use vdesign::action::{Action, Edge, Term};
use vmodel::is_edge;
use vmodel::part::Part;
use vmodel::process_set::ProcessSet;
use vmodel::values::{Change, value_after, value_in};

/// What a step changes.
#[derive(Clone, Copy)]
pub(crate) enum Changes<'c> {
    /// One variable.
    One(Change),
    /// What these parts write over these values.
    Many {
        values: &'c [Vec4],
        parts: &'c [Part],
    },
}

/// What is told of a step to those that wait: what it changes, and the named event that it triggers.
#[derive(Clone, Copy)]
pub(crate) struct News<'c> {
    pub(crate) changes: Changes<'c>,
    pub(crate) triggered: Option<usize>,
}

// Whether the change of one variable is such a change of a variable.
fn changes_one(edge: Edge, variable: u32, change: &Change) -> bool
    ensures { result ≡ changes_one_of change.now edge variable }
{
    variable == change.variable && is_edge(edge, change.old, change.new)
}

// Whether what the parts write over the values is such a change of a variable.
fn changes_many(edge: Edge, variable: u32, values: &[Vec4], parts: &[Part]) -> bool
    ensures { result ≡ changes_many_of values.now parts.now edge variable }
{
    let old = value_in(values, variable);
    is_edge(edge, old, value_after(values, parts, variable))
}

fn changes_so(edge: Edge, variable: u32, changes: &Changes<'_>) -> bool
    ensures { result ≡ changes_so_of changes.now edge variable }
{
    match changes {
        Changes::One(change) => changes_one(edge, variable, change),
        Changes::Many { values, parts } => changes_many(edge, variable, values, parts),
    }
}

// Whether the event that a step triggers, if it does, is this one (9.7.3).
fn is_triggered(triggered: Option<usize>, event: usize) -> bool
    ensures { result ≡ spec.is_triggered triggered event }
{
    match triggered {
        None => false,
        Some(one) => one == event,
    }
}

fn hears(term: Term, news: &News<'_>) -> bool
    ensures { result ≡ hears_of news.now term }
{
    match term {
        Term::Change { edge, variable } => changes_so(edge, variable, &news.changes),
        Term::Event(event) => is_triggered(news.triggered, event),
    }
}

fn any_hears(terms: &[Term], news: &News<'_>) -> bool
    ensures { result ≡ any_hears_of news.now terms.now }
{
    for term in terms {
        if hears(*term, news) {
            return true;
        }
    }
    false
}

// Whether a process waits for this.
fn comes(actions: &[Action], news: &News<'_>, process: &Process) -> bool
    ensures { result ≡ comes_of actions.now news.now process.now }
{
    let Some(place) = process.waits else {
        return false;
    };
    match actions.get(place) {
        Some(Action::EventControl { terms, .. }) => any_hears(terms.as_slice(), news),
        Some(Action::Wait { terms, .. }) => any_hears(terms.as_slice(), news),
        Some(Action::ContinuousAssign { terms, .. }) => any_hears(terms.as_slice(), news),
        _ => false,
    }
}

// The active processes, with those that wait for this.
fn with_awake(actions: &[Action], news: &News<'_>, processes: &[Process], active: &mut ProcessSet)
    requires { length processes.now ≤ 256 }
    ensures { active.new
        ≡ spec.with_awake (comes_of actions.now news.now) 0 processes.now active.old }
{
    let mut number = 0;
    for process in processes {
        if comes(actions, news, process) {
            active.insert(number);
        }
        number += 1;
    }
}

fn wake_one(actions: &[Action], news: &News<'_>, process: &mut Process)
    ensures { process.new ≡ spec.awake (comes_of actions.now news.now) process.old }
{
    if comes(actions, news, process) {
        process.waits = None;
    }
}

// Those that wait for this don't wait any more.
fn wait_no_more(actions: &[Action], news: &News<'_>, processes: &mut [Process])
    ensures { processes.new ≡ map (spec.awake (comes_of actions.now news.now)) processes.old }
{
    for process in processes {
        wake_one(actions, news, process);
    }
}

/// Those that wait for this wait no more, and are active.
pub(crate) fn wake(
    actions: &[Action],
    news: &News<'_>,
    processes: &mut Vec<Process>,
    queue: &mut Queue,
)
    requires { length processes.old.items ≤ 256 }
    ensures processes { processes.new.items
        ≡ map (spec.awake (comes_of actions.now news.now)) processes.old.items }
    ensures queue { queue.new ≡ with_active
        (spec.with_awake (comes_of actions.now news.now) 0 processes.old.items queue.old.active)
        queue.old }
{
    with_awake(actions, news, processes, &mut queue.active);
    wait_no_more(actions, news, processes);
}
