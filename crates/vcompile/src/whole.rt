// Whether every place leads to what stands behind it in a design, and everybody who may wait is listed.

ghost use Rattle.std.specs.Prelude.{◌≡◌, ◌≤◌, length, slice_get};
ghost use Rattle.vcompile.specs.Links as links_spec;
ghost use Rattle.vcompile.specs.Whole as spec;

use crate::links::{first_point, place_number};
use crate::listening::terms_of;
use vcode::code::link_at;
use vcode::link::Link;
use vcode::point::Point;
use vdesign::action::{Action, Branch, Places, Term};
use vdesign::design::Design;

// Whether a place is this process's, and leads to this point.
fn leads(links: &[Link], place: usize, owner: u32, point: Point) -> bool
    ensures { result ≡ spec.leads_by (slice_get links.now place) owner point }
{
    match links.get(place) {
        None => false,
        Some(link) => link.next.is_same(point) && link.owner == owner,
    }
}

// Whether places of a process lead from each to the next one, the last to an end.
fn is_chain(links: &[Link], owner: u32, places: &[usize], end: Point) -> bool
    ensures { result ≡ spec.is_chain links.now owner places.now end }
{
    let mut rest = places;
    while let Some((place, more)) = rest.split_first() {
        if !leads(links, *place, owner, first_point(more, end)) {
            return false;
        }
        rest = more;
    }
    true
}

fn are_branches(links: &[Link], owner: u32, branches: &[Branch], end: Point) -> bool
    ensures { result ≡ spec.are_chains links.now owner (links_spec.branch_bodies end branches.now) }
{
    for branch in branches {
        if !is_chain(links, owner, branch.body.as_slice(), end) {
            return false;
        }
    }
    true
}

// The bodies of the action at this place.
fn is_linked(links: &[Link], place: usize, action: &Action) -> bool
    ensures { result ≡ spec.is_linked links.now place action.now }
{
    let Link { next, owner } = link_at(links, place);
    let number = place_number(place);
    match action {
        Action::Test {
            when_true,
            otherwise,
            ..
        } => {
            is_chain(links, owner, when_true.as_slice(), next)
                && is_chain(links, owner, otherwise.as_slice(), next)
        }
        Action::Case {
            branches,
            otherwise,
            ..
        } => {
            is_chain(links, owner, otherwise.as_slice(), next)
                && are_branches(links, owner, branches.as_slice(), next)
        }
        Action::While { body, .. } => {
            is_chain(links, owner, body.as_slice(), Point::Executing(number))
        }
        Action::Repeat { body, .. } => {
            is_chain(links, owner, body.as_slice(), Point::Repeating(number))
        }
        Action::Forever { body } => {
            is_chain(links, owner, body.as_slice(), Point::Executing(number))
        }
        Action::Delay { body, .. } => is_chain(links, owner, body.as_slice(), next),
        Action::EventControl { body, .. } => is_chain(links, owner, body.as_slice(), next),
        Action::Wait { body, .. } => is_chain(links, owner, body.as_slice(), next),
        _ => true,
    }
}

fn are_linked(links: &[Link], actions: &[Action]) -> bool
    ensures { result ≡ spec.are_linked links.now 0 actions.now }
{
    let mut place = 0;
    for action in actions {
        if !is_linked(links, place, action) {
            return false;
        }
        place += 1;
    }
    true
}

fn begin_well(links: &[Link], processes: &[Places]) -> bool
    requires { length processes.now ≤ 256 }
    ensures { result ≡ spec.begin_well links.now 0 processes.now }
{
    let mut number = 0;
    for places in processes {
        if !is_chain(links, number, places.as_slice(), Point::Ended) {
            return false;
        }
        number += 1;
    }
    true
}

// Whether a place, if it is one, stands behind another one, of so many.
fn is_behind(count: usize, place: usize, other: Option<u32>) -> bool
    ensures { result ≡ spec.is_behind count place other }
{
    match other {
        None => true,
        Some(other) => place < other as usize && (other as usize) < count,
    }
}

// Whether a place, if it is one, is this process's.
fn is_owned(links: &[Link], owner: u32, place: Option<u32>) -> bool
    ensures { result ≡ spec.is_owned links.now owner place }
{
    match place {
        None => true,
        Some(place) => link_at(links, place as usize).owner == owner,
    }
}

// Whether a link of this place leads on to a place behind it, of the same process, or to the end.
fn leads_on(links: &[Link], place: usize, link: &Link) -> bool
    ensures { result ≡ spec.leads_on links.now place link.now }
{
    let next = link.next.place();
    is_behind(links.len(), place, next) && is_owned(links, link.owner, next)
}

fn lead_on(links: &[Link]) -> bool
    ensures { result ≡ spec.lead_on links.now 0 links.now }
{
    let mut place = 0;
    for link in links {
        if !leads_on(links, place, link) {
            return false;
        }
        place += 1;
    }
    true
}

// Whether it is of a variable that there is, or of an event of which a list is kept.
fn is_listed(variables: usize, events: usize, term: &Term) -> bool
    ensures { result ≡ spec.is_listed variables events term.now }
{
    match term {
        Term::Change { variable, .. } => (*variable as usize) < variables,
        Term::Event(event) => *event < events,
    }
}

fn are_listed(variables: usize, events: usize, terms: &[Term]) -> bool
    ensures { result ≡ spec.are_listed variables events terms.now }
{
    for term in terms {
        if !is_listed(variables, events, term) {
            return false;
        }
    }
    true
}

fn all_listed(variables: usize, events: usize, actions: &[Action]) -> bool
    ensures { result ≡ spec.all_listed variables events actions.now }
{
    for action in actions {
        if !are_listed(variables, events, terms_of(action)) {
            return false;
        }
    }
    true
}

// Whether they are links of all places.
fn are_all(design: &Design, links: &[Link]) -> bool
    ensures { result ≡ spec.are_all design.now links.now }
{
    links.len() == design.actions.len() && lead_on(links)
}

fn holds_links(design: &Design, links: &[Link]) -> bool
    ensures { result ≡ spec.holds_links design.now links.now }
{
    are_all(design, links)
        && (are_linked(links, &design.actions) && begin_well(links, &design.processes))
}

/// Whether the code of these links holds the design, where lists of so many events are kept.
pub(crate) fn is_whole(design: &Design, links: &[Link], events: usize) -> bool
    ensures { result ≡ spec.is_whole design.now links.now events }
{
    holds_links(design, links) && all_listed(design.variables.len(), events, &design.actions)
}
