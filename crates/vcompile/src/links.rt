// Where the places of a design lead (IEEE 1364-2005, clause 9).

ghost use Rattle.std.specs.Prelude.{◌≡◌, ◌≤◌, length, replicate, slice_set, IfOk};
ghost use Rattle.vcode.specs.Code.{no_link};
ghost use Rattle.vcompile.specs.Links as spec;

use basis::NoMemory;
use std::alloc::Global;
use vcode::code::link_at;
use vcode::link::Link;
use vcode::point::Point;
use vdesign::action::{Action, Branch, Places};
use vdesign::design::Design;

/// The most places of a code.
pub(crate) const MOST: usize = 4_294_967_295;

/// The number of a place within a code.
pub(crate) fn place_number(place: usize) -> u32
    ensures { result ≡ spec.place_number place }
{
    place.min(MOST) as u32
}

/// Where a process comes first that goes to these places and then to an end.
pub(crate) fn first_point(places: &[usize], end: Point) -> Point
    ensures { result ≡ spec.first_point places.now end }
{
    match places.split_first() {
        Some((place, _)) => Point::Executing(place_number(*place)),
        None => end,
    }
}

// The link of a place, where there is such a place.
fn set_link(links: &mut [Link], place: usize, link: Link)
    ensures { links.new ≡ slice_set links.old place link }
{
    if place < links.len() {
        links[place] = link;
    }
}

// Places of a process, each of which leads to the next one, the last to an end.
fn link_chain(links: &mut [Link], owner: u32, places: &[usize], end: Point)
    ensures { links.new ≡ spec.with_chain owner places.now end links.old }
{
    let mut next = end;
    let mut n = places.len();
    while n > 0 {
        n -= 1;
        let place = places[n];
        set_link(links, place, Link { next, owner });
        next = Point::Executing(place_number(place));
    }
}

fn link_branches(links: &mut [Link], owner: u32, branches: &[Branch], end: Point)
    ensures { links.new ≡ spec.with_bodies owner (spec.branch_bodies end branches.now) links.old }
{
    for branch in branches {
        link_chain(links, owner, branch.body.as_slice(), end);
    }
}

// The bodies of the action at this place.
fn link_action(links: &mut [Link], place: usize, action: &Action)
    ensures { links.new ≡ spec.with_action place action.now links.old }
{
    let Link { next, owner } = link_at(links, place);
    let number = place_number(place);
    match action {
        Action::Test {
            when_true,
            otherwise,
            ..
        } => {
            link_chain(links, owner, when_true.as_slice(), next);
            link_chain(links, owner, otherwise.as_slice(), next);
        }
        Action::Case {
            branches,
            otherwise,
            ..
        } => {
            link_chain(links, owner, otherwise.as_slice(), next);
            link_branches(links, owner, branches.as_slice(), next);
        }
        Action::While { body, .. } => {
            link_chain(links, owner, body.as_slice(), Point::Executing(number));
        }
        Action::Repeat { body, .. } => {
            link_chain(links, owner, body.as_slice(), Point::Repeating(number));
        }
        Action::Forever { body } => {
            link_chain(links, owner, body.as_slice(), Point::Executing(number));
        }
        Action::Delay { body, .. } => link_chain(links, owner, body.as_slice(), next),
        Action::EventControl { body, .. } => link_chain(links, owner, body.as_slice(), next),
        Action::Wait { body, .. } => link_chain(links, owner, body.as_slice(), next),
        _ => {}
    }
}

// The bodies of all actions, the last of these first, since an action stands behind those of its bodies.
fn link_actions(links: &mut [Link], actions: &[Action])
    ensures { links.new ≡ spec.with_actions actions.now (length actions.now) links.old }
{
    let mut n = actions.len();
    while n > 0 {
        n -= 1;
        link_action(links, n, &actions[n]);
    }
}

// The places at which processes begin.
fn link_begins(links: &mut [Link], processes: &[Places])
    requires { length processes.now ≤ 256 }
    ensures { links.new ≡ spec.with_begins 0 processes.now links.old }
{
    let mut number = 0;
    for places in processes {
        link_chain(links, number, places.as_slice(), Point::Ended);
        number += 1;
    }
}

// So many places to which no process comes.
fn no_links(alloc: Global, count: usize) -> Result<Vec<Link>, NoMemory>
    ensures { IfOk result (λ links. links.items ≡ replicate count no_link) }
{
    let mut links = Vec::new(alloc);
    for _ in 0..count {
        links.push(Link {
            next: Point::Ended,
            owner: 0,
        })?;
    }
    Ok(links)
}

/// The links of a design.
pub(crate) fn links_of(alloc: Global, design: &Design) -> Result<Vec<Link>, NoMemory>
    ensures { IfOk result (λ links. links.items ≡ spec.links_of design.now) }
{
    let mut links = no_links(alloc, design.actions.len())?;
    link_begins(&mut links, &design.processes);
    link_actions(&mut links, &design.actions);
    Ok(links)
}

/// Where its processes begin.
pub(crate) fn begins_of(alloc: Global, processes: &[Places]) -> Result<Vec<Point>, NoMemory>
    ensures { IfOk result (λ begins. begins.items ≡ spec.begins_by processes.now) }
{
    let mut begins = Vec::new(alloc);
    for places in processes {
        begins.push(first_point(places.as_slice(), Point::Ended))?;
    }
    Ok(begins)
}
