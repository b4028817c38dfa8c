// The code of a design: links and operands by place, begins by process, listeners by variable and by event.

ghost use Rattle.std.specs.Prelude.{◌≡◌, Some};
ghost use Rattle.vcode.specs.Code as spec;

use crate::link::Link;
use crate::listener::{Listener, Listeners};
use crate::point::Point;
use expression_code::GuardedCode;
use std::marker::Model;
use vbits::Vec4;
use vvalue::environment::Environment;

/// The code of a design. A clause sees it as the record `Code` of specs/Code.antt.
pub struct Code {
    /// By place.
    pub links: Vec<Link>,
    /// By place the number of the counter of the `repeat` there, if one stands there (9.6).
    pub counters: Vec<Option<u32>>,
    /// By place the code of the operand of the action there, if it has one: of what its step evaluates first.
    pub operands: Vec<Option<GuardedCode>>,
    /// By process the point at which it begins.
    pub begins: Vec<Point>,
    pub by_variable: Vec<Listeners>,
    pub by_event: Vec<Listeners>,
    /// Whether every place leads to what stands behind it in the design, and everybody who may wait is listed.
    pub whole: bool,
}

impl Drop for Code {
    fn drop(self) {
        let Code {
            links: _,
            counters: _,
            operands: _,
            begins: _,
            by_variable: _,
            by_event: _,
            whole: _,
        } = self;
    }
}

impl Model for Code {
    ghost use Rattle.vcode.specs.Code as code;
    ghost use Rattle.expression_code.specs.contracts.guard.GuardedCode as guarded;
    ghost use Rattle.std.specs.Coded.{codes};

    ghost Value = { code.Code };

    ghost coded = { Prim.hlevel (codes, guarded.the_row.coded) };

    ghost view = { λ c. record {
      links = c.links.items;
      counters = c.counters.items;
      operands = c.operands.items;
      begins = c.begins.items;
      by_variable = c.by_variable.items;
      by_event = c.by_event.items;
      whole = c.whole;
    } };
}

/// What leads on from this place; no process comes to a place that isn't there.
pub fn link_at(links: &[Link], place: usize) -> Link
    ensures { result ≡ spec.link_at links.now place }
{
    match links.get(place) {
        Some(link) => *link,
        None => Link {
            next: Point::Ended,
            owner: 0,
        },
    }
}

// Those of this number.
fn listeners_at(lists: &[Listeners], number: usize) -> &[Listener]
    ensures { result.now ≡ spec.listeners_at lists.now number }
{
    match lists.get(number) {
        Some(listeners) => listeners.as_slice(),
        None => &[],
    }
}

// How many turns are left by the counter of this number.
fn turns_by(turns: &[u64], counter: usize) -> u64
    ensures { result ≡ spec.turns_by turns.now (Some counter) }
{
    match turns.get(counter) {
        Some(left) => *left,
        None => 0,
    }
}

impl Code {
    /// The point at which this process begins.
    pub fn begin(&self, process: usize) -> Point
        ensures { result ≡ spec.begin_of self.now process }
    {
        match self.begins.get(process) {
            Some(point) => *point,
            None => Point::Ended,
        }
    }

    /// The number of the counter of this place, where a `repeat` stands.
    pub fn counter(&self, place: usize) -> Option<u32>
        ensures { result ≡ spec.counter_at self.now place }
    {
        match self.counters.get(place) {
            Some(counter) => *counter,
            None => None,
        }
    }

    /// How many turns are left at this place, by the counters.
    pub fn turns_at(&self, turns: &[u64], place: usize) -> u64
        ensures { result ≡ spec.turns_at self.now turns.now place }
    {
        match self.counter(place) {
            None => 0,
            Some(counter) => turns_by(turns, counter as usize),
        }
    }

    // Whether it is at a `repeat` of which no turn is left.
    fn is_spent(&self, turns: &[u64], point: Point) -> bool
        ensures { result ≡ spec.is_spent self.now turns.now point }
    {
        match point {
            Point::Ended => false,
            Point::Executing(_) => false,
            Point::Repeating(place) => self.turns_at(turns, place as usize) == 0,
            Point::Writing(_) => false,
            Point::Waiting(_) => false,
        }
    }

    // The point behind this one.
    fn past(&self, point: Point) -> Point
        ensures { result ≡ spec.past self.now point }
    {
        match point.place() {
            Some(place) => link_at(&self.links, place as usize).next,
            None => Point::Ended,
        }
    }

    /// The point at which a process comes that comes to this one: each `repeat` of which no turn is left is passed (9.6).
    pub fn settle(&self, turns: &[u64], point: Point) -> Point
        ensures { result ≡ spec.settle self.now turns.now point }
    {
        let mut settled = point;
        let mut most = self.links.len();
        while most > 0 {
            if self.is_spent(turns, settled) {
                settled = self.past(settled);
                most -= 1;
            } else {
                return settled;
            }
        }
        settled
    }

    /// The point at which a process comes that is done with this place.
    pub fn next_point(&self, turns: &[u64], place: usize) -> Point
        ensures { result ≡ spec.behind self.now turns.now place }
    {
        self.settle(turns, link_at(&self.links, place).next)
    }

    /// The value of the operand of the action at this place, where its code is known and its guards hold. It takes no memory.
    #[inline(never)]
    pub fn operand(&self, place: usize, environment: &Environment<'_>) -> Option<Vec4>
        ensures { result ≡ spec.operand_value self.now place environment.now.values environment.now.time }
    {
        let Some(operand) = self.operands.get(place) else {
            return None;
        };
        match operand {
            None => None,
            Some(code) => code.value(environment),
        }
    }

    /// Those who may wait for a change of this variable.
    pub fn heard_by_variable(&self, variable: usize) -> &[Listener]
        ensures { result.now ≡ spec.listeners_at self.now.by_variable variable }
    {
        listeners_at(&self.by_variable, variable)
    }

    /// Those who may wait for this event.
    pub fn heard_by_event(&self, event: usize) -> &[Listener]
        ensures { result.now ≡ spec.listeners_at self.now.by_event event }
    {
        listeners_at(&self.by_event, event)
    }
}
