// Which variables are heard as clocks: an edge of theirs wakes a process that doesn't read them. One that reads them has them as a reset.

use crate::copies::{Handed, handed_by};
use crate::inner::actions_of;
use basis::NoMemory;
use footprints::footprint::reads_of;
use footprints::thing::Thing;
use std::alloc::Global;
use vdesign::action::{Action, Edge, Term, Terms};
use vdesign::design::Design;

/// Which edges of a variable wake a process that doesn't read it, and whether one wakes a process that does.
#[derive(Clone, Copy, PartialEq, Eq)]
pub struct Edges {
    pub rise: bool,
    pub fall: bool,
    pub read: bool,
}

// None.
const NONE: Edges = Edges {
    rise: false,
    fall: false,
    read: false,
};

// One that wakes a process that reads the variable.
const READ: Edges = Edges {
    rise: false,
    fall: false,
    read: true,
};

impl Edges {
    /// Whether the variable is heard as a clock.
    pub fn are_of_clock(self) -> bool {
        self.rise || self.fall
    }

    // Those of both.
    fn joined(self, other: Edges) -> Edges {
        Edges {
            rise: self.rise || other.rise,
            fall: self.fall || other.fall,
            read: self.read || other.read,
        }
    }

    // Those of a variable from which this one takes its value.
    fn handed(self, same: bool) -> Edges {
        if same {
            return self;
        }
        Edges {
            rise: self.are_of_clock(),
            fall: self.are_of_clock(),
            read: self.read,
        }
    }
}

// The edge that is heard.
fn edge_of(edge: Edge) -> Edges {
    match edge {
        Edge::Any => NONE,
        Edge::Rise => Edges {
            rise: true,
            fall: false,
            read: false,
        },
        Edge::Fall => Edges {
            rise: false,
            fall: true,
            read: false,
        },
    }
}

// The edge that is heard by a process that reads the variable, or doesn't.
fn heard_edge(edge: Edge, is_read: bool) -> Edges {
    match edge {
        Edge::Any => NONE,
        _ if is_read => READ,
        _ => edge_of(edge),
    }
}

// Of each variable, by its number: which edges are heard.
#[derive(Drop)]
struct Heard {
    list: Vec<Edges>,
}

impl Heard {
    // With these of this one, too; whether that is news.
    fn put(&mut self, number: u32, edges: Edges) -> bool {
        match self.list.get_mut(number as usize) {
            None => false,
            Some(known) => {
                let before = *known;
                *known = before.joined(edges);
                *known != before
            }
        }
    }

    // What is heard of this one.
    fn of(&self, number: u32) -> Edges {
        self.list.get(number as usize).copied().unwrap_or(NONE)
    }

    // What a term hears, in a process that reads these.
    fn put_term(&mut self, read: &[bool], term: &Term) {
        match term {
            Term::Change { edge, variable } => {
                let is_read = read.get(*variable as usize) == Some(&true);
                self.put(*variable, heard_edge(*edge, is_read));
            }
            Term::Event(_) => {}
        }
    }

    // The same of terms.
    fn put_terms(&mut self, read: &[bool], terms: &Terms) {
        for term in terms.as_slice() {
            self.put_term(read, term);
        }
    }

    // What the actions of a process hear.
    fn put_process(&mut self, actions: &[Action], places: &[usize], read: &[bool]) {
        for place in places {
            if let Some(Action::EventControl { terms, .. }) = actions.get(*place) {
                self.put_terms(read, terms);
            }
        }
    }

    // What is heard of the variables that hand values on; whether that is news.
    fn hand_on(&mut self, handed: &[Handed]) -> bool {
        let mut is_news = false;
        for one in handed {
            let edges = self.of(one.to).handed(one.same);
            if self.put(one.from, edges) {
                is_news = true;
            }
        }
        is_news
    }

    // The same, as far as values are handed on.
    fn hand_all_on(&mut self, handed: &[Handed]) {
        for _ in 0..self.list.len() {
            if !self.hand_on(handed) {
                return;
            }
        }
    }
}

// Marks what a step reads, which isn't what an event control waits for.
fn mark_read(alloc: Global, read: &mut [bool], action: &Action) -> Result<(), NoMemory> {
    let reads = reads_of(alloc, action, true)?;
    for thing in reads.as_slice() {
        if let Thing::Variable(number) = thing {
            if let Some(mark) = read.get_mut(*number as usize) {
                *mark = true;
            }
        }
    }
    Ok(())
}

// Which of so many variables the actions at these places read.
fn read_by(
    alloc: Global,
    actions: &[Action],
    places: &[usize],
    count: usize,
) -> Result<Vec<bool>, NoMemory> {
    let mut read = Vec::new(alloc);
    read.resize(count, false)?;
    for place in places {
        if let Some(action) = actions.get(*place) {
            mark_read(alloc, &mut read, action)?;
        }
    }
    Ok(read)
}

// All that hand values on.
fn all_handed(alloc: Global, actions: &[Action]) -> Result<Vec<Handed>, NoMemory> {
    let mut handed = Vec::new(alloc);
    for action in actions {
        if let Some(one) = handed_by(action) {
            handed.push(one)?;
        }
    }
    Ok(handed)
}

// What the processes hear.
fn heard_by_processes(alloc: Global, design: &Design) -> Result<Heard, NoMemory> {
    let count = design.variables.len();
    let mut list = Vec::new(alloc);
    list.resize(count, NONE)?;
    let mut heard = Heard { list };
    for begin in &design.processes {
        let places = actions_of(alloc, &design.actions, begin)?;
        let read = read_by(alloc, &design.actions, &places, count)?;
        heard.put_process(&design.actions, &places, &read);
    }
    Ok(heard)
}

/// Of each variable of a design, by its number: which edges of it, or of what takes its value from it through connections of ports and
/// `assign`s, wake a process that doesn't read it, and whether one wakes a process that does.
pub fn edges_of(alloc: Global, design: &Design) -> Result<Vec<Edges>, NoMemory> {
    let mut heard = heard_by_processes(alloc, design)?;
    let handed = all_handed(alloc, &design.actions)?;
    heard.hand_all_on(&handed);
    Ok(heard.list)
}
