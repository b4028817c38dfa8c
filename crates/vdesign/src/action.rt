// What processes do (IEEE 1364-2005, clause 9), an action a step; actions go by their places in a design's table.

ghost use Rattle.std.specs.Prelude.{◌≡◌};

use crate::dump::{DumpSwitch, Selection};
use crate::expression::{Bounds, Expression};
use crate::print::{Pieces, When};
use std::marker::Model;
use vwords::cases::CaseKind;

/// Places of a design's table of actions, in the order in which they are come to.
#[derive(Drop)]
pub struct Places {
    list: Vec<usize>,
}

impl Model for Places {
    ghost use Rattle.std.specs.Prelude.{ℕ, List};

    ghost Value = { List ℕ };

    ghost view = { λ places. places.list.items };
}

impl Places {
    /// These places.
    pub fn new(list: Vec<usize>) -> Places
        ensures { result ≡ list.items }
    {
        Places { list }
    }

    /// The places, as a list.
    pub fn as_slice(&self) -> &[usize]
        ensures { result.now ≡ self.now }
    {
        &self.list
    }
}

/// Which change of a variable is heard (9.7.2, table 9-2).
#[derive(Clone, Copy, PartialEq, Eq)]
pub enum Edge {
    /// Any change of any bit.
    Any,
    /// `posedge`: of the rightmost bit, from 0 or towards 1.
    Rise,
    /// `negedge`: of the rightmost bit, from 1 or towards 0.
    Fall,
}

/// A term of an event control: what is heard (9.7.2, 9.7.3).
#[derive(Clone, Copy, PartialEq, Eq)]
pub enum Term {
    /// This change of the variable of this number (9.7.2).
    Change { edge: Edge, variable: u32 },
    /// That the named event of this number is triggered (9.7.3). Events of a design go by numbers of their own, from 0.
    Event(usize),
}

/// What is waited for: terms, of which one is enough (9.7.4).
#[derive(Drop)]
pub struct Terms {
    list: Vec<Term>,
}

impl Model for Terms {
    ghost use Rattle.std.specs.Prelude.{List};
    ghost use Rattle.vdesign.specs.declared.action.Term.{Term};

    ghost Value = { List Term };

    ghost view = { λ terms. terms.list.items };
}

impl Terms {
    /// These terms.
    pub fn new(list: Vec<Term>) -> Terms
        ensures { result ≡ list.items }
    {
        Terms { list }
    }

    /// The terms, as a list.
    pub fn as_slice(&self) -> &[Term]
        ensures { result.now ≡ self.now }
    {
        &self.list
    }
}

/// An item of a `case`, and the places that come where it is the first that matches (9.5). Items in front of one statement are
/// branches of their own, in the order of the text, with the same places.
#[derive(Drop)]
pub struct Branch {
    pub item: Expression,
    pub body: Places,
}

/// The branches of a `case`, in the order of the text, without its `default` (9.5).
#[derive(Drop)]
pub struct Branches {
    list: Vec<Branch>,
}

impl Model for Branches {
    ghost use Rattle.std.specs.Prelude.{List};
    ghost use Rattle.std.specs.Coded.{codes};
    ghost use Rattle.vdesign.specs.declared.action.Branch.{Branch};
    ghost use Rattle.vdesign.specs.contracts.expression.Expression as expression;

    ghost Value = { List Branch };

    ghost coded = { Prim.hlevel (codes, expression.the_row.coded) };

    ghost view = { λ branches. branches.list.items };
}

impl Branches {
    /// These branches.
    pub fn new(list: Vec<Branch>) -> Branches
        ensures { result ≡ list.items }
    {
        Branches { list }
    }

    /// The branches, as a list.
    pub fn as_slice(&self) -> &[Branch]
        ensures { result.now ≡ self.now }
    {
        &self.list
    }
}

/// What an assignment writes: a variable, a bit of it, or a part (clause 6, table 6-1).
#[derive(Drop)]
pub enum Target {
    /// The whole variable of this number.
    Whole(u32),
    /// `name[index]`, of the variable of this number (5.2.1)
    Bit { variable: u32, index: Expression },
    /// `name[left:right]`, of the variable of this number (5.2.1)
    Part { variable: u32, bounds: Bounds },
}

/// The targets of an assignment: one, or those of a concatenation, the leftmost first (5.1.14). Concatenations within stand in the
/// same row.
#[derive(Drop)]
pub struct Targets {
    list: Vec<Target>,
}

impl Model for Targets {
    ghost use Rattle.std.specs.Prelude.{List};
    ghost use Rattle.std.specs.Coded.{codes};
    ghost use Rattle.vdesign.specs.declared.action.Target.{Target};
    ghost use Rattle.vdesign.specs.contracts.expression.Expression as expression;

    ghost Value = { List Target };

    ghost coded = { Prim.hlevel (codes, expression.the_row.coded) };

    ghost view = { λ targets. targets.list.items };
}

impl Targets {
    /// These targets.
    pub fn new(list: Vec<Target>) -> Targets
        ensures { result ≡ list.items }
    {
        Targets { list }
    }

    /// The targets, as a list.
    pub fn as_slice(&self) -> &[Target]
        ensures { result.now ≡ self.now }
    {
        &self.list
    }
}

/// What a process does in a step (clause 9). What costs no step, `begin`, `end` and empty statements, is no action.
#[derive(Drop)]
pub enum Action {
    /// `targets = value;` (9.2.1)
    Assign {
        targets: Targets,
        value: Expression,
    },
    /// `targets <= value;` (9.2.2)
    Nonblocking {
        targets: Targets,
        value: Expression,
    },
    /// `targets = #amount value;` (9.7.7): it takes the value, sleeps so long, and then writes it.
    AssignDelayed {
        amount: Expression,
        targets: Targets,
        value: Expression,
    },
    /// `targets <= #amount value;` (9.2.2, 9.7.7): it takes value and targets, and posts the update for so much later.
    NonblockingDelayed {
        amount: Expression,
        targets: Targets,
        value: Expression,
    },
    /// `-> event;`, of the named event of this number (9.7.3)
    Trigger(usize),
    /// `if (condition) .. else ..` (9.4)
    Test {
        condition: Expression,
        when_true: Places,
        otherwise: Places,
    },
    /// `case (value) .. endcase`, and where no item matches its `default` (9.5)
    Case {
        kind: CaseKind,
        value: Expression,
        branches: Branches,
        otherwise: Places,
    },
    /// `while (condition) ..` (9.6), and what a `for` tests
    While {
        condition: Expression,
        body: Places,
    },
    /// `repeat (count) ..` (9.6)
    Repeat {
        count: Expression,
        body: Places,
    },
    /// `forever ..` (9.6), and what an `always` does (9.9.2)
    Forever {
        body: Places,
    },
    /// `#amount` and then the body (9.7.1)
    Delay {
        amount: Expression,
        body: Places,
    },
    /// `@(terms)` and then the body (9.7.2)
    EventControl {
        terms: Terms,
        body: Places,
    },
    /// `wait (condition)` and then the body (9.7.6); where the condition doesn't hold, one of the terms is waited for.
    Wait {
        condition: Expression,
        terms: Terms,
        body: Places,
    },
    /// `assign targets = value` (6.1), a process of its own: it writes the nets, and then one of the terms is waited for, and it
    /// writes again.
    ContinuousAssign {
        targets: Targets,
        value: Expression,
        terms: Terms,
    },
    /// `$display(..);`, `$strobe(..);` or `$monitor(..);` (17.1)
    Print {
        when: When,
        pieces: Pieces,
    },
    /// `$dumpvars(..);` (18.1.2)
    DumpVars(Selection),
    /// `$dumpoff;`, `$dumpon;` or `$dumpall;` (18.1.3, 18.1.4)
    Dump(DumpSwitch),
    /// `$dumpfile(..);` or `$dumpflush;`: a step that does nothing more (18.1.1, 18.1.6)
    NoOperation,
    /// `$finish;` (17.4.1)
    Finish,
    /// `$stop;` (17.4.2)
    Stop,
}
