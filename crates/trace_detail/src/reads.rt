// The variables that are named in what a step of an action evaluates.

use basis::NoMemory;
use std::alloc::Global;
use vdesign::action::{Action, Branch, Branches, Target, Targets, Term, Terms};
use vdesign::expression::{Expression, Node};
use vdesign::print::{Piece, Pieces, When};

/// Variables by their numbers, each once, in the order in which they are come to.
#[derive(Drop)]
pub struct Reads {
    list: Vec<u32>,
}

// Whether the number stands in the list.
fn is_in(list: &[u32], number: u32) -> bool {
    for other in list {
        if *other == number {
            return true;
        }
    }
    false
}

impl Reads {
    /// None yet.
    pub fn new(alloc: Global) -> Reads {
        Reads {
            list: Vec::new(alloc),
        }
    }

    /// The variables, as a list.
    pub fn as_slice(&self) -> &[u32] {
        &self.list
    }

    // One more.
    fn put(&mut self, number: u32) -> Result<(), NoMemory> {
        if !is_in(&self.list, number) {
            self.list.push(number)?;
        }
        Ok(())
    }

    // What a node of an expression names.
    fn put_node(&mut self, node: &Node) -> Result<(), NoMemory> {
        match node {
            Node::Variable(number) => self.put(*number),
            Node::Bit(number) => self.put(*number),
            Node::Part { variable, .. } => self.put(*variable),
            _ => Ok(()),
        }
    }

    // What an expression names (clause 5).
    fn put_named(&mut self, expression: &Expression) -> Result<(), NoMemory> {
        for node in expression.nodes() {
            self.put_node(node)?;
        }
        Ok(())
    }

    // What two expressions name.
    fn put_both(&mut self, one: &Expression, other: &Expression) -> Result<(), NoMemory> {
        self.put_named(one)?;
        self.put_named(other)
    }

    // What the index of a target names (6.2).
    fn put_index(&mut self, target: &Target) -> Result<(), NoMemory> {
        match target {
            Target::Whole(_) => Ok(()),
            Target::Bit { index, .. } => self.put_named(index),
            Target::Part { .. } => Ok(()),
        }
    }

    // What the indices of targets name.
    fn put_indices(&mut self, targets: &Targets) -> Result<(), NoMemory> {
        for target in targets.as_slice() {
            self.put_index(target)?;
        }
        Ok(())
    }

    // What the item of a branch names (9.5).
    fn put_branch(&mut self, branch: &Branch) -> Result<(), NoMemory> {
        self.put_named(&branch.item)
    }

    // What the items of branches name.
    fn put_branches(&mut self, branches: &Branches) -> Result<(), NoMemory> {
        for branch in branches.as_slice() {
            self.put_branch(branch)?;
        }
        Ok(())
    }

    // What a term waits for (9.7.2); named events have no name in a design.
    fn put_term(&mut self, term: &Term) -> Result<(), NoMemory> {
        match term {
            Term::Change { variable, .. } => self.put(*variable),
            Term::Event(_) => Ok(()),
        }
    }

    // What terms wait for.
    fn put_terms(&mut self, terms: &Terms) -> Result<(), NoMemory> {
        for term in terms.as_slice() {
            self.put_term(term)?;
        }
        Ok(())
    }

    // What a piece of a line shows (17.1).
    fn put_piece(&mut self, piece: &Piece) -> Result<(), NoMemory> {
        match piece {
            Piece::Text(_) => Ok(()),
            Piece::Value { value, .. } => self.put_named(value),
        }
    }

    // What a line shows that is printed at once.
    fn put_pieces(&mut self, when: When, pieces: &Pieces) -> Result<(), NoMemory> {
        if when != When::Now {
            return Ok(());
        }
        for piece in pieces.as_slice() {
            self.put_piece(piece)?;
        }
        Ok(())
    }

    // What an assignment evaluates.
    fn put_assigned(&mut self, value: &Expression, targets: &Targets) -> Result<(), NoMemory> {
        self.put_named(value)?;
        self.put_indices(targets)
    }

    // What a suspended assignment evaluates, after which its process holds the value, or has written it (9.7.7).
    fn put_suspended(
        &mut self,
        amount: &Expression,
        value: &Expression,
        targets: &Targets,
        holds: bool,
    ) -> Result<(), NoMemory> {
        if holds {
            self.put_both(amount, value)
        } else {
            self.put_indices(targets)
        }
    }

    // What an assignment evaluates, where the action is one.
    fn put_assignment(&mut self, action: &Action, holds: bool) -> Result<(), NoMemory> {
        match action {
            Action::Assign { targets, value } => self.put_assigned(value, targets),
            Action::Nonblocking { targets, value } => self.put_assigned(value, targets),
            Action::AssignDelayed {
                amount,
                targets,
                value,
            } => self.put_suspended(amount, value, targets, holds),
            Action::NonblockingDelayed {
                amount,
                targets,
                value,
            } => {
                self.put_both(amount, value)?;
                self.put_indices(targets)
            }
            Action::ContinuousAssign { value, .. } => self.put_named(value),
            _ => Ok(()),
        }
    }

    /// What a step of the action evaluates, after which its process holds a value, or none.
    pub fn put_action(&mut self, action: &Action, holds: bool) -> Result<(), NoMemory> {
        match action {
            Action::Test { condition, .. } => self.put_named(condition),
            Action::Case {
                value,
                branches,
                ..
            } => {
                self.put_named(value)?;
                self.put_branches(branches)
            }
            Action::While { condition, .. } => self.put_named(condition),
            Action::Repeat { count, .. } => self.put_named(count),
            Action::Delay { amount, .. } => self.put_named(amount),
            Action::EventControl { terms, .. } => self.put_terms(terms),
            Action::Wait { condition, .. } => self.put_named(condition),
            Action::Print { when, pieces } => self.put_pieces(*when, pieces),
            _ => self.put_assignment(action, holds),
        }
    }
}
