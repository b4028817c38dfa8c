// Instances by name: in which one a statement stands (IEEE 1364-2005, 12.4).

use crate::connection::variable_of;
use crate::place::Sources;
use race_findings::Statements;
use vdesign::action::{Action, Branches, Targets, Term, Terms};
use vdesign::design::Design;
use vdesign::expression::{Expression, Node};
use vdesign::print::{Piece, Pieces};

/// The instances in which two statements of one line stand.
#[derive(Clone, Copy)]
pub struct Instances<'a> {
    pub first: &'a [u8],
    pub second: &'a [u8],
}

// The scope of which the variable of this number is: its path.
fn path_of(design: &Design, variable: u32) -> Option<&[u8]> {
    let mut first = 0u32;
    for scope in &design.scopes {
        first = first.saturating_add(scope.variables);
        if variable < first {
            return Some(&scope.path);
        }
    }
    None
}

// The variable that the node is of, if it is of one.
fn variable_of_node(node: &Node) -> Option<u32> {
    match node {
        Node::Variable(number) => Some(*number),
        Node::Bit(number) => Some(*number),
        Node::Part { variable, .. } => Some(*variable),
        _ => None,
    }
}

// The first variable that an expression reads.
fn variable_in(value: &Expression) -> Option<u32> {
    for node in value.nodes() {
        let found = variable_of_node(node);
        if found.is_some() {
            return found;
        }
    }
    None
}

// The first variable that is written.
fn target_in(targets: &Targets) -> Option<u32> {
    Some(variable_of(targets.as_slice().first()?))
}

// The variable whose change the term is of, if it is of one.
fn variable_of_term(term: &Term) -> Option<u32> {
    match term {
        Term::Change { variable, .. } => Some(*variable),
        Term::Event(_) => None,
    }
}

// The first variable whose change is waited for.
fn term_in(terms: &Terms) -> Option<u32> {
    for term in terms.as_slice() {
        let found = variable_of_term(term);
        if found.is_some() {
            return found;
        }
    }
    None
}

// The variable that the piece shows, if it shows one.
fn variable_of_piece(piece: &Piece) -> Option<u32> {
    match piece {
        Piece::Text(_) => None,
        Piece::Value { value, .. } => variable_in(value),
    }
}

// The first variable that a line shows.
fn piece_in(pieces: &Pieces) -> Option<u32> {
    for piece in pieces.as_slice() {
        let found = variable_of_piece(piece);
        if found.is_some() {
            return found;
        }
    }
    None
}

// The first variable of the items.
fn branch_in(branches: &Branches) -> Option<u32> {
    for branch in branches.as_slice() {
        let found = variable_in(&branch.item);
        if found.is_some() {
            return found;
        }
    }
    None
}

// A variable of the scope in which the statement of the action stands, if it names one. Of a connection that is the outer one of both.
fn variable_by(action: &Action) -> Option<u32> {
    match action {
        Action::Assign { targets, .. } => target_in(targets),
        Action::AssignDelayed { targets, .. } => target_in(targets),
        Action::Nonblocking { targets, .. } => target_in(targets),
        Action::NonblockingDelayed { targets, .. } => target_in(targets),
        Action::Test { condition, .. } => variable_in(condition),
        Action::Case {
            value,
            branches,
            ..
        } => match variable_in(value) {
            None => branch_in(branches),
            found => found,
        },
        Action::While { condition, .. } => variable_in(condition),
        Action::Repeat { count, .. } => variable_in(count),
        Action::Delay { amount, .. } => variable_in(amount),
        Action::EventControl { terms, .. } => term_in(terms),
        Action::Wait { terms, .. } => term_in(terms),
        Action::Print { pieces, .. } => piece_in(pieces),
        _ => None,
    }
}

// The shorter of two paths: the outer one, where one is within the other.
fn outer<'a>(one: Option<&'a [u8]>, other: Option<&'a [u8]>) -> Option<&'a [u8]> {
    match (one, other) {
        (Some(first), Some(second)) if second.len() < first.len() => other,
        (None, _) => other,
        _ => one,
    }
}

/// The path of the instance in which the statement of the action stands, `tb.u1`; none where it names no variable.
pub fn instance_of(design: &Design, action: usize) -> Option<&[u8]> {
    match design.actions.get(action)? {
        Action::ContinuousAssign { targets, value, .. } => outer(
            path_of(design, target_in(targets)?),
            match variable_in(value) {
                None => None,
                Some(variable) => path_of(design, variable),
            },
        ),
        action => path_of(design, variable_by(action)?),
    }
}

// Whether both places are known, and in one line.
fn are_in_one_line(sources: &Sources<'_>, one: usize, other: usize) -> bool {
    match (sources.place(one), sources.place(other)) {
        (Some(here), Some(there)) => here.file == there.file && here.line == there.line,
        _ => false,
    }
}

/// The instances of the two statements, where both stand in one line, and in two instances.
pub fn instances_of<'a>(
    design: &'a Design,
    sources: &Sources<'_>,
    statements: &Statements,
) -> Option<Instances<'a>> {
    let (one, other) = (statements.first.statement, statements.second.statement);
    if !are_in_one_line(sources, one, other) {
        return None;
    }
    let (first, second) = (instance_of(design, one)?, instance_of(design, other)?);
    if first == second {
        None
    } else {
        Some(Instances { first, second })
    }
}
