// Continuous assignments that hand one variable on: connections of ports, and `assign p = q;` (IEEE 1364-2005, 6.1, 12.3.9.2).

use vdesign::action::{Action, Target, Targets};
use vdesign::expression::{Expression, Node};

/// A variable that takes its value from another one, by their numbers; `same` where it is the whole value, as it is.
#[derive(Clone, Copy)]
pub(crate) struct Handed {
    pub from: u32,
    pub to: u32,
    pub same: bool,
}

// The variable that a node names.
fn named(node: &Node) -> Option<u32> {
    match node {
        Node::Variable(number) => Some(*number),
        Node::Bit(number) => Some(*number),
        Node::Part { variable, .. } => Some(*variable),
        _ => None,
    }
}

// The only variable that an expression names.
fn only_named(expression: &Expression) -> Option<u32> {
    let mut found: Option<u32> = None;
    for node in expression.nodes() {
        if let Some(number) = named(node) {
            if found.is_some() && found != Some(number) {
                return None;
            }
            found = Some(number);
        }
    }
    found
}

// Whether the expression is a variable alone.
fn is_plain(expression: &Expression) -> bool {
    expression.nodes().len() == 1
}

// The variable that is written, where that is one as a whole.
fn only_target(targets: &Targets) -> Option<u32> {
    match targets.as_slice().split_first() {
        Some((Target::Whole(number), rest)) if rest.is_empty() => Some(*number),
        _ => None,
    }
}

/// What the action hands on, if it is such an assignment.
pub(crate) fn handed_by(action: &Action) -> Option<Handed> {
    match action {
        Action::ContinuousAssign { targets, value, .. } => Some(Handed {
            from: only_named(value)?,
            to: only_target(targets)?,
            same: is_plain(value),
        }),
        _ => None,
    }
}
