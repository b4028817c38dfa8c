// Variables that are one object by two names: what a port connection joins, without the rest of its value (IEEE 1364-2005, 12.3.9.2).

use basis::NoMemory;
use std::alloc::Global;
use vdesign::action::{Action, Target, Targets};
use vdesign::design::Design;
use vdesign::expression::{Expression, Node};

// The number of the scope of which the variable is.
fn scope_of(design: &Design, variable: usize) -> usize {
    let mut first = 0usize;
    for (place, scope) in design.scopes.iter().enumerate() {
        first = first.saturating_add(scope.variables as usize);
        if variable < first {
            return place;
        }
    }
    design.scopes.len()
}

// The variable that is written as a whole, alone.
fn only_target(targets: &Targets) -> Option<usize> {
    let (first, rest) = targets.as_slice().split_first()?;
    match first {
        Target::Whole(number) if rest.is_empty() => Some(*number as usize),
        _ => None,
    }
}

// The variable that an expression is, alone.
fn only_variable(value: &Expression) -> Option<usize> {
    let (first, rest) = value.nodes().split_first()?;
    match first {
        Node::Variable(number) if rest.is_empty() => Some(*number as usize),
        _ => None,
    }
}

// Whether both are as long, and of two scopes, as what a port connection joins.
fn are_joined(design: &Design, one: usize, other: usize) -> bool {
    match (design.variables.get(one), design.variables.get(other)) {
        (Some(first), Some(second)) => {
            first.length == second.length && scope_of(design, one) != scope_of(design, other)
        }
        _ => false,
    }
}

// The two variables that the action joins, that which is written first.
fn joined_by(design: &Design, action: &Action) -> Option<(usize, usize)> {
    let Action::ContinuousAssign { targets, value, .. } = action else {
        return None;
    };
    let (net, source) = (only_target(targets)?, only_variable(value)?);
    if are_joined(design, net, source) {
        Some((net, source))
    } else {
        None
    }
}

// Of each variable the one that a port connection gives it the value of, where it is joined to one.
fn sources_of(alloc: Global, design: &Design) -> Result<Vec<Option<usize>>, NoMemory> {
    let mut sources = Vec::new(alloc);
    for _ in &design.variables {
        sources.push(None)?;
    }
    for action in &design.actions {
        if let Some((net, source)) = joined_by(design, action) {
            if let Some(place) = sources.get_mut(net) {
                *place = Some(source);
            }
        }
    }
    Ok(sources)
}

// The variable from which this one has its value, through ports alone.
fn origin_of(sources: &[Option<usize>], variable: usize) -> usize {
    let mut origin = variable;
    for _ in 0..sources.len() {
        match sources.get(origin).copied().flatten() {
            None => return origin,
            Some(source) => origin = source,
        }
    }
    origin
}

/// Of each variable, by number, the one with which it is one object: from which it has its value, through ports alone.
pub fn objects_of(alloc: Global, design: &Design) -> Result<Vec<usize>, NoMemory> {
    let sources = sources_of(alloc, design)?;
    let mut objects = Vec::new(alloc);
    for (variable, _) in design.variables.iter().enumerate() {
        objects.push(origin_of(&sources, variable))?;
    }
    Ok(objects)
}
