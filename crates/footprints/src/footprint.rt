// What a step of an action reads, and what a step changes.

ghost use Rattle.std.specs.Prelude.{◌≡◌, [], ◌∷◌, ◌++◌, slice_get, IfOk, OnOk};
ghost use Rattle.std.specs.List.{flat_map};
ghost use Rattle.footprints.specs.Footprints as spec;
ghost use Rattle.footprints.specs.Footprints.{named_in};
ghost use Rattle.footprints.specs.Inner.{named_by};
ghost use Rattle.footprints.specs.declared.thing.Thing.TheVariants as thing;

use crate::thing::{Thing, Things};
use basis::NoMemory;
use sched_core::end::Cause;
use std::alloc::Global;
use vbits::Vec4;
use vdesign::action::{Action, Branch, Branches, Edge, Target, Targets};
use vdesign::expression::{Expression, Node};
use vdesign::print::{Piece, Pieces, When};
use vmodel::is_edge;
use vmodel::part::Part;
use vmodel::values::value_in;

/// What a step reads, and what it changes.
#[derive(Drop)]
pub struct Footprint {
    pub reads: Things,
    pub changes: Things,
}

// What a node of an expression names.
fn put_node(things: &mut Vec<Thing>, node: &Node) -> Result<(), NoMemory>
    ensures { OnOk result (things.new.items ≡ things.old.items ++ named_by node.now) }
{
    match node {
        Node::Variable(number) => things.push(Thing::Variable(*number))?,
        Node::Bit(number) => things.push(Thing::Variable(*number))?,
        Node::Part { variable, .. } => things.push(Thing::Variable(*variable))?,
        Node::Constant(_) => {}
        Node::BitOf { .. } => {}
        Node::Time => {}
        Node::Conversion(_) => {}
        Node::Unary(_) => {}
        Node::Binary(_) => {}
        Node::Conditional => {}
        Node::Joined => {}
        Node::Repeated(_) => {}
    }
    Ok(())
}

// What an expression names (clause 5).
fn put_named(things: &mut Vec<Thing>, expression: &Expression) -> Result<(), NoMemory>
    ensures { OnOk result (things.new.items ≡ things.old.items ++ named_in expression.now) }
{
    let nodes = expression.nodes();
    for node in nodes {
        put_node(things, node)?;
    }
    Ok(())
}

// What the index of a target names (6.2).
fn put_index(things: &mut Vec<Thing>, target: &Target) -> Result<(), NoMemory>
    ensures { OnOk result (things.new.items ≡ things.old.items ++ spec.named_in_target target.now) }
{
    match target {
        Target::Whole(_) => Ok(()),
        Target::Bit { index, .. } => put_named(things, index),
        Target::Part { .. } => Ok(()),
    }
}

fn put_indices(things: &mut Vec<Thing>, targets: &[Target]) -> Result<(), NoMemory>
    ensures { OnOk result (things.new.items ≡ things.old.items ++ flat_map spec.named_in_target targets.now) }
{
    for target in targets {
        put_index(things, target)?;
    }
    Ok(())
}

// What the item of a branch names (9.5).
fn put_branch(things: &mut Vec<Thing>, branch: &Branch) -> Result<(), NoMemory>
    ensures { OnOk result (things.new.items ≡ things.old.items ++ spec.named_in_branch branch.now) }
{
    put_named(things, &branch.item)
}

fn put_branches(things: &mut Vec<Thing>, branches: &[Branch]) -> Result<(), NoMemory>
    ensures { OnOk result (things.new.items ≡ things.old.items ++ flat_map spec.named_in_branch branches.now) }
{
    for branch in branches {
        put_branch(things, branch)?;
    }
    Ok(())
}

// What a piece of a line shows (17.1).
fn put_piece(things: &mut Vec<Thing>, piece: &Piece) -> Result<(), NoMemory>
    ensures { OnOk result (things.new.items ≡ things.old.items ++ spec.named_in_piece piece.now) }
{
    match piece {
        Piece::Text(_) => Ok(()),
        Piece::Value { value, .. } => put_named(things, value),
    }
}

fn put_pieces(things: &mut Vec<Thing>, pieces: &[Piece]) -> Result<(), NoMemory>
    ensures { OnOk result (things.new.items ≡ things.old.items ++ flat_map spec.named_in_piece pieces.now) }
{
    for piece in pieces {
        put_piece(things, piece)?;
    }
    Ok(())
}

// What names these things, and goes to targets (6.2, 9.2).
fn with_indices(names: Vec<Thing>, targets: &Targets) -> Result<Things, NoMemory>
    ensures { IfOk result (λ things. things ≡ spec.with_indices names.items targets.now) }
{
    let mut things = names;
    put_indices(&mut things, targets.as_slice())?;
    Ok(Things::new(things))
}

// What an expression names.
fn names_of(alloc: Global, expression: &Expression) -> Result<Things, NoMemory>
    ensures { IfOk result (λ things. things ≡ named_in expression.now) }
{
    let mut names = Vec::new(alloc);
    put_named(&mut names, expression)?;
    Ok(Things::new(names))
}

// What a delay and a value name.
fn names_of_both(
    alloc: Global,
    amount: &Expression,
    value: &Expression,
) -> Result<Vec<Thing>, NoMemory>
    ensures { IfOk result (λ names. names.items ≡ named_in amount.now ++ named_in value.now) }
{
    let mut names = Vec::new(alloc);
    put_named(&mut names, amount)?;
    put_named(&mut names, value)?;
    Ok(names)
}

// An assignment, at once, posted or continuous (6.1, 9.2).
fn reads_of_assignment(
    alloc: Global,
    targets: &Targets,
    value: &Expression,
) -> Result<Things, NoMemory>
    ensures { IfOk result (λ things. things ≡ spec.with_indices (named_in value.now) targets.now) }
{
    let mut names = Vec::new(alloc);
    put_named(&mut names, value)?;
    with_indices(names, targets)
}

// A nonblocking assignment with a delay (9.7.7).
fn reads_of_delayed(
    alloc: Global,
    amount: &Expression,
    targets: &Targets,
    value: &Expression,
) -> Result<Things, NoMemory>
    ensures { IfOk result (λ things.
        things ≡ spec.with_indices (named_in amount.now ++ named_in value.now) targets.now) }
{
    let names = names_of_both(alloc, amount, value)?;
    with_indices(names, targets)
}

// A step of a suspended assignment, after which the process holds its value, or has written it (9.7.7).
fn reads_of_suspended(
    alloc: Global,
    amount: &Expression,
    targets: &Targets,
    value: &Expression,
    holds: bool,
) -> Result<Things, NoMemory>
    ensures { IfOk result (λ things.
        things ≡ spec.reads_of_suspended holds (named_in amount.now ++ named_in value.now) targets.now) }
{
    if holds {
        let names = names_of_both(alloc, amount, value)?;
        return Ok(Things::new(names));
    }
    with_indices(Vec::new(alloc), targets)
}

// `case` (9.5).
fn reads_of_case(alloc: Global, value: &Expression, branches: &Branches) -> Result<Things, NoMemory>
    ensures { IfOk result (λ things.
        things ≡ named_in value.now ++ flat_map spec.named_in_branch branches.now) }
{
    let mut reads = Vec::new(alloc);
    put_named(&mut reads, value)?;
    put_branches(&mut reads, branches.as_slice())?;
    Ok(Things::new(reads))
}

// A print task (17.1).
fn reads_of_print(alloc: Global, when: When, pieces: &Pieces) -> Result<Things, NoMemory>
    ensures { IfOk result (λ things. things ≡ thing.End ∷ spec.named_in_print when pieces.now) }
{
    let mut reads = Vec::new(alloc);
    reads.push(Thing::End)?;
    match when {
        When::Now => put_pieces(&mut reads, pieces.as_slice())?,
        When::AtSlotEnd => {}
        When::AtChange => {}
    }
    Ok(Things::new(reads))
}

/// What a step of an action reads, after which its process holds a value, or none.
pub fn reads_of(alloc: Global, action: &Action, holds: bool) -> Result<Things, NoMemory>
    ensures { IfOk result (λ things. things ≡ spec.reads_of action.now holds) }
{
    match action {
        Action::Assign { targets, value } => reads_of_assignment(alloc, targets, value),
        Action::Nonblocking { targets, value } => reads_of_assignment(alloc, targets, value),
        Action::AssignDelayed {
            amount,
            targets,
            value,
        } => reads_of_suspended(alloc, amount, targets, value, holds),
        Action::NonblockingDelayed {
            amount,
            targets,
            value,
        } => reads_of_delayed(alloc, amount, targets, value),
        Action::Trigger(_) => Ok(Things::none(alloc)),
        Action::Test { condition, .. } => names_of(alloc, condition),
        Action::Case {
            value,
            branches,
            ..
        } => reads_of_case(alloc, value, branches),
        Action::While { condition, .. } => names_of(alloc, condition),
        Action::Repeat { count, .. } => names_of(alloc, count),
        Action::Forever { .. } => Ok(Things::none(alloc)),
        Action::Delay { amount, .. } => names_of(alloc, amount),
        Action::EventControl { .. } => Ok(Things::none(alloc)),
        Action::Wait { condition, .. } => names_of(alloc, condition),
        Action::ContinuousAssign { targets, value, .. } => reads_of_assignment(
            alloc, targets, value,
        ),
        Action::Print { when, pieces } => reads_of_print(alloc, *when, pieces),
        Action::DumpVars(_) => Ok(Things::none(alloc)),
        Action::Dump(_) => Ok(Things::none(alloc)),
        Action::NoOperation => Ok(Things::none(alloc)),
        Action::Finish => Ok(Things::none(alloc)),
        Action::Stop => Ok(Things::none(alloc)),
    }
}

/// The same of the action at a place of the table, if there is one.
pub fn reads_at(
    alloc: Global,
    actions: &[Action],
    place: usize,
    holds: bool,
) -> Result<Things, NoMemory>
    ensures { IfOk result (λ things. things ≡ spec.reads_at (slice_get actions.now place) holds) }
{
    match actions.get(place) {
        None => Ok(Things::none(alloc)),
        Some(action) => reads_of(alloc, action, holds),
    }
}

// The variable of a part, if it has another value after than before.
fn put_if_changed(
    things: &mut Vec<Thing>,
    before: &[Vec4],
    after: &[Vec4],
    part: Part,
) -> Result<(), NoMemory>
    ensures { OnOk result (things.new.items ≡ things.old.items ++ spec.changed_by before.now after.now (part ∷ [])) }
{
    let variable = part.variable();
    if is_edge(
        Edge::Any,
        value_in(before, variable),
        value_in(after, variable),
    ) {
        things.push(Thing::Variable(variable))?;
    }
    Ok(())
}

/// Of the variables of these parts those that have another value after than before.
pub(crate) fn put_changed(
    things: &mut Vec<Thing>,
    before: &[Vec4],
    after: &[Vec4],
    parts: &[Part],
) -> Result<(), NoMemory>
    ensures { OnOk result (things.new.items ≡ things.old.items ++ spec.changed_by before.now after.now parts.now) }
{
    for part in parts {
        put_if_changed(things, before, after, *part)?;
    }
    Ok(())
}

/// Of what a step changes and reads, that the run goes on where it changes something.
pub(crate) fn put_while_it_goes(things: &mut Vec<Thing>, changed: &[Thing]) -> Result<(), NoMemory>
    ensures { OnOk result (things.new.items ≡ things.old.items ++ spec.while_it_goes changed.now) }
{
    if !changed.is_empty() {
        things.push(Thing::End)?;
    }
    Ok(())
}

/// The end of the run, where a step ends it (17.4).
pub(crate) fn put_ended(things: &mut Vec<Thing>, cause: Option<Cause>) -> Result<(), NoMemory>
    ensures { OnOk result (things.new.items ≡ things.old.items ++ spec.ended_by cause) }
{
    match cause {
        None => {}
        Some(_) => things.push(Thing::End)?,
    }
    Ok(())
}
