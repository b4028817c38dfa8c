// What stands in statements beside expressions: targets, delays, events and calls of system tasks.

use super::expressions::expression;
use super::page::Page;
use vast::keywords::{idle_word, print_word};
use vast::statement::{
    Argument, Delay, Dumping, Edge, Event, FurtherTerm, Path, Selection, Target, Task, Term,
};

/// What an assignment writes to.
#[cycle(targets)]
pub fn target(page: &mut Page<'_>, value: &Target) {
    match value {
        Target::Whole(name) => page.leaf(b"whole", *name),
        Target::Bit { name, index } => {
            page.open_with(b"bit", *name);
            expression(page, index);
            page.close();
        }
        Target::Part { name, left, right } => {
            page.open_with(b"part", *name);
            expression(page, left);
            expression(page, right);
            page.close();
        }
        Target::Joined { targets: list, .. } => {
            page.open(b"joined");
            targets(page, list);
            page.close();
        }
    }
}

#[cycle(targets)]
fn targets(page: &mut Page<'_>, list: &[Target]) {
    for value in list {
        target(page, value);
    }
}

/// How long is waited.
pub fn delay(page: &mut Page<'_>, value: &Delay) {
    match value {
        Delay::Number(digits) => page.leaf(b"delay-number", *digits),
        Delay::Name(name) => page.leaf(b"delay-name", *name),
        Delay::Value(amount) => {
            page.open(b"delay-value");
            expression(page, amount);
            page.close();
        }
    }
}

/// How long is waited if it is told, else a dash.
pub fn optional_delay(page: &mut Page<'_>, value: &Option<Delay>) {
    match value {
        None => page.word(b"-"),
        Some(value) => delay(page, value),
    }
}

fn term(page: &mut Page<'_>, value: Term) {
    let kind: &[u8] = match value.edge {
        None => b"change",
        Some(Edge::Rising) => b"posedge",
        Some(Edge::Falling) => b"negedge",
    };
    page.leaf(kind, value.name)
}

fn further_terms(page: &mut Page<'_>, list: &[FurtherTerm]) {
    for value in list {
        let kind: &[u8] = if value.by_comma { b"comma" } else { b"or" };
        page.open(kind);
        term(page, value.term);
        page.close();
    }
}

/// What is waited for.
pub fn event(page: &mut Page<'_>, value: &Event) {
    match value {
        Event::Named(name) => page.leaf(b"named", *name),
        Event::Any => page.empty(b"any"),
        Event::AnyEnclosed => page.empty(b"any-enclosed"),
        Event::Terms {
            term: first,
            further,
        } => {
            page.open(b"terms");
            term(page, *first);
            further_terms(page, further);
            page.close();
        }
    }
}

fn arguments(page: &mut Page<'_>, list: &[Argument]) {
    for argument in list {
        match argument {
            Argument::Text(letters) => page.leaf(b"string", *letters),
            Argument::Value(value) => expression(page, value),
            Argument::LeftOut => page.empty(b"left-out"),
        }
    }
}

fn paths(page: &mut Page<'_>, list: &[Path]) {
    for path in list {
        page.open(b"path");
        page.tokens(&path.names);
        page.close();
    }
}

fn selection(page: &mut Page<'_>, value: &Option<Selection>) {
    if let Some(value) = value {
        page.token(value.levels);
        paths(page, &value.paths);
    }
}

// The word of a task, without the letter `$`.
fn kind(value: &Task) -> &'static [u8] {
    match value {
        Task::Print { kind, .. } => print_word(*kind).get(1..).unwrap_or(&[]),
        Task::Idle { kind, .. } => idle_word(*kind).get(1..).unwrap_or(&[]),
        Task::DumpFile(_) => b"dumpfile",
        Task::DumpVars(_) => b"dumpvars",
        Task::Dump(Dumping::On) => b"dumpon",
        Task::Dump(Dumping::Off) => b"dumpoff",
        Task::Dump(Dumping::All) => b"dumpall",
        Task::Dump(Dumping::Flush) => b"dumpflush",
        Task::End { stops: true, .. } => b"stop",
        Task::End { stops: false, .. } => b"finish",
    }
}

/// A call of a system task.
pub fn task(page: &mut Page<'_>, value: &Task) {
    page.open(kind(value));
    match value {
        Task::Print {
            arguments: list,
            ..
        } => arguments(page, list),
        Task::Idle {
            arguments: list,
            ..
        } => arguments(page, list),
        Task::DumpFile(letters) => page.token(*letters),
        Task::DumpVars(selected) => selection(page, selected),
        Task::Dump(_) => {}
        Task::End { number, .. } => page.optional(number),
    }
    page.close();
}
