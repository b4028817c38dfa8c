// Differences as JSON: of a finding's first one each side, of those that follow their names.

use crate::difference::{Subject, is_parent, named_log, put_value_of};
use crate::name::name_of;
use basis::NoMemory;
use race_findings::{Apart, Aspect, Difference, Evidence, Name, RunEnd, Setting, Side};
use race_words::members::{Items, Members};
use race_words::value::put_value;
use sched_core::bag::Bag;
use sched_core::end::Cause;
use sched_core::{Log, write_log};
use serde_json::Value;
use std::alloc::Global;
use vbits::Vec4;
use vdesign::design::{Design, Variable};

// Which of the two statements comes earlier in the run under the log, where one of both orders is its.
fn earlier(subject: Subject<'_>, log: &Log) -> Option<&'static [u8]> {
    let finding = subject.finding;
    if finding.statements.is_none() {
        return None;
    }
    if log.members() == finding.log.members() {
        return Some(b"second");
    }
    if is_parent(&finding.log, log) {
        Some(b"first")
    } else {
        None
    }
}

/// The text of the log, with the name of the setting where it has departures.
pub fn log_text(alloc: Global, setting: Setting<'_>, log: &Log) -> Result<Vec<u8>, NoMemory> {
    if log.members().is_empty() {
        write_log(alloc, log)
    } else {
        named_log(alloc, setting, log)
    }
}

/// A value of the variable.
pub fn value_words(alloc: Global, variable: &Variable, value: Vec4) -> Result<Vec<u8>, NoMemory> {
    let mut text = Vec::new(alloc);
    put_value(&mut text, variable, value)?;
    Ok(text)
}

// The lines, each a string.
fn lines_of(alloc: Global, lines: &Bag) -> Result<Value, NoMemory> {
    let mut list = Items::new(alloc);
    for line in lines.as_slice() {
        list.text(line.as_bytes());
    }
    list.whole()
}

/// The word for why a run ends (docs/FORMATS.md, "Reports").
pub fn end_word(cause: Cause) -> &'static [u8] {
    match cause {
        Cause::Finish => b"finish",
        Cause::Stop => b"stop",
        Cause::Quiet => b"quiet",
        Cause::Limit => b"limit",
    }
}

// A value of the variable of this number.
fn value_of(
    alloc: Global,
    design: &Design,
    number: usize,
    value: Option<&Vec4>,
) -> Result<Vec<u8>, NoMemory> {
    let mut text = Vec::new(alloc);
    put_value_of(&mut text, design, number, value)?;
    Ok(text)
}

// The values of these variables where a run ends.
fn values_of(
    alloc: Global,
    design: &Design,
    variables: &[usize],
    values: &[Vec4],
) -> Result<Value, NoMemory> {
    let mut list = Items::new(alloc);
    for number in variables {
        list.made_text(value_of(alloc, design, *number, values.get(*number)));
    }
    list.whole()
}

// The names of these variables.
fn names_of(alloc: Global, design: &Design, variables: &[usize]) -> Result<Value, NoMemory> {
    let mut list = Items::new(alloc);
    for number in variables {
        list.text(name_of(design, *number));
    }
    list.whole()
}

// What is so where a run ends, of all that ends differ in.
fn put_apart(alloc: Global, side: &mut Members, design: &Design, apart: &Apart, run: &RunEnd) {
    if !apart.variables.is_empty() {
        let values = values_of(alloc, design, &apart.variables, &run.values);
        side.try_value("values", values);
    }
    if let Some(lines) = &run.lines {
        if apart.in_lines {
            side.try_value("lines", lines_of(alloc, lines));
        }
    }
}

// Where a run ends, and what is so then.
fn put_run_end(
    alloc: Global,
    side: &mut Members,
    design: &Design,
    apart: Option<&Apart>,
    run: &RunEnd,
) {
    if let Some(end) = run.end {
        side.text("end", end_word(end.cause));
        side.number("time", end.time);
    }
    if let Some(apart) = apart {
        put_apart(alloc, side, design, apart, run);
    }
}

// A side of the difference: its log, which of the two statements comes earlier, and what is so.
fn side_of(
    alloc: Global,
    subject: Subject<'_>,
    difference: &Difference,
    side: &Side,
) -> Result<Value, NoMemory> {
    let design = subject.setting.design;
    let mut members = Members::new(alloc);
    members.made_text("log", log_text(alloc, subject.setting, &side.log));
    if let Some(statement) = earlier(subject, &side.log) {
        members.text("earlier", statement);
    }
    match (&side.evidence, &difference.aspect) {
        (Evidence::Value(value), Aspect::Variable(number)) => {
            members.made_text("value", value_of(alloc, design, *number, Some(value)));
        }
        (Evidence::Value(_), _) => {}
        (Evidence::Lines(lines), _) => members.try_value("lines", lines_of(alloc, lines)),
        (Evidence::End(run), _) => {
            put_run_end(alloc, &mut members, design, difference.apart(), run)
        }
    }
    members.whole()
}

// The sides, that of the default run first, if one is its.
fn sides_of(
    alloc: Global,
    subject: Subject<'_>,
    difference: &Difference,
) -> Result<Value, NoMemory> {
    let mut sides = Items::new(alloc);
    for side in &difference.sides {
        sides.try_value(side_of(alloc, subject, difference, side));
    }
    sides.whole()
}

// A difference by its name: of this variable, or of lines.
fn name_members(alloc: Global, design: &Design, variable: Option<usize>, time: u64) -> Members {
    let mut difference = Members::new(alloc);
    difference.number("time", time);
    let Some(number) = variable else {
        difference.text("kind", b"lines");
        return difference;
    };
    difference.text("kind", b"variable");
    if let Some(variable) = design.variables.get(number) {
        difference.text("name", &variable.name);
    }
    difference
}

// What ends differ in.
fn put_ends_apart(alloc: Global, difference: &mut Members, design: &Design, apart: &Apart) {
    difference.text("kind", b"ends");
    if !apart.variables.is_empty() {
        difference.try_value("variables", names_of(alloc, design, &apart.variables));
    }
}

/// A difference of the finding, with its sides, that of the default run first, if one is its.
pub fn whole_difference(
    alloc: Global,
    subject: Subject<'_>,
    difference: &Difference,
) -> Result<Value, NoMemory> {
    let design = subject.setting.design;
    let variable = match &difference.aspect {
        Aspect::Variable(number) => Some(*number),
        Aspect::Lines => None,
        Aspect::Ends(_) => None,
    };
    let mut members = name_members(alloc, design, variable, difference.time);
    if let Some(apart) = difference.apart() {
        put_ends_apart(alloc, &mut members, design, apart);
    }
    members.try_value("sides", sides_of(alloc, subject, difference));
    members.whole()
}

// A side of ends that differ in these variables alone: its log, and their values.
fn end_side(
    alloc: Global,
    setting: Setting<'_>,
    apart: &Apart,
    side: &Side,
) -> Result<Value, NoMemory> {
    let mut members = Members::new(alloc);
    members.made_text("log", log_text(alloc, setting, &side.log));
    if let Evidence::End(run) = &side.evidence {
        let values = values_of(alloc, setting.design, &apart.variables, &run.values);
        members.try_value("values", values);
    }
    members.whole()
}

// The sides of such ends.
fn end_sides(
    alloc: Global,
    setting: Setting<'_>,
    apart: &Apart,
    difference: &Difference,
) -> Result<Value, NoMemory> {
    let mut sides = Items::new(alloc);
    for side in &difference.sides {
        sides.try_value(end_side(alloc, setting, apart, side));
    }
    sides.whole()
}

/// Ends that differ in the values alone that a cut slot leaves: when and by what the runs end, the names of the variables, and two sides.
pub fn end_values(
    alloc: Global,
    setting: Setting<'_>,
    difference: &Difference,
) -> Result<Value, NoMemory> {
    let mut members = Members::new(alloc);
    if let Some(end) = difference.end() {
        members.text("end", end_word(end.cause));
        members.number("time", end.time);
    }
    if let Some(apart) = difference.apart() {
        members.try_value(
            "variables",
            names_of(alloc, setting.design, &apart.variables),
        );
        members.try_value("sides", end_sides(alloc, setting, apart, difference));
    }
    members.whole()
}

/// A difference that follows.
pub fn next_difference(alloc: Global, design: &Design, name: &Name) -> Result<Value, NoMemory> {
    name_members(alloc, design, name.variable, name.time).whole()
}
