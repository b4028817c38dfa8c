// The header of a dump (18.2.3).

ghost use Rattle.std.specs.Prelude.{◌≡◌, ◌++◌, ◌==◌, IfOk, OnOk, if◌then◌else◌, decimal, length, min, suc};
ghost use Rattle.std.specs.List.{after_last, list_all};
ghost use Rattle.basis.specs.Letters as letters;
ghost use Rattle.vcd_text.specs.DumpText.{bounds_text, closings, header as header_text, identifier, is_simple as is_simple_name, is_written as is_written_before, kind_word, named_variable_line as variable_text, scope_line, timescale_line};
ghost use Rattle.vcd_text.specs.Headers.{IsCodeAfter, Lists, ListsMarked, ListsScope, all_scopes};

use crate::selected::is_any_below;
use crate::values::follow;
use basis::{NoMemory, Span, begins_name, is_in_name};
use itoa::Buffer;
use std::alloc::Global;
use vdesign::design::{Design, Kind, Scope, Variable};
use vdesign::expression::Bounds;

/// The header of a dump of the scopes that are marked: version, timescale, scopes and variables with their codes (18.2.3;
/// docs/FORMATS.md, "Dumps"). E901 is the only refusal.
pub(crate) fn header_of(alloc: Global, design: &Design, marks: &[bool]) -> Result<Vec<u8>, NoMemory>
    ensures { IfOk result (λ header. header.items ≡ header_text design.now marks.now) }
{
    let mut text = Vec::from_slice(alloc, b"$version vrace $end\n")?;
    put_precision(&mut text, design.scale.precision)?;
    put_scopes(alloc, &mut text, marks, &design.scopes, &design.variables)?;
    text.extend_from_slice(b"$enddefinitions $end\n")?;
    Ok(text)
}

// The unit in which times are counted.
fn put_precision(text: &mut Vec<u8>, precision: Span) -> Result<(), NoMemory>
    ensures { OnOk result (text.new.items ≡ text.old.items ++ timescale_line precision) }
{
    text.extend_from_slice(b"$timescale ")?;
    put_number(text, u32::from(precision.count.number()))?;
    text.extend_from_slice(b" ")?;
    text.extend_from_slice(precision.unit.name().as_bytes())?;
    text.extend_from_slice(b" $end")?;
    text.push(b'\n')?;
    Ok(())
}

fn put_number(text: &mut Vec<u8>, number: u32) -> Result<(), NoMemory>
    ensures { OnOk result (text.new.items ≡ text.old.items ++ decimal number) }
{
    let mut digits = Buffer::new();
    text.extend_from_slice(digits.format(number).as_bytes())?;
    Ok(())
}

fn put_kind(text: &mut Vec<u8>, kind: Kind) -> Result<(), NoMemory>
    ensures { OnOk result (text.new.items ≡ text.old.items ++ kind_word kind) }
{
    match kind {
        Kind::Reg => text.extend_from_slice(b"reg")?,
        Kind::Integer => text.extend_from_slice(b"integer")?,
        Kind::Time => text.extend_from_slice(b"time")?,
        Kind::Wire => text.extend_from_slice(b"wire")?,
    }
    Ok(())
}

// The range of what was declared with one.
fn put_bounds(text: &mut Vec<u8>, bounds: Option<Bounds>) -> Result<(), NoMemory>
    ensures { OnOk result (text.new.items ≡ text.old.items ++ bounds_text bounds) }
{
    match bounds {
        None => Ok(()),
        Some(bounds) => {
            text.extend_from_slice(b" [")?;
            put_number(text, bounds.left)?;
            text.extend_from_slice(b":")?;
            put_number(text, bounds.right)?;
            text.extend_from_slice(b"]")?;
            Ok(())
        }
    }
}

// A variable's name without its scopes: what stands after the last dot.
fn own_name(name: &[u8]) -> &[u8]
    ensures { result.now ≡ after_last (λ c. c == 46) name.now }
{
    let mut start = name.len();
    while start > 0 {
        if name[start - 1] == b'.' {
            return name.split_at(start).1;
        }
        start -= 1;
    }
    name
}

fn are_in_name(bytes: &[u8]) -> bool
    ensures { result ≡ list_all letters.is_in_name bytes.now }
{
    bytes.iter().all(|c| is_in_name(*c))
}

// Whether the name is a letter or `_`, then letters, digits, `_` and `$` (3.7).
fn is_simple(name: &[u8]) -> bool
    ensures { result ≡ is_simple_name name.now }
{
    match name.split_first() {
        None => false,
        Some((first, rest)) => begins_name(*first) && are_in_name(rest),
    }
}

// The name as an identifier, an escaped one where it has to be (3.7.1).
fn put_identifier(text: &mut Vec<u8>, name: &[u8]) -> Result<(), NoMemory>
    ensures { OnOk result (text.new.items ≡ text.old.items ++ identifier name.now) }
{
    if !is_simple(name) {
        text.push(b'\\')?;
    }
    text.extend_from_slice(name)?;
    Ok(())
}

// The line of a variable with this code.
fn put_variable(text: &mut Vec<u8>, name: &[u8], variable: &Variable) -> Result<(), NoMemory>
    ensures { OnOk result (text.new.items ≡ text.old.items ++ variable_text name.now variable.now) }
{
    text.extend_from_slice(b"$var ")?;
    put_kind(text, variable.kind)?;
    text.extend_from_slice(b" ")?;
    put_number(text, variable.length)?;
    text.extend_from_slice(b" ")?;
    text.extend_from_slice(name)?;
    text.extend_from_slice(b" ")?;
    put_identifier(text, own_name(&variable.name))?;
    put_bounds(text, variable.bounds)?;
    text.extend_from_slice(b" $end")?;
    text.push(b'\n')?;
    Ok(())
}

// The lines of variables. The code is that of the first one, and after them that of the next.
fn put_variables(
    text: &mut Vec<u8>,
    name: &mut Vec<u8>,
    variables: &[Variable],
) -> Result<(), NoMemory>
    ensures names { OnOk result (IsCodeAfter name.old.items (length variables.now) name.new.items) }
    ensures lines { OnOk result (Lists name.old.items variables.now text.old.items text.new.items) }
{
    for variable in variables {
        put_variable(text, name, variable)?;
        follow(name)?;
    }
    Ok(())
}

fn put_closings(text: &mut Vec<u8>, count: u64) -> Result<(), NoMemory>
    ensures { OnOk result (text.new.items ≡ text.old.items ++ closings count) }
{
    for _ in 0..count {
        text.extend_from_slice(b"$upscope $end\n")?;
    }
    Ok(())
}

fn put_scope(text: &mut Vec<u8>, name: &[u8]) -> Result<(), NoMemory>
    ensures { OnOk result (text.new.items ≡ text.old.items ++ scope_line name.now) }
{
    text.extend_from_slice(b"$scope module ")?;
    text.extend_from_slice(name)?;
    text.extend_from_slice(b" $end")?;
    text.push(b'\n')?;
    Ok(())
}

// Passes by the codes of variables.
fn pass_by(name: &mut Vec<u8>, variables: &[Variable]) -> Result<(), NoMemory>
    ensures { OnOk result (IsCodeAfter name.old.items (length variables.now) name.new.items) }
{
    for _ in variables {
        follow(name)?;
    }
    Ok(())
}

// The lines of variables that are marked, or only their codes passed by.
fn put_marked(
    text: &mut Vec<u8>,
    name: &mut Vec<u8>,
    mark: bool,
    variables: &[Variable],
) -> Result<(), NoMemory>
    ensures names { OnOk result (IsCodeAfter name.old.items (length variables.now) name.new.items) }
    ensures lines { OnOk result (ListsMarked mark name.old.items variables.now text.old.items
        text.new.items) }
{
    if mark {
        put_variables(text, name, variables)
    } else {
        pass_by(name, variables)
    }
}

// A scope with its variables, where it is written, when so many are open.
fn put_written(
    text: &mut Vec<u8>,
    name: &mut Vec<u8>,
    around: u64,
    written: bool,
    mark: bool,
    scope: &Scope,
    own: &[Variable],
) -> Result<(), NoMemory>
    ensures names { OnOk result (IsCodeAfter name.old.items (length own.now) name.new.items) }
    ensures lines { OnOk result
        (ListsScope around written mark scope.now name.old.items own.now text.old.items
        text.new.items) }
{
    if !written {
        return pass_by(name, own);
    }
    put_closings(text, around.saturating_sub(u64::from(scope.depth)))?;
    put_scope(text, &scope.name)?;
    put_marked(text, name, mark, own)
}

// Whether a scope is written, before those behind it: where it or one below it is selected.
fn is_written(mark: bool, scope: &Scope, marks: &[bool], scopes: &[Scope]) -> bool
    ensures { result ≡ is_written_before mark scope.now marks.now scopes.now }
{
    if mark {
        return true;
    }
    is_any_below(scope.depth, marks, scopes)
}

// How many of the variables that are left are those of a scope.
fn own_count(scope: &Scope, left: usize) -> usize
    ensures { result ≡ min scope.now.variables left }
{
    (scope.variables as usize).min(left)
}

// How many scopes are open behind a scope, which is written or not.
fn open_behind(written: bool, scope: &Scope, around: u64) -> u64
    ensures { result ≡ if written then suc scope.now.depth else around }
{
    if written {
        u64::from(scope.depth) + 1
    } else {
        around
    }
}

// Scopes with their variables, depth first.
fn put_scopes(
    alloc: Global,
    text: &mut Vec<u8>,
    marks: &[bool],
    scopes: &[Scope],
    variables: &[Variable],
) -> Result<(), NoMemory>
    ensures { OnOk result (text.new.items ≡ text.old.items
        ++ all_scopes marks.now scopes.now variables.now) }
{
    let mut name = Vec::from_slice(alloc, b"!")?;
    let mut around = 0u64;
    let mut left_marks = marks;
    let mut left = scopes;
    let mut rest = variables;
    while let Some((scope, behind)) = left.split_first() {
        let Some((mark, later_marks)) = left_marks.split_first() else {
            return put_closings(text, around);
        };
        let written = is_written(*mark, scope, later_marks, behind);
        let (own, later) = rest.split_at(own_count(scope, rest.len()));
        put_written(text, &mut name, around, written, *mark, scope, own)?;
        around = open_behind(written, scope, around);
        left_marks = later_marks;
        left = behind;
        rest = later;
    }
    put_closings(text, around)
}
