// The lines of the variables of a report, read.

ghost use Rattle.std.specs.Prelude.{◌≡◌, ◌≤◌, IfOk, IsTrue, ◌↔◌};
ghost use Rattle.report_text.specs.Inner.Columns.{column_by, AreColumnsTaken, EachColumns, IsColumnTaken};
ghost use Rattle.report_text.specs.Inner.Places.{HasTaken, Stands, TakesEach};

use crate::letters::is_path;
use crate::names::Names;
use crate::reader::Reader;
use crate::report::Column;
use basis::NoMemory;
use std::alloc::Global;

// Whether this may be the width of a variable.
fn is_width(n: u64) -> bool
    ensures { IsTrue result ↔ ((1 ≤ n) × (n ≤ 64)) }
{
    1 <= n && n <= 64
}

// The number, where it is at most 64.
fn narrow(n: u64) -> u32
    ensures { n ≤ 64 → result ≡ n }
{
    n.min(64) as u32
}

/// A copy of the bytes. The error is want of memory, E901.
pub fn copy_of(alloc: Global, bytes: &[u8]) -> Result<Vec<u8>, NoMemory>
    ensures { IfOk result (λ copy. copy.items ≡ bytes.now) }
{
    let mut copy = Vec::new(alloc);
    copy.extend_from_slice(bytes)?;
    Ok(copy)
}

// Takes the line of a variable, its name and its width.
fn column_line<'a>(reader: &mut Reader<'a>) -> (&'a [u8], u32)
    ensures read { HasTaken reader.old reader.new IsColumnTaken (column_by result.0.now result.1) }
    ensures each { TakesEach reader.old reader.new IsColumnTaken (column_by result.0.now result.1) }
{
    let name = reader.word(b' ');
    let width = reader.number(b'\n');
    reader.require(is_path(name));
    reader.require(is_width(width));
    (name, narrow(width))
}

/// Takes so many lines of variables. Where the reader is lost they mean nothing. The error is want of memory, E901.
pub fn read_columns<'a>(
    alloc: Global,
    reader: &mut Reader<'a>,
    count: u64,
) -> Result<(Vec<Column>, Names<'a>), NoMemory>
    ensures read { IfOk result (λ p.
        HasTaken reader.old reader.new (AreColumnsTaken count) (p.0.items, p.1)) }
    ensures each { EachColumns count reader.old (λ columns rest.
        IfOk result (λ p. (p.0.items ≡ columns) × Stands reader.new rest)) }
{
    let mut columns = Vec::new(alloc);
    let mut names = Names::new(alloc);
    for place in 0..count {
        let (name, width) = column_line(reader);
        let added = names.add(name)?;
        reader.require(added);
        if !reader.is_ok() {
            return Ok((columns, names));
        }
        let name = copy_of(alloc, name)?;
        columns.push(Column { name, width })?;
    }
    Ok((columns, names))
}
