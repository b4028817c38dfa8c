// Files to one text: joining them, and the walk over what they are together.

ghost use Rattle.std.specs.Prelude.{◌≡◌, ◌≤◌, ◌+◌, ◌++◌, length, None, IfOk, OnOk, Ok, Err};
ghost use Rattle.basis.specs.Reasons.{IfFault};
ghost use Rattle.vsrc.specs.Expansion.{expansion, fault_at};
ghost use Rattle.vsrc.specs.Inner.{IsGrowth, IsLong};
ghost use Rattle.vsrc.specs.Source.{file_bytes, join_files, borders_of, feeds_of, place_by, too_long, text_limit};

use crate::expanded::{Expanded, Lines, Place};
use crate::fault::SrcFault;
use crate::output::TEXT_LIMIT;
use crate::refusal::{Refusal, Why};
use crate::walk::walk_over;
use basis::{NoMemory, OrMemory};
use memchr::memchr_iter;
use std::alloc::Global;

/// What directives and macros make of the files in order; no file gives the empty text. E110 to E114 where that has such
/// a fault, with its place; E901 where a growth was refused.
pub fn expand(alloc: Global, files: &[Vec<u8>]) -> Result<Expanded, OrMemory<SrcFault>>
    ensures ok { IfOk result (λ expanded. expansion (file_bytes files.now) ≡ Ok expanded) }
    ensures err { IfFault result (λ fault. expansion (file_bytes files.now) ≡ Err fault) }
{
    let (text, borders) = join(alloc, files)?;
    let feeds = feeds_of(alloc, &text)?;
    let end = text.len();
    let lines = Lines::new(borders, feeds);
    match walk_over(alloc, &text) {
        Ok(walk) => {
            let (made, timescale) = walk.into_parts();
            let (expanded, origins) = made.into_parts();
            Ok(Expanded::new(expanded, origins, end, lines, timescale))
        }
        Err(OrMemory::Fault(refusal)) => Err(OrMemory::Fault(fault_of(&lines, refusal))),
        Err(OrMemory::Memory(refused)) => Err(OrMemory::Memory(refused)),
    }
}

// A refusal as the fault of its number, with its place.
fn fault_of(lines: &Lines, refusal: Refusal) -> SrcFault
    ensures { result ≡ fault_at refusal.why
        (place_by lines.now.borders lines.now.feeds refusal.at) }
{
    let place = lines.place(refusal.at);
    match refusal.why {
        Why::Directive => SrcFault::Directive { place },
        Why::Macro => SrcFault::NoMacro { place },
        Why::Limit => SrcFault::Growth { place },
        Why::Open => SrcFault::LeftOpen { place },
        Why::Timescales => SrcFault::Timescales { place },
    }
}

// The text of the files, and where a line feed was put between two.
fn join(alloc: Global, files: &[Vec<u8>]) -> Result<(Vec<u8>, Vec<usize>), OrMemory<SrcFault>>
    ensures text { IfOk result (λ made. made.0.items ≡ join_files (file_bytes files.now)) }
    ensures borders { IfOk result (λ made. made.1.items ≡ borders_of (file_bytes files.now)) }
    ensures short { IfOk result (λ made. length made.0.items ≤ text_limit) }
    ensures whole { OnOk result (too_long (file_bytes files.now) ≡ None) }
    ensures err { IfFault result (IsLong (too_long (file_bytes files.now))) }
{
    let mut text = Vec::new(alloc);
    let mut borders = Vec::new(alloc);
    let Some((first, rest)) = files.split_first() else {
        return Ok((text, borders));
    };
    append(&mut text, b"", first, 1)?;
    for (number, file) in rest.iter().enumerate() {
        borders.push(text.len())?;
        append(&mut text, b"\n", file, number + 2)?;
    }
    Ok((text, borders))
}

// Adds a file at the end, with what leads it.
fn append(
    text: &mut Vec<u8>,
    lead: &[u8],
    bytes: &[u8],
    file: usize,
) -> Result<(), OrMemory<SrcFault>>
    requires old { length text.old.items ≤ text_limit }
    requires lead { length lead.now ≤ 1 }
    ensures ok { OnOk result (text.new.items ≡ (text.old.items ++ lead.now) ++ bytes.now) }
    ensures short { OnOk result (length text.new.items ≤ text_limit) }
    ensures fits { OnOk result
        (length text.old.items + length lead.now + length bytes.now ≤ text_limit) }
    ensures err { IfFault result (IsGrowth text.old.items lead.now bytes.now file) }
{
    if bytes.len() > TEXT_LIMIT || text.len() + lead.len() > TEXT_LIMIT - bytes.len() {
        return Err(OrMemory::Fault(SrcFault::Growth {
            place: Place {
                file,
                line: 1,
                column: 0,
            },
        }));
    }
    text.extend_from_slice(lead)?;
    text.extend_from_slice(bytes)?;
    Ok(())
}

// The places of the line feeds.
fn feeds_of(alloc: Global, text: &[u8]) -> Result<Vec<usize>, NoMemory>
    ensures { IfOk result (λ feeds. feeds.items ≡ feeds_of text.now) }
{
    Ok(memchr_iter(b'\n', text).collect(alloc)?)
}
