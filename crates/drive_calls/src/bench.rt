// From the words of a call to the testbench.

use crate::comparing::{compare_bench, compared_of};
use crate::module::module_of;
use crate::notes::{ToldUnits, notes};
use crate::reading::{ReadDump, read_dump};
use crate::refused::{between_units, out_of_limit, told};
use crate::scale::{Written, has_timescale};
use crate::stops::stop_of_text;
use basis::{NoMemory, Span, Timescale};
use clap::ArgMatches;
use command_line::{DriveWords, drive_words_of, has_dashed_drive};
use drive_dump::{DrivenModule, Recording};
use drive_text::{Change, Driven, driven_text};
use output_files::{Outputs, Over, are_one};
use program_base::{DASHED, Stop, texts, with_words, write_out};
use race_words::{Piece, put_all};
use std::alloc::Global;
use std::process::ExitCode;
use written_times::{Bounds, Times};

// Said where the testbench would take the place of the dump.
const OVER_DUMP: &str = "the file that is to be written is the dump that is read";

// A length of time, as ` 10ns`.
fn span_text(alloc: Global, span: Span) -> Result<Vec<u8>, NoMemory> {
    let mut text = Vec::new(alloc);
    put_all(
        &mut text,
        &[
            Piece::Number(u64::from(span.count.number())),
            Piece::Bytes(span.unit.name().as_bytes()),
        ],
    )?;
    Ok(text)
}

// The timescale in which the changes are written.
fn scale_of(alloc: Global, read: &ReadDump) -> Result<Timescale, Stop> {
    match read.units.written(&read.recording.changes) {
        Written::Scale(scale) => Ok(scale),
        Written::Between(time) => {
            let count = u64::from(read.units.shown.count.number());
            let shown = read.units.shown.unit.name().as_bytes();
            let unit = span_text(alloc, read.units.scale.unit)?;
            Err(between_units(alloc, time.saturating_mul(count), shown, &unit))
        }
    }
}

// Has times in units of which so many of the others make one.
fn scale_times(changes: &mut [Change], parts: u64) {
    for change in changes {
        change.time = change.time.checked_div(parts).unwrap_or(0);
    }
}

// The time in such units, rounded up.
fn rounded_up(time: u64, parts: u64) -> u64 {
    let rest = time.checked_rem(parts).unwrap_or(0);
    let whole = time.checked_div(parts).unwrap_or(0);
    if rest == 0 {
        whole
    } else {
        whole.saturating_add(1)
    }
}

// What the testbench says, of the module and of what was read.
fn driven_of(
    alloc: Global,
    module: DrivenModule,
    read: ReadDump,
    scale: Timescale,
    dump: &str,
) -> Result<Driven, NoMemory> {
    let ReadDump {
        recording,
        scope,
        units,
        ..
    } = read;
    let Recording {
        mut changes,
        first,
        last,
        ..
    } = recording;
    let parts = units.of_unit(scale);
    scale_times(&mut changes, parts);
    Ok(Driven {
        module: module.name,
        top: module.top,
        instance: module.instance,
        parameters: module.parameters,
        ports: module.ports,
        changes,
        scale,
        first: first.checked_div(parts).unwrap_or(0),
        last: rounded_up(last, parts),
        dump: Vec::from_slice(alloc, dump.as_bytes())?,
        scope,
    })
}

// Writes the testbench to the file, or to standard output.
fn write_text(rt: &HostRuntime, words: &DriveWords<'_>, text: Vec<u8>) -> Result<(), Stop> {
    let Some(name) = words.output else {
        return write_out(rt, &text);
    };
    let mut outputs = Outputs::new(rt.alloc());
    outputs.put(name, Some(text), Over::Any)?;
    outputs.write(rt)?;
    Ok(())
}

// E404 where nothing of the dump is in the window.
fn check_window(alloc: Global, read: &ReadDump, bounds: Bounds) -> Result<(), Stop> {
    let to = bounds.until.saturating_mul(read.units.of_precision());
    if read.recording.first <= to && read.recording.first <= read.recording.last {
        return Ok(());
    }
    Err(out_of_limit(told(
        alloc,
        &[Piece::Bytes(b"the dump has no time between --from and --to\n")],
    )))
}

// Writes the testbench of the module, as it was read.
fn write_bench(
    rt: &HostRuntime,
    texts: &[Vec<u8>],
    words: &DriveWords<'_>,
    module: DrivenModule,
    read: ReadDump,
) -> Result<ExitCode, Stop> {
    let scale = scale_of(rt.alloc(), &read)?;
    let units = ToldUnits {
        shown: read.units.shown,
        longer: scale.unit,
        parts: read.units.of_unit(scale),
    };
    let said = notes(rt.alloc(), &module, &read.columns, &read.recording, units)?;
    let compared = compared_of(rt.alloc(), &module, &read, scale)?;
    let driven = driven_of(rt.alloc(), module, read, scale, words.dump)?;
    let text = match driven_text(rt.alloc(), &driven) {
        Ok(text) => text,
        Err(fault) => return Err(stop_of_text(rt.alloc(), fault)),
    };
    let differing = compare_bench(rt, words, texts, &text, &compared, units)?;
    write_text(rt, words, text)?;
    let _ = eprint!(rt; "{said}{differing}");
    Ok(ExitCode::SUCCESS)
}

// Drives the module of the texts.
fn drive_texts(
    rt: &HostRuntime,
    texts: &[Vec<u8>],
    words: &DriveWords<'_>,
) -> Result<ExitCode, Stop> {
    let bounds = Times::new(words.to, words.from)?.bounds(rt.alloc(), texts)?;
    let mut module = module_of(rt.alloc(), texts, words)?;
    let free = !has_timescale(rt.alloc(), texts, module.scale)?;
    let read = read_dump(rt, &mut module, words, bounds, free)?;
    check_window(rt.alloc(), &read, bounds)?;
    write_bench(rt, texts, words, module, read)
}

// Refuses a file that is to be written and can't be, or is one of those that are read.
fn look_at_output(rt: &HostRuntime, words: &DriveWords<'_>) -> Result<(), Stop> {
    let Some(name) = words.output else {
        return Ok(());
    };
    if are_one(rt, name, words.dump) {
        return Err(Stop::Usage(OVER_DUMP));
    }
    let mut outputs = Outputs::new(rt.alloc());
    outputs.put(name, None, Over::OwnDumps)?;
    outputs.look(rt, &words.files)?;
    outputs.try_all(rt)?;
    Ok(())
}

/// Writes the testbench that the words ask for, to standard output or to a file, and what is to be known of it to standard error.
pub fn drive_by<'a>(rt: &HostRuntime, matches: &ArgMatches<'a>) -> Result<ExitCode, Stop> {
    if has_dashed_drive(matches) {
        return Err(Stop::Usage(DASHED));
    }
    let words = drive_words_of(rt.alloc(), matches)?;
    look_at_output(rt, &words)?;
    let texts = texts(rt, &words.files)?;
    let done = drive_texts(rt, &texts, &words);
    with_words(
        rt.alloc(),
        done,
        true,
        &words.files,
        &texts,
        words.top.as_slice(),
    )
}
