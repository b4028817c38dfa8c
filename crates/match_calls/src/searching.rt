// The searches, level by level of departures.

use crate::dumps::{OpenDump, PairStop, Subject, of_second, open_dump, refused_dump};
use crate::telling::Tried;
use basis::{NoMemory, OrMemory};
use command_line::{DumpWords, MatchWords, Request};
use dump_match::{match_dump, match_dumps};
use match_text::{Refuted, level_words};
use matching::Matching;
use pair_match::{PairFault, PairReference};
use program_base::Stop;
use race_findings::Differing;
use sched_core::setting::Looked;
use search_meter::Meter;
use shown_text::shown_text;
use statebook::Limits;
use vcd_read::VcdFault;
use vmachine::Machine;
use vrace::{Fault, Options};

// The latest time that there is.
const LAST_TIME: u64 = 4_611_686_018_427_387_903;

/// What was found of one dump, and what was read of it meanwhile.
#[derive(Drop)]
pub(crate) struct OneTried<'m> {
    pub reference: OpenDump<'m>,
    pub tried: Tried,
}

/// The same of two as one.
#[derive(Drop)]
pub(crate) struct PairTried<'m> {
    pub pair: PairReference<OpenDump<'m>>,
    pub tried: Tried,
}

// How many bytes a state of the machine takes, as docs/LANGUAGE.md counts them.
fn bytes_of(machine: &Machine) -> u64 {
    let design = machine.design();
    let variables = (design.variables.len() as u64).saturating_mul(24);
    let processes = (design.processes.len() as u64).saturating_mul(88);
    variables.saturating_add(processes).saturating_add(500)
}

// How many states of a slot there may be within the memory.
fn states_within(words: &MatchWords<'_>, machine: &Machine) -> u64 {
    let bytes = words
        .allowance
        .memory
        .unwrap_or(u64::MAX)
        .saturating_mul(1_000_000);
    bytes.checked_div(bytes_of(machine)).unwrap_or(0).max(1)
}

/// By which option the number of states is limited.
pub(crate) fn full_by(words: &MatchWords<'_>, machine: &Machine) -> &'static [u8] {
    if states_within(words, machine) < words.entries {
        b"--memory"
    } else {
        b"--entries"
    }
}

/// The options of a search with so many departures a slot, and so many states.
pub(crate) fn options_of<'a>(
    request: &Request<'a>,
    entries: u64,
    most: u64,
) -> Result<Options<'a>, Fault> {
    let mut options = Options::new(
        request.top.map(|name| name.as_bytes()),
        LAST_TIME,
        most,
        request.steps,
        entries,
        request.grain,
    )?;
    options.look(request.departures, Looked::Values);
    Ok(options)
}

// The limits of a search of one slot with so many departures.
fn limits_of(
    machine: &Machine,
    request: &Request<'_>,
    words: &MatchWords<'_>,
    most: u64,
) -> Result<Limits, Fault> {
    let entries = words.entries.min(states_within(words, machine));
    Ok(options_of(request, entries, most)?.limits)
}

// What is found of a dump with so many departures a slot.
fn try_one<'m>(
    rt: &HostRuntime,
    subject: Subject<'m>,
    request: &Request<'_>,
    words: &MatchWords<'_>,
    dump: DumpWords<'_>,
    most: u64,
    meter: &mut Meter<'_>,
) -> Result<OneTried<'m>, Stop> {
    let limits = limits_of(subject.machine, request, words, most)?;
    let mut reference = open_dump(rt, subject, dump)?;
    match match_dump(rt.alloc(), &mut reference, &limits, meter) {
        Ok(answer) => Ok(OneTried {
            reference,
            tried: Tried {
                answer,
                most,
                beyond: None,
            },
        }),
        Err(fault) => Err(refused_dump(fault)),
    }
}

// `a.vcd: not explained without a departure: at 25 ..`, on standard error; the name where there are two dumps.
fn say_level(
    rt: &HostRuntime,
    machine: &Machine,
    tried: &Tried,
    differing: &[Differing],
    name: &str,
    dump: &str,
) -> Result<(), NoMemory> {
    let Some(time) = tried.refuted_at() else {
        return Ok(());
    };
    let refuted = Refuted {
        design: machine.design(),
        of: name,
        dump,
        most: tried.most(),
        time,
        differing,
        end: tried.end(machine),
    };
    let text = shown_text(rt.alloc(), &level_words(rt.alloc(), &refuted)?)?;
    if let Ok(words) = str::from_utf8(&text) {
        let _ = eprint!(rt; "{words}");
    }
    Ok(())
}

// The name that stands before what is told of a dump, where there are two.
fn name_among<'w>(words: &MatchWords<'_>, dump: DumpWords<'w>) -> &'w str {
    if words.second.is_some() {
        dump.dump
    } else {
        ""
    }
}

// Tells on standard error that no run has the values of the dump with so many departures a slot.
fn tell_one(
    rt: &HostRuntime,
    machine: &Machine,
    one: &OneTried<'_>,
    name: &str,
) -> Result<(), NoMemory> {
    let differing = one.tried.differing(rt.alloc(), &one.reference)?;
    say_level(rt, machine, &one.tried, &differing, name, "the dump")
}

/// What is found of a dump with as few departures a slot as explain it, or with as many as are allowed. Where more are tried it is told at
/// once that fewer aren't enough, and stands if the search is cut then.
pub(crate) fn find_one<'m>(
    rt: &HostRuntime,
    subject: Subject<'m>,
    request: &Request<'_>,
    words: &MatchWords<'_>,
    dump: DumpWords<'_>,
    meter: &mut Meter<'_>,
) -> Result<OneTried<'m>, Stop> {
    meter.set_level(0);
    let mut one = try_one(rt, subject, request, words, dump, 0, meter)?;
    for most in 1..words.slot_depart.saturating_add(1) {
        if !one.tried.is_unexplained() {
            return Ok(one);
        }
        tell_one(rt, subject.machine, &one, name_among(words, dump))?;
        meter.set_level(most);
        let next = try_one(rt, subject, request, words, dump, most, meter)?;
        if let Matching::Cut(cut) = next.tried.answer {
            one.tried.stand(cut);
            return Ok(one);
        }
        one = next;
    }
    Ok(one)
}

// What stops the reading of one of two dumps.
fn refused_pair(fault: OrMemory<PairFault<VcdFault>>) -> PairStop {
    match fault {
        OrMemory::Memory(refused) => PairStop::Other(refused_dump(OrMemory::Memory(refused))),
        OrMemory::Fault(PairFault::First(fault)) => {
            PairStop::Other(refused_dump(OrMemory::Fault(fault)))
        }
        OrMemory::Fault(PairFault::Second(fault)) => of_second(refused_dump(OrMemory::Fault(
            fault,
        ))),
    }
}

// The second dump, of which nothing is shown yet.
fn open_second<'m>(
    rt: &HostRuntime,
    subject: Subject<'m>,
    words: DumpWords<'_>,
) -> Result<OpenDump<'m>, PairStop> {
    match open_dump(rt, subject, words) {
        Ok(dump) => Ok(dump),
        Err(stop) => Err(of_second(stop)),
    }
}

// What is found of two dumps as one with so many departures a slot.
fn try_pair<'m>(
    rt: &HostRuntime,
    subject: Subject<'m>,
    request: &Request<'_>,
    words: &MatchWords<'_>,
    second: DumpWords<'_>,
    most: u64,
    meter: &mut Meter<'_>,
) -> Result<PairTried<'m>, PairStop> {
    let limits = limits_of(subject.machine, request, words, most)?;
    let first_dump = open_dump(rt, subject, words.first)?;
    let second_dump = open_second(rt, subject, second)?;
    let mut pair = PairReference::new(first_dump, second_dump);
    match match_dumps(rt.alloc(), &mut pair, &limits, meter) {
        Ok(answer) => Ok(PairTried {
            pair,
            tried: Tried {
                answer,
                most,
                beyond: None,
            },
        }),
        Err(fault) => Err(refused_pair(fault)),
    }
}

// Tells on standard error that no run has the values of both with so many departures a slot, and what differs from the first dump or, where
// nothing does, from the second.
fn tell_pair(
    rt: &HostRuntime,
    machine: &Machine,
    both: &PairTried<'_>,
    first: &str,
    second: &str,
) -> Result<(), NoMemory> {
    let differing = both.tried.differing(rt.alloc(), &both.pair.first)?;
    if !differing.is_empty() {
        return say_level(rt, machine, &both.tried, &differing, "both", first);
    }
    let differing = both.tried.differing(rt.alloc(), &both.pair.second)?;
    say_level(rt, machine, &both.tried, &differing, "both", second)
}

/// What is found of two dumps as one, level by level as of one.
pub(crate) fn find_pair<'m>(
    rt: &HostRuntime,
    subject: Subject<'m>,
    request: &Request<'_>,
    words: &MatchWords<'_>,
    second: DumpWords<'_>,
    meter: &mut Meter<'_>,
) -> Result<PairTried<'m>, PairStop> {
    let mut both = try_pair(rt, subject, request, words, second, 0, meter)?;
    for most in 1..words.slot_depart.saturating_add(1) {
        if !both.tried.is_unexplained() {
            return Ok(both);
        }
        tell_pair(rt, subject.machine, &both, words.first.dump, second.dump)?;
        meter.set_level(most);
        let next = try_pair(rt, subject, request, words, second, most, meter)?;
        if let Matching::Cut(cut) = next.tried.answer {
            both.tried.stand(cut);
            return Ok(both);
        }
        both = next;
    }
    Ok(both)
}
