// What is told of a search, put together.

use crate::dumps::OpenDump;
use crate::searching::full_by;
use crate::telling::Tried;
use basis::NoMemory;
use command_line::{MatchWords, Request};
use finding_text::Sources;
use match_text::{Departure, Found};
use matching::Reference;
use race_facts::{answer_of, compared_of, cut_of, setting_of};
use race_findings::{Differing, Setting};
use sched_core::end::End;
use std::alloc::Global;
use vmachine::Machine;
use vrace::Spent;

/// What all that is told in one call shares.
#[derive(Clone, Copy)]
pub(crate) struct Scene<'a> {
    pub setting: Setting<'a>,
    pub sources: &'a Sources<'a>,
    pub is_top_named: bool,
    pub stopped_by: &'static [u8],
    pub full_by: &'static [u8],
}

/// The departures of a run that has the values of a dump; what differs in the nearest one, and where that has ended.
#[derive(Drop)]
pub(crate) struct Facts {
    pub departures: Vec<Departure>,
    pub differing: Vec<Differing>,
    pub end: Option<End>,
}

// By which option the search was stopped, where it was.
fn stopped_by(spent: Spent) -> &'static [u8] {
    match spent {
        Spent::Time => b"--seconds",
        Spent::Memory => b"--memory",
    }
}

/// What is shared, where a search that was stopped has spent this.
pub(crate) fn scene_of<'a>(
    machine: &'a Machine,
    sources: &'a Sources<'a>,
    request: &Request<'_>,
    words: &MatchWords<'_>,
    spent: Spent,
) -> Scene<'a> {
    Scene {
        setting: setting_of(machine),
        sources,
        is_top_named: request.top.is_some(),
        stopped_by: stopped_by(spent),
        full_by: full_by(words, machine),
    }
}

/// What there is to tell of what was found.
pub(crate) fn facts_of(
    alloc: Global,
    machine: &Machine,
    tried: &Tried,
    reference: &OpenDump<'_>,
) -> Result<Facts, NoMemory> {
    Ok(Facts {
        departures: tried.departures(alloc, machine)?,
        differing: tried.differing(alloc, reference)?,
        end: tried.end(machine),
    })
}

/// What is told of a dump that was read up to this time.
pub(crate) fn found_of<'a>(
    scene: Scene<'a>,
    dump: &'a str,
    reference: &'a OpenDump<'a>,
    tried: &'a Tried,
    facts: &'a Facts,
    last: u64,
) -> Found<'a> {
    Found {
        setting: scene.setting,
        sources: scene.sources,
        dump,
        compared: compared_of(reference.comparison()),
        most: tried.most(),
        last,
        answer: answer_of(&tried.answer),
        beyond: cut_of(tried.beyond),
        departures: &facts.departures,
        differing: &facts.differing,
        end: facts.end,
        told: reference.compared_count(),
        is_read: reference.next_time().is_none(),
        is_top_named: scene.is_top_named,
        stopped_by: scene.stopped_by,
        full_by: scene.full_by,
    }
}
