// What a comparison of runs with a dump found, as plain data.

use crate::reach::cut_by;
use basis::NoMemory;
use dump_match::{Comparison, Differing as Found};
use matching::{Cut, Explanation, Matching};
use race_findings::{Compared, Differing, FoundRun, MatchAnswer, SearchCut};
use std::alloc::Global;
use vmachine::MachineState;

/// What of the dump was compared.
pub fn compared_of(comparison: &Comparison) -> Compared<'_> {
    Compared {
        variables: comparison.pairs.len(),
        only_in_dump: &comparison.only_in_dump,
        only_in_files: &comparison.only_in_files,
        of_other_width: &comparison.of_other_width,
        repeated: &comparison.repeated,
        left_out: comparison.left_out.as_deref(),
    }
}

// By what the search was cut, and how far it came.
fn search_cut(cut: Cut) -> SearchCut {
    SearchCut {
        by: cut_by(cut.reason),
        closed: cut.closed,
    }
}

/// By what a search was cut, and how far it came, if it was cut.
pub fn cut_of(cut: Option<Cut>) -> Option<SearchCut> {
    match cut {
        None => None,
        Some(cut) => Some(search_cut(cut)),
    }
}

// The run that was found.
fn run_of(found: &Explanation<MachineState>) -> FoundRun<'_> {
    FoundRun {
        log: &found.log,
        steps: found.steps,
    }
}

// The run that differs least, if there is one.
fn nearest_of(found: &Option<Explanation<MachineState>>) -> Option<FoundRun<'_>> {
    match found {
        None => None,
        Some(found) => Some(run_of(found)),
    }
}

/// What was found.
pub fn answer_of(found: &Matching<MachineState>) -> MatchAnswer<'_> {
    match found {
        Matching::Explained(run) => MatchAnswer::Explained(run_of(run)),
        Matching::Unexplained(answer) => {
            MatchAnswer::Unexplained(answer.time, nearest_of(&answer.nearest))
        }
        Matching::Cut(cut) => MatchAnswer::Cut(search_cut(*cut)),
    }
}

/// What differs.
pub fn differing_of(alloc: Global, found: &[Found]) -> Result<Vec<Differing>, NoMemory> {
    let mut differing = Vec::new(alloc);
    for variable in found {
        differing.push(Differing {
            variable: variable.variable,
            told: variable.told,
            value: variable.value,
        })?;
    }
    Ok(differing)
}
