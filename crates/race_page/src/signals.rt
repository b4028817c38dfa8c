// Which variables are shown of a race.

use basis::NoMemory;
use race_findings::{Aspect, Finding, Touched};
use run_pair::Runs;
use std::alloc::Global;

/// How many variables are shown of a race at most.
pub(crate) const MOST: usize = 24;

/// The variables that are shown, by number, and how many that differ are left out.
#[derive(Drop)]
pub(crate) struct Signals {
    pub(crate) shown: Vec<usize>,
    pub(crate) left_out: u64,
}

impl Signals {
    // One variable more, if it isn't there; where there are enough, it is left out.
    fn put(&mut self, variable: usize) -> Result<(), NoMemory> {
        if self.shown.contains(&variable) {
            return Ok(());
        }
        if self.shown.len() < MOST {
            self.shown.push(variable)?;
        } else {
            self.left_out = self.left_out.saturating_add(1);
        }
        Ok(())
    }

    // The variable that the race is told of, if it is told of one.
    fn put_first(&mut self, aspect: &Aspect) -> Result<(), NoMemory> {
        match aspect {
            Aspect::Variable(number) => self.put(*number),
            Aspect::Lines => Ok(()),
            Aspect::Ends(_) => Ok(()),
        }
    }

    // What both statements touch.
    fn put_touched(&mut self, touched: &[Touched]) -> Result<(), NoMemory> {
        for thing in touched {
            if let Touched::Variable(number) = thing {
                self.put(*number)?;
            }
        }
        Ok(())
    }
}

/// The variable that the race is told of, what both statements touch, and then each variable that differs at one of the times.
pub(crate) fn signals_of(
    alloc: Global,
    finding: &Finding,
    runs: &Runs,
    variables: usize,
) -> Result<Signals, NoMemory> {
    let mut signals = Signals {
        shown: Vec::new(alloc),
        left_out: 0,
    };
    signals.put_first(&finding.first.aspect)?;
    if let Some(earliest) = &finding.earliest {
        signals.put_first(&earliest.aspect)?;
    }
    if let Some(statements) = &finding.statements {
        signals.put_touched(&statements.touched)?;
    }
    for variable in 0..variables {
        if runs.differs_somewhere(variable) {
            signals.put(variable)?;
        }
    }
    Ok(signals)
}
