// The variables of a dump that are followed for the inputs of a module.

ghost use Rattle.vcd_slots.specs.Following.{IsFresh, IsSound};

use crate::dump::OpenDump;
use basis::NoMemory;
use std::alloc::Global;
use vbits::Vec4;
use vcd_read::VcdVariable;
use vcd_slots::Columns;

/// Columns of a dump of which nothing is read yet.
pub struct Watched {
    columns: Columns,
    ghost sound: { IsSound columns },
    ghost fresh: { IsFresh columns },
}

impl Drop for Watched {
    fn drop(self) {
        let Watched { columns: _ } = self;
    }
}

impl Watched {
    /// None.
    pub fn none(alloc: Global) -> Watched {
        Watched {
            columns: Columns::new(alloc),
        }
    }

    // With one more, if the variable can be followed.
    fn with(
        self,
        alloc: Global,
        variable: &VcdVariable,
    ) -> Result<(Watched, Option<usize>), NoMemory> {
        let Watched { mut columns } = self;
        let place = columns.watch(alloc, variable)?;
        Ok((Watched { columns }, place))
    }

    /// The columns.
    pub fn into_columns(self) -> Columns
        ensures sound { IsSound result }
        ensures fresh { IsFresh result }
    {
        let Watched { columns } = self;
        columns
    }
}

/// The columns of an input: one of its whole width, or one for each of its bits, the leftmost first; none where the dump doesn't have it.
#[derive(Drop)]
pub struct InputColumns {
    list: Vec<usize>,
}

// Two values joined, if they have at most 64 bits together.
fn joined(left: Vec4, right: Vec4) -> Option<Vec4> {
    if left.len() + right.len() > 64 {
        return None;
    }
    Some(left.concat(right))
}

impl InputColumns {
    /// Those of the variables at these places, which are followed.
    pub fn of(
        alloc: Global,
        watched: Watched,
        variables: &[VcdVariable],
        places: &[usize],
    ) -> Result<(Watched, InputColumns), NoMemory> {
        let mut list = Vec::new(alloc);
        let mut watched = watched;
        for place in places {
            if let Some(variable) = variables.get(*place) {
                let (next, column) = watched.with(alloc, variable)?;
                watched = next;
                if let Some(column) = column {
                    list.push(column)?;
                }
            }
        }
        Ok((watched, InputColumns { list }))
    }

    /// Whether the dump has the input.
    pub fn are_some(&self) -> bool {
        !self.list.is_empty()
    }

    /// What the input is worth in what is shown, if that is known.
    pub fn value(&self, dump: &OpenDump) -> Option<Vec4> {
        let (first, rest) = self.list.split_first()?;
        let mut value = dump.value(*first)?;
        for column in rest {
            value = joined(value, dump.value(*column)?)?;
        }
        Some(value)
    }
}
