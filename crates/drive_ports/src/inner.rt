// The actions of a process.

use basis::NoMemory;
use std::alloc::Global;
use vdesign::action::{Action, Branch, Branches, Places};

/// The places of actions, each once, in the order in which they are come to.
#[derive(Drop)]
pub(crate) struct Found {
    list: Vec<usize>,
    seen: Vec<bool>,
}

impl Found {
    // None of so many.
    fn none(alloc: Global, count: usize) -> Result<Found, NoMemory> {
        let mut seen = Vec::new(alloc);
        seen.resize(count, false)?;
        Ok(Found {
            list: Vec::new(alloc),
            seen,
        })
    }

    // One more.
    fn put(&mut self, place: usize) -> Result<(), NoMemory> {
        if self.seen.get(place) != Some(&false) {
            return Ok(());
        }
        if let Some(seen) = self.seen.get_mut(place) {
            *seen = true;
        }
        self.list.push(place)?;
        Ok(())
    }

    // These.
    fn put_places(&mut self, places: &Places) -> Result<(), NoMemory> {
        for place in places.as_slice() {
            self.put(*place)?;
        }
        Ok(())
    }

    // What two ways lead to.
    fn put_both(&mut self, one: &Places, other: &Places) -> Result<(), NoMemory> {
        self.put_places(one)?;
        self.put_places(other)
    }

    // What a branch leads to.
    fn put_branch(&mut self, branch: &Branch) -> Result<(), NoMemory> {
        self.put_places(&branch.body)
    }

    // What branches lead to, and what comes otherwise.
    fn put_branches(&mut self, branches: &Branches, otherwise: &Places) -> Result<(), NoMemory> {
        for branch in branches.as_slice() {
            self.put_branch(branch)?;
        }
        self.put_places(otherwise)
    }

    // What the action leads to.
    fn put_inner(&mut self, action: &Action) -> Result<(), NoMemory> {
        match action {
            Action::Test {
                when_true,
                otherwise,
                ..
            } => self.put_both(when_true, otherwise),
            Action::Case {
                branches,
                otherwise,
                ..
            } => self.put_branches(branches, otherwise),
            Action::While { body, .. } => self.put_places(body),
            Action::Repeat { body, .. } => self.put_places(body),
            Action::Forever { body } => self.put_places(body),
            Action::Delay { body, .. } => self.put_places(body),
            Action::EventControl { body, .. } => self.put_places(body),
            Action::Wait { body, .. } => self.put_places(body),
            _ => Ok(()),
        }
    }

    // Those that the actions that were found lead to.
    fn close(&mut self, actions: &[Action]) -> Result<(), NoMemory> {
        for at in 0..actions.len() {
            let Some(place) = self.list.get(at).copied() else {
                return Ok(());
            };
            if let Some(action) = actions.get(place) {
                self.put_inner(action)?;
            }
        }
        Ok(())
    }
}

/// The places of all actions of the process that begins so.
pub(crate) fn actions_of(
    alloc: Global,
    actions: &[Action],
    begin: &Places,
) -> Result<Vec<usize>, NoMemory> {
    let mut found = Found::none(alloc, actions.len())?;
    found.put_places(begin)?;
    found.close(actions)?;
    Ok(found.list)
}
