//! Explores a board of so many squares by 4, or by so many as a third word says, with so many departures at most, so that its
//! instructions can be counted and its answers compared; a fourth and a fifth word limit the steps of a run and the entries.
//! With a sixth word above 0 so many workers explore it, with the word `ranked` `explore_ranked`, with `held` two workers, of which one
//! is held; else `explore_alone`. With a seventh each mark is written with how many departures its log has; an eighth stops a search by
//! rank once so many entries were taken. In go the numbers as words; out come the number of marks and the status, the marks in order, and
//! how far a search by rank came, or whether the worker that isn't held did. Without words nothing is run. No law is claimed.
#![tactic(auto)]

ghost use Rattle.std.specs.Prelude.{◌≤◌};

mod by_rank;
mod gates;
mod held;
mod kept;
mod marks;

use crate::by_rank::explore_by_rank;
use crate::held::explore_held;
use crate::marks::show_findings;
use anyhow::{Context, Result};
use basis::NoMemory;
use explore::{Findings, explore, explore_alone};
use sched_core::{Grid, Square};
use statebook::Limits;
use std::alloc::Global;
use std::env;
use std::sync::Wait;
use std::thread::Threads;
use workpool::OpenGate;

// The number that a word tells, or what stands for a word that is left out.
fn number(words: &[String], place: usize, default: u32) -> Result<u32> {
    match words.get(place) {
        Some(word) => word.parse::<u32>().context("reading a number"),
        None => Ok(default),
    }
}

// What so many workers find, or `explore_alone` where there is none.
fn search<R: Threads + Wait + Sync>(
    rt: &R,
    alloc: Global,
    grid: &Grid,
    limits: &Limits,
    workers: usize,
) -> Result<Findings<Square>, NoMemory>
    requires { workers ≤ 64 }
{
    if workers == 0 {
        return explore_alone(alloc, grid, limits);
    }
    explore(rt, alloc, grid, limits, workers, &OpenGate)
}

// The word that says how the board is searched; none is the empty one.
fn way(words: &[String]) -> &str {
    match words.get(6) {
        Some(word) => word.as_str(),
        None => "",
    }
}

fn main(rt: HostRuntime) -> Result<()> {
    let words = env::args(&rt)?.collect::<Vec<String>>(rt.alloc())?;
    if words.len() < 3 {
        return Ok(());
    }
    let grid = Grid::new(number(&words, 1, 0)?, number(&words, 3, 4)?);
    let depart = number(&words, 2, 0)?;
    let steps = number(&words, 4, 1_000_000)?;
    let entries = number(&words, 5, 1_000_000)?;
    let limits = Limits::new(depart, steps, entries).context("limits")?;
    let lists = words.len() > 7;
    if way(&words) == "ranked" {
        let most = number(&words, 8, u32::MAX)?;
        return explore_by_rank(&rt, rt.alloc(), &grid, &limits, lists, most);
    }
    if way(&words) == "held" {
        return explore_held(&rt, rt.alloc(), &grid, &limits, lists);
    }
    let workers = number(&words, 6, 0)?.min(64);
    let findings = search(&rt, rt.alloc(), &grid, &limits, workers as usize)
        .ok()
        .context("memory")?;
    show_findings(&rt, &findings, lists)?;
    Ok(())
}
