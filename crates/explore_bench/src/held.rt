// Boards explored by two workers, of which one is held.

use crate::gates::HoldsSecond;
use crate::marks::show_findings;
use anyhow::{Context, Result};
use explore::explore;
use sched_core::Grid;
use statebook::Limits;
use std::alloc::Global;
use std::sync::Wait;
use std::thread::Threads;

/// Explores the board by two workers, of which one is held before its second job until the other takes one. Shows what was found, whether
/// the other worker came, and how many jobs were taken.
pub fn explore_held<R: Threads + Wait + Sync + Print>(
    rt: &R,
    alloc: Global,
    grid: &Grid,
    limits: &Limits,
    lists: bool,
) -> Result<()> {
    let gate = HoldsSecond::new();
    let findings = explore(rt, alloc, grid, limits, 2, &gate)
        .ok()
        .context("memory")?;
    show_findings(rt, &findings, lists)?;
    let came = if gate.was_freed() {
        "came"
    } else {
        "never came"
    };
    println!(rt; "the other worker {came}, {} jobs", gate.calls())?;
    Ok(())
}
