// Differences are put into groups.

ghost use Rattle.std.specs.Prelude.{◌≡◌, ◌<◌, ℕ, IfOk, OnOk, false, length, map, true};
ghost use Rattle.std.specs.List.{Contains};
ghost use Rattle.race_groups.specs.Found.{IsLogOf, logs_of};
ghost use Rattle.race_groups.specs.Inner.{Adds, AreNamedApart, Counts, CountsStill, ExplainsOne, HasCauseAt, HasName, IsDefault};
ghost use Rattle.race_groups.specs.Inner.{IsNamedIn, NoneFits, Widens, group_heads, tracing_of};
ghost use Rattle.race_groups.specs.Tracing.{IsTraced, Tracing};

use crate::causes::{Causes, Placed};
use crate::group::{Group, Name};
use crate::slot_race::SlotRace;
use basis::NoMemory;
use cause::Cause;
use sched_core::Log;
use std::alloc::Global;

// The difference joins the group at the place.
#[tactic(auto, using(crate::proofs::AddsLemmas::told_alike))]
fn follow(groups: &mut Vec<Group>, place: usize, name: Name, names: usize) -> Result<(), NoMemory>
    requires { place < length groups.old.items }
    ensures told { group_heads groups.new.items ≡ group_heads groups.old.items }
    ensures still { CountsStill names groups.old.items groups.new.items }
    ensures counts { OnOk result (Counts names (λ n. name ≡ n) (λ cause n. (name ≡ n) × HasCauseAt groups.old.items place cause)
        groups.old.items groups.new.items) }
{
    let group = &mut groups[place];
    group.follow(name, names)
}

// A group of its own.
#[tactic(auto, using(crate::proofs::AddsLemmas::adds_none, crate::proofs::AddsLemmas::adds_group, crate::proofs::CountLemmas::still_none))]
fn open<R: SlotRace>(
    alloc: Global,
    groups: &mut Vec<Group>,
    cause: Option<Cause>,
    log: &Log,
    race: &R,
) -> Result<(), NoMemory>
    ensures adds { (tracing : Tracing) → IsTraced tracing log.now cause → IsLogOf (R.difference race.now) log.now →
        Adds tracing (λ d. d ≡ R.difference race.now) (group_heads groups.old.items) (group_heads groups.new.items) }
    ensures still { (names : ℕ) → CountsStill names groups.old.items groups.new.items }
    ensures counts { OnOk result ((names : ℕ) → Counts names (HasName (R.difference race.now)) NoneFits
        groups.old.items groups.new.items) }
    ensures widens { OnOk result (Widens (R.difference race.now) groups.old.items groups.new.items) }
{
    let name = race.name();
    groups.push(Group {
        cause,
        log: log.copy()?,
        first: race.whole(alloc)?,
        next: Vec::new(alloc),
        more: 0,
        last: name.time,
    })?;
    Ok(())
}

// The difference, by the log of one side. Where the group isn't new, it is counted there only if it wasn't yet.
#[tactic(auto, using(crate::proofs::AddsLemmas::adds_none, crate::proofs::CountLemmas::still_none))]
fn put_side<R: SlotRace>(
    causes: &mut Causes<'_>,
    groups: &mut Vec<Group>,
    names: usize,
    race: &R,
    log: &Log,
    counted: bool,
) -> Result<(), NoMemory>
    requires log { IsLogOf (R.difference race.now) log.now }
    ensures traced { tracing_of causes.new ≡ tracing_of causes.old }
    ensures adds { Adds (tracing_of causes.old) (λ d. d ≡ R.difference race.now)
        (group_heads groups.old.items) (group_heads groups.new.items) }
    ensures still { CountsStill names groups.old.items groups.new.items }
    ensures counts { OnOk result (counted ≡ false → Counts names (HasName (R.difference race.now))
        (ExplainsOne (tracing_of causes.old) (λ d. d ≡ R.difference race.now)) groups.old.items groups.new.items) }
    ensures widens { OnOk result (counted ≡ true → Widens (R.difference race.now) groups.old.items groups.new.items) }
{
    match causes.place(groups, log)? {
        Placed::With(place) => {
            if counted {
                return Ok(());
            }
            follow(groups, place, race.name(), names)
        }
        Placed::Apart(cause) => open(causes.alloc, groups, cause, log, race),
    }
}

// The same, if the side has departures. Answers whether it is counted.
#[tactic(auto, using(crate::proofs::AddsLemmas::adds_none, crate::proofs::CountLemmas::still_none))]
fn put_departed<R: SlotRace>(
    causes: &mut Causes<'_>,
    groups: &mut Vec<Group>,
    names: usize,
    race: &R,
    side: usize,
    counted: bool,
) -> Result<bool, NoMemory>
    ensures traced { tracing_of causes.new ≡ tracing_of causes.old }
    ensures adds { Adds (tracing_of causes.old) (λ d. d ≡ R.difference race.now)
        (group_heads groups.old.items) (group_heads groups.new.items) }
    ensures still { CountsStill names groups.old.items groups.new.items }
    ensures counts { IfOk result (λ is. is ≡ true → counted ≡ false → Counts names (HasName (R.difference race.now))
        (ExplainsOne (tracing_of causes.old) (λ d. d ≡ R.difference race.now)) groups.old.items groups.new.items) }
    ensures widens { IfOk result (λ is. counted ≡ true → Widens (R.difference race.now) groups.old.items groups.new.items) }
    ensures default { IfOk result (λ is. is ≡ false → (counted ≡ false)
        × IsDefault (logs_of (R.difference race.now)) side × (groups.new.items ≡ groups.old.items)) }
{
    match race.departures_of(side) {
        None => Ok(counted),
        Some(log) => {
            put_side(causes, groups, names, race, log, counted)?;
            Ok(true)
        }
    }
}

// One difference: it counts to the group of its first side that has departures.
fn put<R: SlotRace>(
    causes: &mut Causes<'_>,
    groups: &mut Vec<Group>,
    names: usize,
    race: &R,
) -> Result<(), NoMemory>
    ensures traced { tracing_of causes.new ≡ tracing_of causes.old }
    ensures adds { Adds (tracing_of causes.old) (λ d. d ≡ R.difference race.now)
        (group_heads groups.old.items) (group_heads groups.new.items) }
    ensures still { CountsStill names groups.old.items groups.new.items }
    ensures counts { OnOk result (Counts names (HasName (R.difference race.now))
        (ExplainsOne (tracing_of causes.old) (λ d. d ≡ R.difference race.now)) groups.old.items groups.new.items) }
{
    let mut counted = false;
    for side in 0..race.sides() {
        counted = put_departed(causes, groups, names, race, side, counted)?;
    }
    if counted {
        return Ok(());
    }
    let none = Log::new(causes.alloc);
    put_side(causes, groups, names, race, &none, false)
}

/// Each of these differences.
pub(crate) fn put_all<R: SlotRace>(
    causes: &mut Causes<'_>,
    groups: &mut Vec<Group>,
    names: usize,
    races: &[R],
) -> Result<(), NoMemory>
    ensures traced { tracing_of causes.new ≡ tracing_of causes.old }
    ensures adds { Adds (tracing_of causes.old) (Contains (map R.difference races.now))
        (group_heads groups.old.items) (group_heads groups.new.items) }
    ensures still { CountsStill names groups.old.items groups.new.items }
    ensures counts { OnOk result (AreNamedApart R.difference races.now →
        Counts names (IsNamedIn R.difference races.now (length races.now))
        (ExplainsOne (tracing_of causes.old) (Contains (map R.difference races.now))) groups.old.items groups.new.items) }
{
    for race in races {
        put(causes, groups, names, race)?;
    }
    Ok(())
}
