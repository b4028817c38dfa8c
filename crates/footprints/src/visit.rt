// The visits of a slot, and which `<=` posted an update.

ghost use Rattle.std.specs.Prelude.{◌≡◌, ◌∷◌, ◌++◌, ◌+◌, ◌≤◌, ◌<◌, [], ℕ, nat_lt, suc, map, slice_get, is_some, length, option_map, if◌then◌else◌, take, IfOk, IfSome, IfNone, OnOk, Some, None};
ghost use Rattle.vmodel.specs.Effects.{Effect};
ghost use Rattle.vmodel.specs.State.{State};
ghost use Rattle.vmodel.specs.Step.{Transition};
ghost use Rattle.footprints.specs.Numbered.{AreNumbered};
ghost use Rattle.footprints.specs.Keeping as keeping;
ghost use Rattle.footprints.specs.Footprints as footprints;
ghost use Rattle.footprints.specs.Visits as spec;
ghost use Rattle.std.specs.Option.{option_to_list};

use crate::footprint::{Footprint, put_changed, put_ended, put_while_it_goes, reads_at};
use crate::thing::{Thing, Things};
use crate::wait::{News, Standing, begun_by, put_read_by_wait, put_woken, standing_on};
use basis::NoMemory;
use plain_steps::State;
use std::alloc::Global;
use std::marker::Model;
use vbits::Vec4;
use vdesign::action::Action;
use vdesign::design::Design;
use vmodel::choice::Choice;
use vmodel::effect::{Effect, Post};
use vmodel::part::Kept;

/// Who makes a visit.
#[derive(Clone, Copy, PartialEq, Eq)]
pub enum Actor {
    /// The process of this number.
    Process(u32),
    /// An update that the `<=` at this place of the design's table posted.
    UpdateOf(usize),
}

/// A visit: the step that it is, who makes it, how many visits of his came before it, the place of its action, and what it reads and
/// changes.
#[derive(Drop)]
pub struct Visit {
    pub step: u32,
    pub actor: Actor,
    pub number: usize,
    pub place: usize,
    pub footprint: Footprint,
}

/// An update that was posted: when, for how much later, and by the `<=` at which place.
#[derive(Drop)]
pub struct Posted {
    pub at: u64,
    pub after: u128,
    pub place: usize,
}

/// What was seen of a run. A clause sees it as the record `Seen` of specs/Visits.antt.
#[derive(Drop)]
pub struct Seen {
    posted: Vec<Posted>,
    updates: usize,
    visits: Vec<Visit>,
    waits: Vec<Standing>,
}

impl Model for Seen {
    ghost use Rattle.footprints.specs.Visits as seen;

    ghost Value = { seen.Seen };

    ghost view = { λ s. record { posted = s.posted.items; updates = s.updates; visits = s.visits.items; waits = s.waits.items } };

    ghost use Rattle.footprints.specs.Numbered.{AreNumbered};

    ghost invariant = { λ s. AreNumbered s.visits.items };
}

// Whether two are the same.
fn is_same_actor(one: Actor, other: Actor) -> bool
    ensures { result ≡ spec.same_actor one other }
{
    match (one, other) {
        (Actor::Process(process), Actor::Process(same)) => process == same,
        (Actor::UpdateOf(place), Actor::UpdateOf(same)) => place == same,
        _ => false,
    }
}

/// Whether two visits, of two runs, are the same: by the same actor, after as many others of it.
pub fn is_same_visit(one: &Visit, other: &Visit) -> bool
    ensures { result ≡ spec.same_visit one.now other.now }
{
    is_same_actor(one.actor, other.actor) && one.number == other.number
}

// What the number of the actor's next visit is behind visit k, where he made that.
#[tactic(auto, using(crate::proofs::NumberLemmas::none_there))]
fn number_behind(actor: Actor, visits: &[Visit], k: usize) -> Option<usize>
    requires numbered { AreNumbered visits.now }
    requires few { length visits.now < 18446744073709551616 }
    ensures some { IfSome result (λ n. n ≡ spec.visits_by actor (take (k + 1) visits.now)) }
    ensures none { IfNone result (spec.visits_by actor (take (k + 1) visits.now) ≡ spec.visits_by actor (take k visits.now)) }
{
    match visits.get(k) {
        None => None,
        Some(visit) => {
            if is_same_actor(actor, visit.actor) {
                Some(visit.number + 1)
            } else {
                None
            }
        }
    }
}

// How many of these visits an actor made: one more than the number of his last.
fn visits_by(actor: Actor, visits: &[Visit]) -> usize
    requires { AreNumbered visits.now }
    ensures { result ≡ spec.visits_by actor visits.now }
{
    let mut k = visits.len();
    while k > 0 {
        k -= 1;
        match number_behind(actor, visits, k) {
            None => {}
            Some(number) => return number,
        }
    }
    0
}

// Whether an update is due at a time.
fn is_due(posted: &Posted, time: u64) -> bool
    ensures { result ≡ spec.is_due time posted.now }
{
    time >= posted.at && (time - posted.at) as u128 == posted.after
}

// The place of the one that is due at a time behind so many others.
fn due_at(posted: &[Posted], time: u64, others: usize) -> Option<usize>
    ensures { result ≡ slice_get (spec.due_at time posted.now) others }
{
    let mut left = others;
    for post in posted {
        if is_due(post, time) {
            if left == 0 {
                return Some(post.place);
            }
            left -= 1;
        }
    }
    None
}

// Whether an update is due before a time.
fn is_past(posted: &Posted, time: u64) -> bool
    ensures { result ≡ nat_lt (posted.now.at + posted.now.after) time }
{
    time > posted.at && (time - posted.at) as u128 > posted.after
}

impl Posted {
    // The same.
    fn copy(&self) -> Posted
        ensures { result ≡ self.now }
    {
        Posted {
            at: self.at,
            after: self.after,
            place: self.place,
        }
    }
}

// Those that are due at a time or later.
fn due_from(alloc: Global, posted: &[Posted], time: u64) -> Result<Vec<Posted>, NoMemory>
    ensures { IfOk result (λ kept. kept.items ≡ keeping.due_from time posted.now) }
{
    let mut kept = Vec::new(alloc);
    for post in posted {
        if !is_past(post, time) {
            kept.push(post.copy())?;
        }
    }
    Ok(kept)
}

fn copy_posted(alloc: Global, posted: &[Posted]) -> Result<Vec<Posted>, NoMemory>
    ensures { IfOk result (λ copied. copied.items ≡ posted.now) }
{
    let mut copied = Vec::new(alloc);
    for post in posted {
        copied.push(post.copy())?;
    }
    Ok(copied)
}

// Who makes a step of a choice.
fn actor_of(choice: Choice, place: usize) -> Actor
    ensures { result ≡ spec.actor_of choice place }
{
    match choice {
        Choice::Run(process) => Actor::Process(process),
        Choice::Update => Actor::UpdateOf(place),
        Choice::Advance => Actor::UpdateOf(place),
    }
}

// The variables that a step changes.
fn changed_by(alloc: Global, news: &News<'_>, effect: &Effect) -> Result<Vec<Thing>, NoMemory>
    ensures { IfOk result (λ changed. changed.items ≡ footprints.changed_by news.now.before news.now.after effect.now.wrote) }
{
    let mut changed = Vec::new(alloc);
    match effect.wrote() {
        Kept::One(part) => put_changed(&mut changed, news.before, news.after, &[part])?,
        Kept::Many(parts) => put_changed(&mut changed, news.before, news.after, parts)?,
    }
    Ok(changed)
}

// What a step of a choice evaluates.
fn evaluated_by(
    alloc: Global,
    design: &Design,
    choice: Choice,
    place: usize,
    effect: &Effect,
) -> Result<Things, NoMemory>
    ensures { IfOk result (λ things. things ≡ spec.evaluated_by design.now choice place effect.now) }
{
    match choice {
        Choice::Run(_) => reads_at(alloc, &design.actions, place, effect.held().is_some()),
        Choice::Update => Ok(Things::none(alloc)),
        Choice::Advance => Ok(Things::none(alloc)),
    }
}

// What a step of a choice reads and changes, which begins this wait.
fn footprint_by(
    alloc: Global,
    design: &Design,
    choice: Choice,
    place: usize,
    news: &News<'_>,
    effect: &Effect,
    begun: Option<Standing>,
    waits: &[Standing],
) -> Result<Footprint, NoMemory>
    ensures { IfOk result (λ found. found ≡ spec.footprint_by design.now choice place news.now effect.now begun waits.now) }
{
    let mut changes = changed_by(alloc, news, effect)?;
    let mut reads = evaluated_by(alloc, design, choice, place, effect)?.into_list();
    put_read_by_wait(&mut reads, &design.actions, begun)?;
    put_while_it_goes(&mut reads, &changes)?;
    put_woken(&mut changes, &design.actions, news, waits)?;
    put_ended(&mut changes, effect.cause())?;
    Ok(Footprint {
        reads: Things::new(reads),
        changes: Things::new(changes),
    })
}

// The waits that stand after a step that begins this one.
fn with_waits(
    alloc: Global,
    actions: &[Action],
    news: &News<'_>,
    begun: Option<Standing>,
    waits: &[Standing],
) -> Result<Vec<Standing>, NoMemory>
    ensures { IfOk result (λ left. left.items
        ≡ spec.standing_on actions.now news.now waits.now ++ option_to_list begun) }
{
    let mut left = standing_on(alloc, actions, news, waits)?;
    match begun {
        None => {}
        Some(wait) => left.push(wait)?,
    }
    Ok(left)
}

// The visit of a step, and the waits that stand after it.
#[tactic(auto, using(crate::proofs::NumberLemmas::numbered_on))]
fn put_visit(
    alloc: Global,
    visits: &mut Vec<Visit>,
    waits: &mut Vec<Standing>,
    design: &Design,
    step: u32,
    choice: Choice,
    place: Option<usize>,
    news: &News<'_>,
    left: Option<usize>,
    effect: &Effect,
) -> Result<(), NoMemory>
    requires { AreNumbered visits.old.items }
    ensures ok { OnOk result (visits.new.items
        ≡ spec.with_visit design.now step choice place news.now left effect.now waits.old.items visits.old.items) }
    ensures waits { OnOk result (waits.new.items
        ≡ spec.with_waits design.now choice place news.now left effect.now visits.old.items waits.old.items) }
    ensures numbered { AreNumbered visits.new.items }
{
    let Some(place) = place else {
        return Ok(());
    };
    let actor = actor_of(choice, place);
    let number = visits_by(actor, visits);
    let begun = begun_by(
        &design.actions,
        choice,
        place,
        number,
        effect.disposition(),
        left,
    );
    let footprint = footprint_by(alloc, design, choice, place, news, effect, begun, waits)?;
    let standing = with_waits(alloc, &design.actions, news, begun, waits)?;
    visits.push(Visit {
        step,
        actor,
        number,
        place,
        footprint,
    })?;
    *waits = standing;
    Ok(())
}

// The update that a step posts, by the action at a place.
fn put_posted(
    list: &mut Vec<Posted>,
    time: u64,
    place: Option<usize>,
    posted: Option<&Post>,
) -> Result<(), NoMemory>
    ensures { OnOk result (list.new.items ≡ list.old.items
        ++ spec.posted_by time place (option_map (λ post. post.now) posted.entry)) }
{
    let Some(place) = place else {
        return Ok(());
    };
    match posted {
        None => Ok(()),
        Some(post) => {
            list.push(Posted {
                at: time,
                after: post.after,
                place,
            })?;
            Ok(())
        }
    }
}

// How many updates the slot has written.
fn updates_after(choice: Choice, updates: usize) -> usize
    requires { updates + 1 < 18446744073709551616 }
    ensures { result ≡ spec.updates_after choice updates }
{
    match choice {
        Choice::Run(_) => updates,
        Choice::Update => updates + 1,
        Choice::Advance => 0,
    }
}

/// The place of the action that a process comes to.
pub fn acting_place(state: &State, choice: Choice) -> Option<usize>
    ensures { result ≡ spec.acting_place state.now choice }
{
    match choice {
        Choice::Run(process) => state.place_of(process),
        Choice::Update => None,
        Choice::Advance => None,
    }
}

impl Seen {
    /// Nothing.
    pub fn nothing(alloc: Global) -> Seen
        ensures { result ≡ spec.nothing_seen }
    {
        Seen {
            posted: Vec::new(alloc),
            updates: 0,
            visits: Vec::new(alloc),
            waits: Vec::new(alloc),
        }
    }

    /// The same, but for the visits and their waits, of which it has none.
    pub fn copy(&self, alloc: Global) -> Result<Seen, NoMemory>
        ensures { IfOk result (λ seen. seen ≡ record self.now { visits = []; waits = [] }) }
    {
        Ok(Seen {
            posted: copy_posted(alloc, &self.posted)?,
            updates: self.updates,
            visits: Vec::new(alloc),
            waits: Vec::new(alloc),
        })
    }

    /// Of the updates that were posted those stay that are due at a time or later.
    pub fn forget_before(&mut self, alloc: Global, time: u64) -> Result<(), NoMemory>
        ensures { OnOk result (self.new ≡ record self.old { posted = keeping.due_from time self.old.posted }) }
    {
        self.posted = due_from(alloc, &self.posted, time)?;
        Ok(())
    }

    /// Of the visits and their waits none stays.
    pub fn forget_visits(&mut self, alloc: Global)
        ensures { self.new ≡ record self.old { visits = []; waits = [] } }
    {
        self.visits = Vec::new(alloc);
        self.waits = Vec::new(alloc);
    }

    /// The visits, and the rest without their waits.
    pub fn apart(self, alloc: Global) -> (Vec<Visit>, Seen)
        ensures visits { result.0.items ≡ self.visits }
        ensures rest { result.1 ≡ record self { visits = []; waits = [] } }
    {
        let Seen {
            posted,
            updates,
            visits,
            waits: _,
        } = self;
        (
            visits,
            Seen {
                posted,
                updates,
                visits: Vec::new(alloc),
                waits: Vec::new(alloc),
            },
        )
    }

    /// The visits.
    pub fn into_visits(self) -> Vec<Visit>
        ensures { result.items ≡ self.visits }
    {
        self.visits
    }

    // The place of the action that a step of a choice is of.
    fn place_by(&self, state: &State, choice: Choice) -> Option<usize>
        ensures { result ≡ spec.place_by state.now self.now choice }
    {
        match choice {
            Choice::Run(process) => state.place_of(process),
            Choice::Update => due_at(&self.posted, state.time(), self.updates),
            Choice::Advance => None,
        }
    }

    /// The same, from step `from` on: who posted an update isn't asked before.
    pub fn place_from(&self, state: &State, choice: Choice, from: u32, step: u32) -> Option<usize>
        ensures { from ≤ step → result ≡ spec.place_by state.now self.now choice }
    {
        if step < from {
            None
        } else {
            self.place_by(state, choice)
        }
    }

    /// One more step: at this time, of these places, with this effect, from these values on to a state. Visits are put from step `from` on.
    pub fn put(
        &mut self,
        alloc: Global,
        design: &Design,
        from: u32,
        step: u32,
        time: u64,
        choice: Choice,
        acting: Option<usize>,
        place: Option<usize>,
        before: &[Vec4],
        after: &State,
        effect: &Effect,
    ) -> Result<(), NoMemory>
        requires few { self.old.updates ≤ step }
        ensures seen { (state : State) (taken : Transition) → time ≡ state.queue.time → acting ≡ spec.acting_place state choice →
            (from ≤ step → place ≡ spec.place_by state self.old choice) → (from ≤ step → before.now ≡ state.values) →
            after.now ≡ taken.state → effect.now ≡ taken.effect →
            OnOk result (self.new ≡ spec.seen_by design.now from step state choice taken self.old) }
        ensures few { OnOk result (self.new.updates ≤ step + 1) }
    {
        put_posted(&mut self.posted, time, acting, effect.posted())?;
        self.updates = updates_after(choice, self.updates);
        if step >= from {
            let news = News {
                before,
                after: after.values(),
                triggered: effect.triggered(),
            };
            let left = acting_place(after, choice);
            put_visit(
                alloc,
                &mut self.visits,
                &mut self.waits,
                design,
                step,
                choice,
                place,
                &news,
                left,
                effect,
            )?;
        }
        Ok(())
    }
}
