// What a step gives to the history (IEEE 1364-2005, 11.4, 17.1, 18.1).

ghost use Rattle.std.specs.Prelude.{◌≡◌, ◌++◌, IfOk, OnOk, OnErr, slice_get};
ghost use Rattle.std.specs.Option.{option_to_list};
ghost use Rattle.vmodel.specs.InnerStep.{transition_to};
ghost use Rattle.vmodel.specs.Step as spec;
ghost use Rattle.vmodel.specs.Step.{slot_end_of, items_of, HasFront};
ghost use Rattle.vmodel.specs.Touched.{front_items};

use crate::state::State;
use basis::NoMemory;
use line_text::put_pieces;
use std::alloc::Global;
use vdesign::design::Design;
use vdesign::print::Text;
use vmodel::effect::{Effect, Shown};
use vmodel::history::Item;
use vmodel::pieces_at;

/// For how many bytes a line has room at first, so that it seldom grows.
const LINE_ROOM: usize = 64;

impl State {
    // The line of the print task of this place, as it is printed now (17.1).
    fn line(&self, alloc: Global, design: &Design, place: usize) -> Result<Item, NoMemory>
        ensures { IfOk result (λ item. item ≡ spec.line_item design.now self.now place) }
    {
        let mut bytes = Vec::with_capacity(alloc, LINE_ROOM)?;
        put_pieces(
            &mut bytes,
            pieces_at(design, place),
            &self.environment(design),
        )?;
        Ok(Item::Line(Text::new(bytes)))
    }

    /// The end of the slot, where nothing is active and the run goes on.
    pub fn slot_end(&self, alloc: Global) -> Result<Option<Item>, NoMemory>
        ensures { IfOk result (λ item. option_to_list item ≡ slot_end_of self.now) }
    {
        if self.cause.is_some() || !self.queue.is_idle() {
            return Ok(None);
        }
        Ok(Some(Item::SlotEnd {
            time: self.queue.time,
            values: self.values.copy(alloc)?,
        }))
    }
}

// Puts behind others what a step showed at once; nothing, where memory is short.
fn put_shown(
    items: &mut Vec<Item>,
    design: &Design,
    state: &State,
    shown: Shown,
) -> Result<(), NoMemory>
    ensures ok { OnOk result (items.new.items
        ≡ items.old.items ++ spec.shown_items design.now state.now (Some shown)) }
    ensures err { OnErr result (items.new.items ≡ items.old.items) }
{
    let alloc = *items.allocator();
    let item = match shown {
        Shown::Commands(command) => Item::Dump(command),
        Shown::Prints(place) => state.line(alloc, design, place)?,
        Shown::Watches(place) => Item::Monitor(place),
    };
    items.push(item)?;
    Ok(())
}

// Puts behind others the lines of monitor events, in order (17.1.2); where memory is short, the first of them.
fn put_strobes(
    items: &mut Vec<Item>,
    design: &Design,
    state: &State,
    places: &[usize],
) -> Result<(), NoMemory>
    ensures ok { OnOk result (items.new.items
        ≡ items.old.items ++ spec.strobe_items design.now state.now places.now) }
    ensures front { OnErr result (HasFront items.old.items
        (spec.strobe_items design.now state.now places.now) items.new.items) }
{
    let alloc = *items.allocator();
    for place in places {
        items.push(state.line(alloc, design, *place)?)?;
    }
    Ok(())
}

/// Puts after others what a step gives to the history before the end of the slot, in order: what it showed at once, and where the state
/// after it is a slot end the lines of the monitor events (11.4). Where memory is short, the others still stand, and after them come the
/// first of these at most.
pub fn put_front(
    items: &mut Vec<Item>,
    design: &Design,
    state: &State,
    effect: &Effect,
    monitors: &[usize],
) -> Result<(), NoMemory>
    ensures ok { OnOk result (items.new.items
        ≡ items.old.items ++ front_items design.now (transition_to state.now effect.now monitors.now)) }
    ensures front { OnErr result (HasFront items.old.items
        (front_items design.now (transition_to state.now effect.now monitors.now)) items.new.items) }
{
    if let Some(shown) = effect.shown() {
        put_shown(items, design, state, shown)?;
    }
    if monitors.is_empty() || !state.is_slot_end() {
        return Ok(());
    }
    put_strobes(items, design, state, monitors)
}

/// Puts after others what a step gives to the history, in order: what it showed at once, and where the state after it is a slot end
/// the lines of the monitor events and the slot end. Where memory is short, the others still stand, and after them come the first of
/// these at most.
pub fn put_items(
    items: &mut Vec<Item>,
    design: &Design,
    state: &State,
    effect: &Effect,
    monitors: &[usize],
) -> Result<(), NoMemory>
    ensures ok { OnOk result (items.new.items
        ≡ items.old.items ++ items_of design.now (transition_to state.now effect.now monitors.now)) }
    ensures front { OnErr result (HasFront items.old.items
        (items_of design.now (transition_to state.now effect.now monitors.now)) items.new.items) }
{
    put_front(items, design, state, effect, monitors)?;
    put_slot_end(items, state)
}

/// Puts after others the slot end of a state, where it is one. Where memory is short, the others stand as they were.
pub fn put_slot_end(items: &mut Vec<Item>, state: &State) -> Result<(), NoMemory>
    ensures ok { OnOk result (items.new.items ≡ items.old.items ++ slot_end_of state.now) }
    ensures err { OnErr result (items.new.items ≡ items.old.items) }
{
    let alloc = *items.allocator();
    if let Some(item) = state.slot_end(alloc)? {
        items.push(item)?;
    }
    Ok(())
}
