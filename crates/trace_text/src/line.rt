// The lines of a trace, word by word.

ghost use Rattle.value_text.specs.ValueText.{binary};
ghost use Rattle.std.specs.Prelude.{◌≡◌, ◌++◌, ◌∷◌, ◌<◌, ◌≤◌, List, ℕ, [], Some, None, length, slice_get, cond, codes, decimal, option_map, IfOk, IfSome, IfNone, OnOk};
ghost use Rattle.vmodel.specs.Choices.{choices};
ghost use Rattle.std.specs.Option.{option_to_list};
ghost use Rattle.vcd_text.specs.DumpText.{line};
ghost use Rattle.vmodel.specs.InnerStep.{continuation_in};
ghost use Rattle.vmodel.specs.Step.{next};
ghost use Rattle.trace_text.specs.Traces as spec;

use basis::NoMemory;
use itoa::Buffer;
use plain_steps::State;
use sched_core::end::{Cause, End};
use std::alloc::Global;
use std::marker::Model;
use value_text::put_binary;
use vbits::Vec4;
use vdesign::design::Design;
use vdesign::dump::DumpCommand;
use vmodel::choice::Choice;
use vmodel::effect::{Disposition, Effect, Post, Shown};
use vmodel::part::{Kept, Part, Parts};
use vmodel::process_set::ProcessSet;
use vmodel::values::value_after;
use vsrc::Place;

/// Where the statement of each action of a design begins, by its place in the design's table. A clause sees the list.
pub struct Origins {
    places: Vec<Option<Place>>,
}

impl Drop for Origins {
    fn drop(self) {
        let Origins { places: _ } = self;
    }
}

impl Model for Origins {
    ghost use Rattle.std.specs.Prelude.{List, Option};
    ghost use Rattle.vsrc.specs.declared.expanded.Place.{Place};

    ghost Value = { List (Option Place) };

    ghost view = { λ origins. origins.places.items };
}

impl Origins {
    /// These places, none where one isn't known.
    pub fn new(places: Vec<Option<Place>>) -> Origins
        ensures { result ≡ places.items }
    {
        Origins { places }
    }

    /// The place of the action of this number, if it is known.
    pub fn place(&self, action: usize) -> Option<Place>
        ensures { result ≡ spec.known_place (slice_get self.now action) }
    {
        match self.places.get(action) {
            None => None,
            Some(place) => *place,
        }
    }

    // The place of the action that a process comes to first, if it is known.
    fn first(&self, state: &State, process: u32) -> Option<Place>
        ensures { result ≡ spec.first_origin self.now (continuation_in state.now.processes process) }
    {
        match state.place_of(process) {
            None => None,
            Some(action) => self.place(action),
        }
    }

    // The same of a choice, which may be of no process.
    fn origin(&self, state: &State, choice: Choice) -> Option<Place>
        ensures { result ≡ spec.origin_of self.now state.now choice }
    {
        match choice {
            Choice::Run(process) => self.first(state, process),
            Choice::Update => None,
            Choice::Advance => None,
        }
    }
}

fn put_number(text: &mut Vec<u8>, n: u64) -> Result<(), NoMemory>
    ensures { OnOk result (text.new.items ≡ text.old.items ++ decimal n) }
{
    let mut buffer = Buffer::new();
    text.extend_from_slice(buffer.format(n).as_bytes())?;
    Ok(())
}

// A word, and a number behind it.
fn put_counted(text: &mut Vec<u8>, word: &[u8], n: u64) -> Result<(), NoMemory>
    ensures { OnOk result (text.new.items ≡ text.old.items ++ spec.word_and_number word.now n) }
{
    text.extend_from_slice(word)?;
    put_number(text, n)
}

// ` delay D`, in units of the precision.
fn put_delay(text: &mut Vec<u8>, amount: u128) -> Result<(), NoMemory>
    ensures { OnOk result (text.new.items ≡ text.old.items ++ spec.word_and_number (codes " delay ") amount) }
{
    let mut digits = Buffer::new();
    text.extend_from_slice(b" delay ")?;
    text.extend_from_slice(digits.format(amount).as_bytes())?;
    Ok(())
}

// ` at F:L`, where the place is known.
fn put_place(text: &mut Vec<u8>, place: Option<Place>) -> Result<(), NoMemory>
    ensures { OnOk result (text.new.items ≡ text.old.items ++ spec.place_text place) }
{
    match place {
        None => Ok(()),
        Some(place) => {
            put_counted(text, b" at ", place.file as u64)?;
            put_counted(text, b":", place.line as u64)
        }
    }
}

// Who takes the step.
fn put_choice(text: &mut Vec<u8>, choice: Choice, place: Option<Place>) -> Result<(), NoMemory>
    ensures { OnOk result (text.new.items ≡ text.old.items ++ spec.choice_text choice place) }
{
    match choice {
        Choice::Run(process) => {
            put_counted(text, b" process ", process as u64)?;
            put_place(text, place)
        }
        Choice::Update => {
            text.extend_from_slice(b" update")?;
            Ok(())
        }
        Choice::Advance => Ok(()),
    }
}

// ` P`, if there is such a process.
fn put_process(text: &mut Vec<u8>, process: Option<u32>) -> Result<(), NoMemory>
    ensures { OnOk result (text.new.items
        ≡ text.old.items ++ spec.numbers_text (option_to_list process)) }
{
    match process {
        None => Ok(()),
        Some(process) => put_counted(text, b" ", process as u64),
    }
}

// ` P ..`, the members of a set.
fn put_members(text: &mut Vec<u8>, set: &ProcessSet) -> Result<(), NoMemory>
    ensures { OnOk result (text.new.items ≡ text.old.items ++ spec.numbers_text set.now) }
{
    for i in 0..set.len() {
        put_process(text, set.get(i))?;
    }
    Ok(())
}

// ` holding P ..`, where the choice holds anybody back.
fn put_held(text: &mut Vec<u8>, held: &ProcessSet) -> Result<(), NoMemory>
    ensures { OnOk result (text.new.items ≡ text.old.items ++ spec.held_text held.now) }
{
    if held.is_empty() {
        return Ok(());
    }
    text.extend_from_slice(b" holding")?;
    put_members(text, held)
}

// The front of a step's line, of the state before it.
fn put_front(
    text: &mut Vec<u8>,
    origins: &Origins,
    number: u32,
    state: &State,
    index: u32,
    choice: Choice,
) -> Result<(), NoMemory>
    ensures { OnOk result (text.new.items
        ≡ text.old.items ++ spec.front_text origins.now number state.now index choice) }
{
    put_counted(text, b"step ", number as u64)?;
    put_counted(text, b" time ", state.time())?;
    put_counted(text, b" choice ", index as u64)?;
    put_counted(text, b" of ", state.width() as u64)?;
    put_held(text, &state.holding(index))?;
    put_choice(text, choice, origins.origin(state, choice))
}

// The name of a variable.
fn put_name(text: &mut Vec<u8>, design: &Design, variable: u32) -> Result<(), NoMemory>
    ensures { OnOk result (text.new.items ≡ text.old.items ++ spec.name_text design.now variable) }
{
    text.push(b' ')?;
    match design.variables.get(variable as usize) {
        None => Ok(()),
        Some(variable) => {
            text.extend_from_slice(&variable.name)?;
            Ok(())
        }
    }
}

fn put_value(text: &mut Vec<u8>, value: Vec4) -> Result<(), NoMemory>
    ensures { OnOk result (text.new.items ≡ text.old.items ++ codes " " ++ binary value) }
{
    text.push(b' ')?;
    put_binary(text, value)
}

// A written variable, its value before and its value after the parts are written.
fn put_write(
    text: &mut Vec<u8>,
    design: &Design,
    values: &[Vec4],
    parts: &[Part],
    variable: u32,
) -> Result<(), NoMemory>
    ensures { OnOk result (text.new.items
        ≡ text.old.items ++ spec.write_text design.now values.now parts.now variable) }
{
    text.extend_from_slice(b" write")?;
    put_name(text, design, variable)?;
    put_value(text, value_after(values, &[], variable))?;
    put_value(text, value_after(values, parts, variable))
}

// A variable of an update that is posted, and the value that it would get now.
fn put_post(
    text: &mut Vec<u8>,
    design: &Design,
    values: &[Vec4],
    parts: &[Part],
    variable: u32,
) -> Result<(), NoMemory>
    ensures { OnOk result (text.new.items
        ≡ text.old.items ++ spec.post_text design.now values.now parts.now variable) }
{
    text.extend_from_slice(b" post")?;
    put_name(text, design, variable)?;
    put_value(text, value_after(values, parts, variable))
}

// Whether one of these parts is of the variable.
fn has_part(parts: &[Part], variable: u32) -> bool
    ensures { result ≡ spec.has_part parts.now variable }
{
    for part in parts {
        if part.variable() == variable {
            return true;
        }
    }
    false
}

// The variables that are written, each once.
fn put_writes(
    text: &mut Vec<u8>,
    design: &Design,
    values: &[Vec4],
    parts: &[Part],
) -> Result<(), NoMemory>
    ensures { OnOk result (text.new.items
        ≡ text.old.items ++ spec.writes_text design.now values.now parts.now) }
{
    for place in 0..parts.len() {
        let variable = parts[place].variable();
        if !has_part(parts.split_at(place).0, variable) {
            put_write(text, design, values, parts, variable)?;
        }
    }
    Ok(())
}

// The variables that are posted, each once.
fn put_posts(
    text: &mut Vec<u8>,
    design: &Design,
    values: &[Vec4],
    parts: &[Part],
) -> Result<(), NoMemory>
    ensures { OnOk result (text.new.items
        ≡ text.old.items ++ spec.posts_text design.now values.now parts.now) }
{
    for place in 0..parts.len() {
        let variable = parts[place].variable();
        if !has_part(parts.split_at(place).0, variable) {
            put_post(text, design, values, parts, variable)?;
        }
    }
    Ok(())
}

// What was written.
fn put_written(
    text: &mut Vec<u8>,
    design: &Design,
    values: &[Vec4],
    effect: &Effect,
) -> Result<(), NoMemory>
    ensures { OnOk result (text.new.items
        ≡ text.old.items ++ spec.writes_text design.now values.now effect.now.wrote) }
{
    match effect.wrote() {
        Kept::One(part) => put_writes(text, design, values, &[part]),
        Kept::Many(parts) => put_writes(text, design, values, parts),
    }
}

// What was posted.
fn put_update(
    text: &mut Vec<u8>,
    design: &Design,
    values: &[Vec4],
    posted: &Parts,
) -> Result<(), NoMemory>
    ensures { OnOk result (text.new.items
        ≡ text.old.items ++ spec.posts_text design.now values.now posted.now) }
{
    match posted.kept() {
        Kept::One(part) => put_posts(text, design, values, &[part]),
        Kept::Many(parts) => put_posts(text, design, values, parts),
    }
}

// The same, if an update was posted.
fn put_posted(
    text: &mut Vec<u8>,
    design: &Design,
    values: &[Vec4],
    posted: Option<&Post>,
) -> Result<(), NoMemory>
    ensures { OnOk result (text.new.items
        ≡ text.old.items ++ spec.posted_text design.now values.now (option_map (λ post. post.now) posted.entry)) }
{
    match posted {
        None => Ok(()),
        Some(post) => put_update(text, design, values, &post.parts),
    }
}

// The task that commanded the dump.
fn command_word(command: DumpCommand) -> &'static [u8]
    ensures { result.now ≡ spec.command_word command }
{
    match command {
        DumpCommand::Vars(_) => b" dumpvars",
        DumpCommand::Off => b" dumpoff",
        DumpCommand::On => b" dumpon",
        DumpCommand::All => b" dumpall",
    }
}

// The task that showed something at once.
fn shown_word(shown: Shown) -> &'static [u8]
    ensures { result.now ≡ spec.shown_word shown }
{
    match shown {
        Shown::Commands(command) => command_word(command),
        Shown::Prints(_) => b" display",
        Shown::Watches(_) => b" monitor",
    }
}

// The task that shows something now.
fn put_shown(text: &mut Vec<u8>, shown: Option<Shown>) -> Result<(), NoMemory>
    ensures { OnOk result (text.new.items ≡ text.old.items ++ spec.shown_text shown) }
{
    match shown {
        None => Ok(()),
        Some(shown) => {
            text.extend_from_slice(shown_word(shown))?;
            Ok(())
        }
    }
}

// ` strobe`, where a task shows something at the end of the slot.
fn put_strobed(text: &mut Vec<u8>, strobed: Option<usize>) -> Result<(), NoMemory>
    ensures { OnOk result (text.new.items ≡ text.old.items ++ spec.strobed_text strobed) }
{
    match strobed {
        None => Ok(()),
        Some(_) => {
            text.extend_from_slice(b" strobe")?;
            Ok(())
        }
    }
}

// ` trigger`, where a named event is triggered.
fn put_triggered(text: &mut Vec<u8>, triggered: Option<usize>) -> Result<(), NoMemory>
    ensures { OnOk result (text.new.items ≡ text.old.items ++ spec.triggered_text triggered) }
{
    match triggered {
        None => Ok(()),
        Some(_) => {
            text.extend_from_slice(b" trigger")?;
            Ok(())
        }
    }
}

// What becomes of the process.
fn put_disposition(text: &mut Vec<u8>, disposition: Disposition) -> Result<(), NoMemory>
    ensures { OnOk result (text.new.items ≡ text.old.items ++ spec.disposition_text disposition) }
{
    match disposition {
        Disposition::Runnable => Ok(()),
        Disposition::Delayed(amount) => put_delay(text, amount),
        Disposition::Waiting(_) => {
            text.extend_from_slice(b" wait")?;
            Ok(())
        }
    }
}

fn cause_word(cause: Cause) -> &'static [u8]
    ensures { result.now ≡ spec.cause_word cause }
{
    match cause {
        Cause::Finish => b" finish",
        Cause::Stop => b" stop",
        Cause::Quiet => b" quiet",
        Cause::Limit => b" limit",
    }
}

// Why the run ends, if it does.
fn put_cause(text: &mut Vec<u8>, cause: Option<Cause>) -> Result<(), NoMemory>
    ensures { OnOk result (text.new.items ≡ text.old.items ++ spec.cause_text cause) }
{
    match cause {
        None => Ok(()),
        Some(cause) => {
            text.extend_from_slice(cause_word(cause))?;
            Ok(())
        }
    }
}

// What a step did, from these values on.
fn put_effect(
    text: &mut Vec<u8>,
    design: &Design,
    values: &[Vec4],
    effect: &Effect,
) -> Result<(), NoMemory>
    ensures { OnOk result (text.new.items
        ≡ text.old.items ++ spec.effect_text design.now values.now effect.now) }
{
    put_written(text, design, values, effect)?;
    put_posted(text, design, values, effect.posted())?;
    put_triggered(text, effect.triggered())?;
    put_disposition(text, effect.disposition())?;
    put_shown(text, effect.shown())?;
    put_strobed(text, effect.strobed())?;
    put_cause(text, effect.cause())
}

// The same of an advance: the time from here on.
fn put_done(
    text: &mut Vec<u8>,
    design: &Design,
    values: &[Vec4],
    choice: Choice,
    effect: &Effect,
    time: u64,
) -> Result<(), NoMemory>
    ensures { OnOk result (text.new.items
        ≡ text.old.items ++ spec.done_text design.now values.now choice effect.now time) }
{
    match choice {
        Choice::Run(_) => put_effect(text, design, values, effect),
        Choice::Update => put_effect(text, design, values, effect),
        Choice::Advance => put_counted(text, b" advance ", time),
    }
}

// The line of a slot end, where the state is one.
fn put_slot(text: &mut Vec<u8>, state: &State) -> Result<(), NoMemory>
    ensures { OnOk result (text.new.items ≡ text.old.items ++ spec.slot_line state.now) }
{
    if state.is_mark() && state.cause().is_none() {
        put_counted(text, b"slot ", state.time())?;
        text.push(b'\n')?;
    }
    Ok(())
}

// What the step did, behind the front of its line, and the line of the slot end after it.
fn put_rest(
    text: &mut Vec<u8>,
    design: &Design,
    values: &[Vec4],
    choice: Choice,
    effect: &Effect,
    state: &State,
) -> Result<(), NoMemory>
    ensures { OnOk result (text.new.items
        ≡ text.old.items ++ (line (spec.done_text design.now values.now choice effect.now state.now.queue.time)
        ++ spec.slot_line state.now)) }
{
    put_done(text, design, values, choice, effect, state.time())?;
    text.push(b'\n')?;
    put_slot(text, state)
}

/// Takes a step. The answer is its line, and that of the slot end after it; none where there is no such choice. The values
/// before the step are copied, as the step may write any of them.
pub(crate) fn step(
    alloc: Global,
    design: &Design,
    origins: &Origins,
    state: &mut State,
    number: u32,
    index: u32,
) -> Result<Option<Vec<u8>>, NoMemory>
    ensures none { IfOk result (λ told. IfNone told (length (choices state.old) ≤ index)) }
    ensures kept { IfOk result (λ told. IfNone told (state.new ≡ state.old)) }
    ensures some { IfOk result (λ told. IfSome told (λ text. index < length (choices state.old))) }
    ensures state { IfOk result (λ told. IfSome told (λ text.
        state.new ≡ (next design.now state.old index).state)) }
    ensures lines { IfOk result (λ told. IfSome told (λ text.
        text.items ≡ spec.step_lines design.now origins.now number state.old index)) }
{
    let Some(choice) = state.choice(index) else {
        return Ok(None);
    };
    let mut text = Vec::new(alloc);
    put_front(&mut text, origins, number, state, index, choice)?;
    let values = Vec::from_slice(alloc, state.values())?;
    let mut monitors = Vec::new(alloc);
    let effect = state.step(design, index, &mut monitors)?;
    put_rest(&mut text, design, &values, choice, &effect, state)?;
    Ok(Some(text))
}

/// The line of the opening state, where it is a slot end.
pub(crate) fn opening_line(alloc: Global, state: &State) -> Result<Vec<u8>, NoMemory>
    ensures { IfOk result (λ text. text.items ≡ spec.slot_line state.now) }
{
    let mut text = Vec::new(alloc);
    put_slot(&mut text, state)?;
    Ok(text)
}

/// The line of the run's end.
pub(crate) fn end_line(alloc: Global, end: End) -> Result<Vec<u8>, NoMemory>
    ensures { IfOk result (λ text. text.items ≡ spec.end_line end) }
{
    let mut text = Vec::new(alloc);
    put_counted(&mut text, b"end ", end.time)?;
    text.extend_from_slice(cause_word(end.cause))?;
    text.push(b'\n')?;
    Ok(text)
}
