// The lines of a slot, where they are looked at, step by step (IEEE 1364-2005, 17.1.1, 17.1.2).

ghost use Rattle.std.specs.Prelude.{◌≡◌, IfOk, OnOk, option_map};
ghost use Rattle.vmodel.specs.Printed.{with_item, with_lines, lines_before, printed_after};

use basis::NoMemory;
use sched_core::bag::Bag;
use std::alloc::Global;
use vmodel::choice::Choice;
use vmodel::history::Item;

// The bag with this item, where it is a text that was printed.
fn print_item(bag: &mut Bag, item: &Item) -> Result<(), NoMemory>
    ensures { OnOk result (bag.new ≡ with_item item.now bag.old) }
{
    match item {
        Item::Line(text) => bag.print(text.as_bytes()),
        Item::SlotEnd { .. } => Ok(()),
        Item::Dump(_) => Ok(()),
        Item::Monitor(_) => Ok(()),
    }
}

// The bag with the texts among these items.
fn insert_items(bag: &mut Bag, items: &[Item]) -> Result<(), NoMemory>
    ensures { OnOk result (bag.new ≡ with_lines items.now bag.old) }
{
    for item in items {
        print_item(bag, item)?;
    }
    Ok(())
}

// The bag where a step by this choice begins: an advance begins a slot, which has printed nothing.
fn begin_step(bag: &mut Bag, choice: Choice)
    ensures { bag.new ≡ lines_before choice bag.old }
{
    if let Choice::Advance = choice {
        bag.clear();
    }
}

// The bag after a step by this choice, which gave these items to the history.
fn take_items(bag: &mut Bag, choice: Choice, items: &[Item]) -> Result<(), NoMemory>
    ensures { OnOk result (bag.new ≡ with_lines items.now (lines_before choice bag.old)) }
{
    begin_step(bag, choice);
    insert_items(bag, items)
}

/// A bag of the same lines, where there is one.
pub(crate) fn copy_printed(alloc: Global, printed: &Option<Bag>) -> Result<Option<Bag>, NoMemory>
    ensures { IfOk result (λ copied. copied ≡ printed.now) }
{
    match printed {
        None => Ok(None),
        Some(bag) => Ok(Some(bag.copy(alloc)?)),
    }
}

/// The bag, where there is one, after a step by this choice that prints nothing.
pub(crate) fn print_nothing(printed: &mut Option<Bag>, choice: Choice)
    ensures { printed.new ≡ option_map (lines_before choice) printed.old }
{
    match printed {
        None => {}
        Some(bag) => begin_step(bag, choice),
    }
}

/// The bag, where there is one, after a step by this choice, which gave these items to the history.
pub(crate) fn print_items(
    printed: &mut Option<Bag>,
    choice: Choice,
    items: &[Item],
) -> Result<(), NoMemory>
    ensures { OnOk result (printed.new ≡ printed_after choice items.now printed.old) }
{
    match printed {
        None => Ok(()),
        Some(bag) => take_items(bag, choice, items),
    }
}
