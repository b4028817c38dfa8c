// Variables that are followed, and what a dump shows of them.

ghost use Rattle.std.specs.Prelude.{◌≡◌, ◌≤◌, ◌∷◌, ◌++◌, [], length, true, ℕ, List, None, IfOk, IfSome, IfNone};
ghost use Rattle.vcd_read.specs.Telling.{item_of};
ghost use Rattle.vcd_slots.specs.Following.{AreSound, Follows, IsFresh, IsSound, PutsEach, ShowsMore, told_at};

use crate::column::Column;
use basis::NoMemory;
use std::alloc::Global;
use vbits::Vec4;
use vcd_read::{VcdItem, VcdVariable};

/// Variables of a dump that are followed, each with what it is worth, if that is known, and whether the dump is on.
#[derive(Drop)]
pub struct Columns {
    watched: Vec<Column>,
    told: Vec<Option<Vec4>>,
    is_on: bool,
}

// How many bits a variable has that can be followed.
fn bits_of(width: u64) -> Option<u32>
    ensures some { IfSome result (λ bits. (bits ≡ width) × (1 ≤ bits) × (bits ≤ 64)) }
    ensures none { IfNone result (1 ≤ width → width ≤ 64 → ⊥) }
{
    if width == 0 || width > 64 {
        return None;
    }
    Some(width as u32)
}

// A value of a code is told to each column; false where it doesn't fit one of them.
fn put_each(
    watched: &[Column],
    told: &mut [Option<Vec4>],
    is_on: bool,
    code: &[u8],
    digits: &[u8],
) -> bool
    requires { AreSound watched.now told.old }
    ensures { result ≡ true → PutsEach watched.now is_on told.old told.new code.now digits.now }
{
    for at in 0..watched.len() {
        let Some(after) = watched[at].put(is_on, told[at], code, digits) else {
            return false;
        };
        told[at] = after;
    }
    true
}

// Nothing is known any more.
fn forget(told: &mut [Option<Vec4>])
    ensures { (place : ℕ) → told_at told.new place ≡ None }
{
    for value in told.iter_mut() {
        *value = None;
    }
}

impl Columns {
    /// None are followed.
    pub fn new(alloc: Global) -> Columns
        ensures sound { IsSound result }
        ensures fresh { IsFresh result }
        ensures none { result.watched.items ≡ [] }
    {
        Columns {
            watched: Vec::new(alloc),
            told: Vec::new(alloc),
            is_on: true,
        }
    }

    /// The variable is followed, before anything of the dump is told: its place among the columns, from 0. None where it has no bit or more
    /// than 64, and can't be followed.
    pub fn watch(
        &mut self,
        alloc: Global,
        variable: &VcdVariable,
    ) -> Result<Option<usize>, NoMemory>
        requires { IsSound self.old }
        ensures sound { IfOk result (λ _. IsSound self.new) }
        ensures fresh { IfOk result (λ _. IsFresh self.old → IsFresh self.new) }
        ensures some { IfOk result (λ place. IfSome place (λ k. Follows self.old self.new variable.now k)) }
        ensures none { IfOk result (λ place. IfNone place (self.new ≡ self.old)) }
        ensures wide { IfOk result (λ place. IfNone place (1 ≤ variable.now.width → variable.now.width ≤ 64 → ⊥)) }
    {
        let Some(width) = bits_of(variable.width) else {
            return Ok(None);
        };
        let place = self.watched.len();
        let mut code = Vec::new(alloc);
        code.extend_from_slice(&variable.code)?;
        self.watched.push(Column::new(code, width))?;
        self.told.push(None)?;
        Ok(Some(place))
    }

    /// How many there are.
    pub fn len(&self) -> usize
        ensures { result ≡ length self.now.watched.items }
    {
        self.watched.len()
    }

    /// What the column at this place is worth, if that is known.
    pub fn value(&self, place: usize) -> Option<Vec4>
        ensures { result ≡ told_at self.now.told.items place }
    {
        match self.told.get(place) {
            None => None,
            Some(value) => *value,
        }
    }

    /// The next item of the dump; false where it is a value with other digits than a variable of its code may have.
    pub(crate) fn tell(&mut self, item: &VcdItem) -> bool
        requires { IsSound self.old }
        ensures sound { IsSound self.new }
        ensures watched { self.new.watched ≡ self.old.watched }
        ensures show { result ≡ true → ShowsMore self.old self.new (item_of item.now) }
    {
        match item {
            VcdItem::Time(_) => true,
            VcdItem::Value { code, digits } => {
                put_each(&self.watched, &mut self.told, self.is_on, code, digits)
            }
            VcdItem::Off => {
                self.is_on = false;
                forget(&mut self.told);
                true
            }
            VcdItem::On => {
                self.is_on = true;
                true
            }
        }
    }
}
