// Codes that are declared.

ghost use Rattle.std.specs.Prelude.{◌≡◌, true};
ghost use Rattle.vcd_read.specs.Codes.{IsCode, IsDeclaredIn};
ghost use Rattle.vcd_read.specs.Telling.{item_of};

use crate::header::VcdVariable;
use crate::item::VcdItem;
use crate::same::is_same;
use basis::NoMemory;
use std::alloc::Global;
use std::collections::BTreeMap;

/// The codes of variables, each with the place of one.
#[derive(Drop)]
pub(crate) struct Codes {
    places: BTreeMap<Vec<u8>, usize>,
}

// Whether the variable at this place has the code.
fn is_code_at(variables: &[VcdVariable], place: usize, code: &[u8]) -> bool
    ensures { result ≡ true → IsCode variables.now code.now }
{
    let Some(variable) = variables.get(place) else {
        return false;
    };
    is_same(&variable.code, code)
}

impl Codes {
    /// Those of these variables.
    pub(crate) fn of(alloc: Global, variables: &[VcdVariable]) -> Result<Codes, NoMemory> {
        let mut places = BTreeMap::new(alloc);
        for (place, variable) in variables.iter().enumerate() {
            places.insert(Vec::from_slice(alloc, &variable.code)?, place)?;
        }
        Ok(Codes { places })
    }

    // Whether one of these variables has the code.
    fn has(&self, variables: &[VcdVariable], code: &Vec<u8>) -> bool
        ensures { result ≡ true → IsCode variables.now code.now.items }
    {
        match self.places.get(code) {
            None => false,
            Some(place) => is_code_at(variables, *place, code),
        }
    }

    /// Whether the item is of one of these variables, or of none at all.
    pub(crate) fn have(&self, variables: &[VcdVariable], item: &VcdItem) -> bool
        ensures { result ≡ true → IsDeclaredIn variables.now (item_of item.now) }
    {
        match item {
            VcdItem::Value { code, .. } => self.has(variables, code),
            VcdItem::Time(_) => true,
            VcdItem::Off => true,
            VcdItem::On => true,
        }
    }
}
