// JSON objects and arrays, as their parts come. Where memory is refused for a part, the whole is refused.

use crate::pieces::string_of;
use basis::NoMemory;
use serde_json::{Map, Value, put};
use shown_text::shown_json;
use std::alloc::Global;

// A string of these bytes.
fn string_value(alloc: Global, bytes: &[u8]) -> Result<Value, NoMemory> {
    Ok(Value::String(string_of(alloc, bytes)?))
}

/// An object with these members. They are written in the order of their names.
#[derive(Drop)]
pub struct Members {
    alloc: Global,
    map: Map<String, Value>,
    refused: Option<NoMemory>,
}

impl Members {
    /// None yet.
    pub fn new(alloc: Global) -> Members {
        Members {
            alloc,
            map: Map::new(alloc),
            refused: None,
        }
    }

    // The member, if there is memory for it.
    fn add(&mut self, name: &str, value: Value) -> Result<(), NoMemory> {
        put(&mut self.map, self.alloc, name, value)?;
        Ok(())
    }

    /// A member of any value.
    pub fn value(&mut self, name: &str, value: Value) {
        if let Err(refused) = self.add(name, value) {
            self.refused = Some(refused);
        }
    }

    /// A member of a value that was made, if it was.
    pub fn try_value(&mut self, name: &str, value: Result<Value, NoMemory>) {
        match value {
            Ok(value) => self.value(name, value),
            Err(refused) => self.refused = Some(refused),
        }
    }

    /// A string of these bytes.
    pub fn text(&mut self, name: &str, bytes: &[u8]) {
        let text = string_value(self.alloc, bytes);
        self.try_value(name, text);
    }

    /// A string of bytes that were made, if they were.
    pub fn made_text(&mut self, name: &str, bytes: Result<Vec<u8>, NoMemory>) {
        match bytes {
            Ok(bytes) => self.text(name, &bytes),
            Err(refused) => self.refused = Some(refused),
        }
    }

    /// A number.
    pub fn number(&mut self, name: &str, n: u64) {
        self.value(name, Value::from(n));
    }

    /// True or false.
    pub fn flag(&mut self, name: &str, holds: bool) {
        self.value(name, Value::Bool(holds));
    }

    /// The object.
    pub fn whole(self) -> Result<Value, NoMemory> {
        let Members { map, refused, .. } = self;
        match refused {
            None => Ok(Value::Object(map)),
            Some(refused) => Err(refused),
        }
    }
}

/// An array of these items.
#[derive(Drop)]
pub struct Items {
    alloc: Global,
    items: Vec<Value>,
    refused: Option<NoMemory>,
}

impl Items {
    /// None yet.
    pub fn new(alloc: Global) -> Items {
        Items {
            alloc,
            items: Vec::new(alloc),
            refused: None,
        }
    }

    // The item, if there is memory for it.
    fn add(&mut self, item: Value) -> Result<(), NoMemory> {
        self.items.push(item)?;
        Ok(())
    }

    /// An item of any value.
    pub fn value(&mut self, item: Value) {
        if let Err(refused) = self.add(item) {
            self.refused = Some(refused);
        }
    }

    /// An item that was made, if it was.
    pub fn try_value(&mut self, item: Result<Value, NoMemory>) {
        match item {
            Ok(item) => self.value(item),
            Err(refused) => self.refused = Some(refused),
        }
    }

    /// A string of these bytes.
    pub fn text(&mut self, bytes: &[u8]) {
        let text = string_value(self.alloc, bytes);
        self.try_value(text);
    }

    /// A string of bytes that were made, if they were.
    pub fn made_text(&mut self, bytes: Result<Vec<u8>, NoMemory>) {
        match bytes {
            Ok(bytes) => self.text(&bytes),
            Err(refused) => self.refused = Some(refused),
        }
    }

    /// The items of the other one, too.
    pub fn append(&mut self, other: Items) {
        let Items { items, refused, .. } = other;
        for item in items {
            self.value(item);
        }
        if refused.is_some() {
            self.refused = refused;
        }
    }

    /// The array.
    pub fn whole(self) -> Result<Value, NoMemory> {
        let Items { items, refused, .. } = self;
        match refused {
            None => Ok(Value::Array(items)),
            Some(refused) => Err(refused),
        }
    }
}

/// The value as a text, its members a line each, with a line feed at its end. Letters that a terminal would take for commands, or that turn
/// text round, stand as JSON has them, `\u202e`.
pub fn document(alloc: Global, value: &Value) -> Result<Vec<u8>, NoMemory> {
    let mut text = shown_json(alloc, &value.to_vec_pretty(alloc)?)?;
    text.push(b'\n')?;
    Ok(text)
}
