// What `$display`, `$strobe` and `$monitor` print (IEEE 1364-2005, 17.1), where the formats are read.

ghost use Rattle.std.specs.Prelude.{◌≡◌};

use crate::expression::Expression;
use std::marker::Model;

/// When a line is printed (17.1).
#[derive(Clone, Copy, PartialEq, Eq)]
pub enum When {
    /// `$display`: in its step (17.1.1).
    Now,
    /// `$strobe`: at the end of its slot (17.1.2).
    AtSlotEnd,
    /// `$monitor`: at the end of its slot, and then of each slot in which an argument changed, until another comes (17.1.3).
    AtChange,
}

/// What a value is shown as (17.1.1.2).
#[derive(Clone, Copy, PartialEq, Eq)]
pub enum Notation {
    /// `%b`
    Binary,
    /// `%o`
    Octal,
    /// `%h` or `%x`
    Hexadecimal,
    /// `%d`
    Decimal,
    /// `%t`
    Time,
    /// `%c`
    Character,
    /// `%s`
    Letters,
}

/// In how many places it is shown (17.1.1.3).
#[derive(Clone, Copy, PartialEq, Eq)]
pub enum Width {
    /// `%d`: in as many as the longest value of its length and sign takes.
    Natural,
    /// `%0d`: in as few as it can be.
    Least,
    /// `%5d`: in five or more, with blanks before it.
    Places(u32),
    /// `%05d`: in five or more, with zeros before its digits.
    Zeros(u32),
}

/// How a value is shown.
#[derive(Clone, Copy, PartialEq, Eq)]
pub struct Form {
    pub notation: Notation,
    pub width: Width,
}

/// Bytes that are printed as they are.
#[derive(Drop)]
pub struct Text {
    bytes: Vec<u8>,
}

impl Model for Text {
    ghost use Rattle.std.specs.Prelude.{ℕ, List};

    ghost Value = { List ℕ };

    ghost view = { λ text. text.bytes.items };
}

impl Text {
    /// These bytes.
    pub fn new(bytes: Vec<u8>) -> Text
        ensures { result ≡ bytes.items }
    {
        Text { bytes }
    }

    /// The bytes, as a list.
    pub fn as_bytes(&self) -> &[u8]
        ensures { result.now ≡ self.now }
    {
        &self.bytes
    }
}

/// A piece of a line.
#[derive(Drop)]
pub enum Piece {
    /// These bytes.
    Text(Text),
    /// The value of an expression by itself. A monitor watches it, where it isn't `$time` alone (17.1.3).
    Value {
        form: Form,
        watched: bool,
        value: Expression,
    },
}

/// The pieces of a line, from left to right.
#[derive(Drop)]
pub struct Pieces {
    list: Vec<Piece>,
}

impl Model for Pieces {
    ghost use Rattle.std.specs.Prelude.{List};
    ghost use Rattle.std.specs.Coded.{codes};
    ghost use Rattle.vdesign.specs.declared.print.Piece.{Piece};
    ghost use Rattle.vdesign.specs.contracts.expression.Expression as expression;

    ghost Value = { List Piece };

    ghost coded = { Prim.hlevel (codes, expression.the_row.coded) };

    ghost view = { λ pieces. pieces.list.items };
}

impl Pieces {
    /// These pieces.
    pub fn new(list: Vec<Piece>) -> Pieces
        ensures { result ≡ list.items }
    {
        Pieces { list }
    }

    /// The pieces, as a list.
    pub fn as_slice(&self) -> &[Piece]
        ensures { result.now ≡ self.now }
    {
        &self.list
    }
}
