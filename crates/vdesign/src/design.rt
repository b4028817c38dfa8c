// What a text stands for once its names are resolved and its top module is known (IEEE 1364-2005, clause 12): variables,
// scopes, and one table of the actions that its processes take.

use crate::action::{Action, Places};
use crate::expression::Bounds;
use basis::Timescale;
use std::marker::Model;
use vbits::Vec4;

/// A whole design, each list in the order of docs/LANGUAGE.md, "Order". A clause sees it as the record `Design` of
/// specs/Design.antt.
#[derive(Drop)]
pub struct Design {
    /// The name of the top module.
    pub top: Vec<u8>,
    /// The unit in which delays are written, and the precision, in units of which time is counted (19.8).
    pub scale: Timescale,
    pub variables: Vec<Variable>,
    pub scopes: Vec<Scope>,
    /// Every action of every process; an action goes by its place in this list, from 0.
    pub actions: Vec<Action>,
    /// For each process where it begins: the places that it comes to first, in order. 256 processes at most.
    pub processes: Vec<Places>,
}

impl Model for Design {
    ghost use Rattle.std.specs.Prelude.{◌≤◌, length};
    ghost use Rattle.vdesign.specs.Design as design;
    ghost use Rattle.vdesign.specs.contracts.expression.Expression as expression;
    ghost use Rattle.std.specs.Coded.{codes};

    ghost Value = { design.Design };

    ghost coded = { Prim.hlevel (codes, expression.the_row.coded) };

    ghost view = { λ d. record {
      top = d.top.items;
      scale = d.scale;
      variables = d.variables.items;
      scopes = d.scopes.items;
      actions = d.actions.items;
      processes = d.processes.items;
    } };

    ghost invariant = { λ d. length d.processes.items ≤ 256 };
}

/// A variable (4.2). Variables are numbered from 0 in the order of the design's list.
#[derive(Drop)]
pub struct Variable {
    /// The names of its scopes from the top module's on and its own, joined by dots.
    pub name: Vec<u8>,
    pub kind: Kind,
    /// In bits, 1 to 64.
    pub length: u32,
    pub signed: bool,
    /// What it is until it is first written: x, and z in the bits of a net that nothing drives (4.2.1, 4.2.2, 4.6); as many letters as it
    /// has bits.
    pub start: Vec4,
    /// The numbers of the leftmost and of the rightmost bit, where it was declared with a range.
    pub bounds: Option<Bounds>,
}

impl Model for Variable {
    ghost use Rattle.std.specs.Prelude.{◌≤◌};
    ghost use Rattle.vdesign.specs.Design as design;

    ghost Value = { design.Variable };

    ghost view = { λ v. record { name = v.name.items; kind = v.kind; length = v.length; signed = v.signed; start = v.start; bounds = v.bounds } };

    ghost invariant = { λ v. (1 ≤ v.length) × (v.length ≤ 64) };
}

/// How a variable was declared.
#[derive(Clone, Copy, PartialEq, Eq)]
pub enum Kind {
    /// `reg`
    Reg,
    /// `integer`
    Integer,
    /// `time`
    Time,
    /// `wire`
    Wire,
}

/// A module's instance, or the top module (12.1). Scopes stand depth first, so that the variables of the
/// first are the first ones, those of the second come next, and so on.
#[derive(Drop)]
pub struct Scope {
    pub name: Vec<u8>,
    /// The names of the scopes round it from the top's on and its own, joined by dots.
    pub path: Vec<u8>,
    /// How many scopes are round it.
    pub depth: u32,
    /// How many variables are its own.
    pub variables: u32,
}

impl Model for Scope {
    ghost use Rattle.vdesign.specs.Design as design;

    ghost Value = { design.Scope };

    ghost view = { λ s. record { name = s.name.items; path = s.path.items; depth = s.depth; variables = s.variables } };
}
