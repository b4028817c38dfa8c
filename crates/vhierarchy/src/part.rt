// A design so far.

ghost use Rattle.std.specs.Prelude.{◌≡◌};
ghost use Rattle.vhierarchy.specs.Instances as spec;

use std::alloc::Global;
use std::marker::Model;
use vdesign::action::Places;
use vdesign::design::{Scope, Variable};
use velab_process::statement::Table;

/// A design so far: its variables, its scopes, its actions, where its processes begin, how many named events it has, and how large the
/// modules of its instances are together.
#[derive(Drop)]
pub struct PartialDesign {
    pub variables: Vec<Variable>,
    pub scopes: Vec<Scope>,
    pub table: Table,
    pub begins: Vec<Places>,
    pub events: usize,
    pub size: usize,
}

impl Model for PartialDesign {
    ghost use Rattle.std.specs.Coded.{codes};
    ghost use Rattle.vdesign.specs.contracts.expression.Expression as expression;
    ghost use Rattle.vhierarchy.specs.Instances as spec;

    ghost Value = { spec.PartialDesign };

    ghost coded = { Prim.hlevel (codes, expression.the_row.coded) };

    ghost view = { λ p. record {
      variables = p.variables.items;
      scopes = p.scopes.items;
      table = p.table;
      begins = p.begins.items;
      events = p.events;
      size = p.size;
    } };
}

impl PartialDesign {
    /// A design without anything.
    pub fn new(alloc: Global) -> PartialDesign
        ensures { result ≡ spec.nothing }
    {
        PartialDesign {
            variables: Vec::new(alloc),
            scopes: Vec::new(alloc),
            table: Table {
                actions: Vec::new(alloc),
                words: Vec::new(alloc),
            },
            begins: Vec::new(alloc),
            events: 0,
            size: 0,
        }
    }
}
