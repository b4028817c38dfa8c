// What is connected by order or by name (IEEE 1364-2005, 12.2.2, 12.3.5, 12.3.6).

ghost use Rattle.std.specs.Prelude.{◌≡◌, ◌++◌, ◌∷◌, [], List, map, true, false, option_map, None, Some, IfOk, OnOk};
ghost use Rattle.basis.specs.Reasons.{IfFault};
ghost use Rattle.vwords.specs.Words.{Text};
ghost use Rattle.vast.specs.NumberedWords.{word_of};
ghost use Rattle.vast.specs.NumberedModules.{by_order, by_name};
ghost use Rattle.vast.specs.NumberedTrees.{tree_of, connection_tree, connections_tree};
ghost use Rattle.vexpr_parse.specs.Texts.{words_of};
ghost use Rattle.vmodules.specs.Names.{is_declared};
ghost use Rattle.vmodules.specs.Connected as spec;
ghost use Rattle.vmodules.specs.Connected.{misfit, misfit_behind, misfit_if, value_for};
ghost use Rattle.vmodules.specs.Inner.{entries_tree, entry_names, value_tree, IsTold};

use crate::letters::letters;
use crate::names::Names;
use basis::OrMemory;
use indexmap::IndexMap;
use std::alloc::Global;
use std::marker::Model;
use vast::expression::Expression;
use vast::module::{Connection, Connections};
use vast::token::Token;
use vlex::Tokens;

/// What is connected does not fit; `at` is the number of the token where that shows.
#[derive(Clone, Copy, PartialEq, Eq)]
pub struct Misfit {
    pub at: u32,
}

/// Names with what is connected to each, where something is. A name is found by its bytes, at once.
#[derive(Drop)]
pub struct ConnectionMap<'t, 'u> {
    entries: IndexMap<&'t [u8], Option<&'u Expression>>,
}

impl<'t, 'u> Model for ConnectionMap<'t, 'u> {
    ghost use Rattle.std.specs.Prelude.{List, map};
    ghost use Rattle.std.specs.Coded.{codes};
    ghost use Rattle.vast.specs.contracts.expression.Expression as expression;
    ghost use Rattle.vmodules.specs.Inner.{ConnectionEntry};

    ghost Value = { List ConnectionEntry };

    ghost coded = { Prim.hlevel (codes, expression.the_row.coded) };

    ghost view = { λ t. map (λ entry. (entry.0.now, entry.1)) t.entries.entries };
}

impl<'t, 'u> ConnectionMap<'t, 'u> {
    /// None.
    pub fn new(alloc: Global) -> Self
        ensures { result ≡ [] }
    {
        ConnectionMap {
            entries: IndexMap::new(alloc),
        }
    }

    // Connects a value to a name that has none.
    fn add(
        &mut self,
        name: &'t [u8],
        value: Option<&'u Expression>,
        at: u32,
    ) -> Result<(), OrMemory<Misfit>>
        ensures added { OnOk result (self.new ≡ self.old ++ (name.now, value.entry) ∷ []) }
        ensures fresh { OnOk result (is_declared (entry_names self.old) name.now ≡ false) }
        ensures err { IfFault result (λ misfit.
            (is_declared (entry_names self.old) name.now ≡ true) × (misfit.at ≡ at)) }
    {
        let before = self.entries.insert(name, value)?;
        if before.is_some() {
            return Err(OrMemory::Fault(Misfit { at }));
        }
        Ok(())
    }

    /// What is connected to a name, where something is.
    pub fn value(&self, name: &[u8]) -> Option<&'u Expression>
        ensures { (words : List Text) →
            value_tree words result ≡ value_for (entries_tree words self.now) name.now }
    {
        match self.entries.get(&name) {
            None => None,
            Some(value) => *value,
        }
    }
}

// The first value for the first name, and so on.
fn by_order<'t, 'u>(
    alloc: Global,
    whose: Token,
    names: &Names<'t>,
    values: &'u [Expression],
) -> Result<ConnectionMap<'t, 'u>, OrMemory<Misfit>>
    ensures ok { (words : List Text) → IfOk result (λ connected.
        entries_tree words connected ≡ spec.named_connections names.now (by_order (map (tree_of words) values.now))) }
    ensures fits { (words : List Text) → OnOk result (misfit (word_of words whose) names.now
        (by_order (map (tree_of words) values.now)) ≡ None) }
    ensures err { (words : List Text) → IfFault result (λ f. IsTold (misfit
        (word_of words whose) names.now (by_order (map (tree_of words) values.now))) f.at) }
{
    let mut connected = ConnectionMap::new(alloc);
    if values.len() > names.len() {
        return Err(OrMemory::Fault(Misfit { at: whose.number }));
    }
    for place in 0..values.len() {
        connected.add(names.name(place), Some(&values[place]), whose.number)?;
    }
    Ok(connected)
}

// The value of a connection, where there is one.
fn value_of<'u>(connection: &'u Connection) -> Option<&'u Expression>
    ensures { (words : List Text) →
        value_tree words result ≡ (connection_tree words connection.now).value }
{
    match &connection.value {
        None => None,
        Some(value) => Some(value),
    }
}

// Each value for its name.
fn by_name<'t, 'u>(
    alloc: Global,
    tokens: &Tokens<'t>,
    names: &Names<'t>,
    list: &'u [Connection],
) -> Result<ConnectionMap<'t, 'u>, OrMemory<Misfit>>
    ensures ok { IfOk result (λ connected. entries_tree (words_of tokens.now) connected ≡ spec.named_connections names.now
        (by_name (map (connection_tree (words_of tokens.now)) list.now))) }
    ensures fits { OnOk result (misfit_behind names.now []
        (map (connection_tree (words_of tokens.now)) list.now) ≡ None) }
    ensures err { IfFault result (λ f. IsTold (misfit_behind names.now []
        (map (connection_tree (words_of tokens.now)) list.now)) f.at) }
{
    let mut connected = ConnectionMap::new(alloc);
    for connection in list {
        let name = letters(tokens, connection.name);
        if names.place(name).is_none() {
            return Err(OrMemory::Fault(Misfit {
                at: connection.name.number,
            }));
        }
        connected.add(name, value_of(connection), connection.name.number)?;
    }
    Ok(connected)
}

/// What is connected to these names; more values than names are told of by the token of whose they are.
pub fn named_connections<'t, 'u>(
    alloc: Global,
    tokens: &Tokens<'t>,
    whose: Token,
    names: &Names<'t>,
    connections: &'u Connections,
) -> Result<ConnectionMap<'t, 'u>, OrMemory<Misfit>>
    ensures ok { IfOk result (λ connected. entries_tree (words_of tokens.now) connected ≡
        spec.named_connections names.now (connections_tree (words_of tokens.now) connections.now)) }
    ensures fits { OnOk result (misfit (word_of (words_of tokens.now) whose) names.now
        (connections_tree (words_of tokens.now) connections.now) ≡ None) }
    ensures err { IfFault result (λ f. IsTold (misfit (word_of (words_of tokens.now) whose)
        names.now (connections_tree (words_of tokens.now) connections.now)) f.at) }
{
    match connections {
        Connections::ByOrder(values) => by_order(alloc, whose, names, values),
        Connections::ByName(list) => by_name(alloc, tokens, names, list),
    }
}

/// What is connected to these names, where connections are written; else nothing.
pub fn named_connections_if<'t, 'u>(
    alloc: Global,
    tokens: &Tokens<'t>,
    whose: Token,
    names: &Names<'t>,
    overrides: &'u Option<Connections>,
) -> Result<ConnectionMap<'t, 'u>, OrMemory<Misfit>>
    ensures ok { IfOk result (λ connected. entries_tree (words_of tokens.now) connected ≡ spec.named_connections_if
        names.now (option_map (connections_tree (words_of tokens.now)) overrides.now)) }
    ensures fits { OnOk result (misfit_if (word_of (words_of tokens.now) whose) names.now
        (option_map (connections_tree (words_of tokens.now)) overrides.now) ≡ None) }
    ensures err { IfFault result (λ f. IsTold (misfit_if (word_of (words_of tokens.now) whose)
        names.now (option_map (connections_tree (words_of tokens.now)) overrides.now)) f.at) }
{
    match overrides {
        None => Ok(ConnectionMap::new(alloc)),
        Some(connections) => named_connections(alloc, tokens, whose, names, connections),
    }
}
