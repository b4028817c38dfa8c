// What instances are connected to (IEEE 1364-2005, 12.1.2, 12.3.5 and 12.3.6).

ghost use Rattle.std.specs.Prelude.{◌≡◌, ◌<◌, codes, IfOk};
ghost use Rattle.vast.specs.Leaves.{boxed_leaves, connection_leaves, connections_leaves, if_some, instance_leaves};
ghost use Rattle.vast.specs.ModuleTrees.{connection_tree, connections_tree, instance_tree};
ghost use Rattle.vexpr_parse.specs.Answers.{Keeps};
ghost use Rattle.vstatement_parse.specs.Gives.{Gives};
ghost use Rattle.vparse.specs.ModuleGives.{all_leaves, all_of, connections_in, optional_of, value_part};
ghost use Rattle.vparse.specs.TextReaders as reading;
ghost use Rattle.vgrammar.specs.Lists.{all_until};

use crate::lists::list_until;
use crate::module_lists::values;
use crate::types::LEVELS;
use basis::OrMemory;
use std::alloc::Global;
use vast::expression::Expression;
use vast::module::{Connection, Connections, Instance};
use vexpr_parse::{Cursor, Stop};
use vlex::Tokens;
use vstatement_parse::values::value_before;
use vstatement_parse::words::name_word;

// What stands behind `(`: a value, or none, and `)`.
fn value_in(
    alloc: Global,
    tokens: &Tokens<'_>,
    cursor: &mut Cursor,
) -> Result<Option<Box<Expression>>, OrMemory<Stop>>
    ensures gives { Gives value_part reading.value_in tokens.now cursor.old cursor.new result }
    ensures kept { IfOk result (Keeps (if_some boxed_leaves) tokens.now cursor.old cursor.new) }
{
    if cursor.begins(tokens, b")") {
        cursor.pass(tokens);
        Ok(None)
    } else {
        Ok(Some(value_before(alloc, tokens, cursor, LEVELS, b")")?))
    }
}

// `.name(value)`, or `.name()`
#[tactic(auto, using(crate::proofs::ConnectionParts::connection_made))]
fn connection(
    alloc: Global,
    tokens: &Tokens<'_>,
    cursor: &mut Cursor,
) -> Result<Connection, OrMemory<Stop>>
    ensures gives { Gives connection_tree reading.connection
        tokens.now cursor.old cursor.new result }
    ensures kept { IfOk result (Keeps connection_leaves tokens.now cursor.old cursor.new) }
{
    cursor.symbol(tokens, b".")?;
    let name = name_word(tokens, cursor)?;
    cursor.symbol(tokens, b"(")?;
    let value = value_in(alloc, tokens, cursor)?;
    Ok(Connection { name, value })
}

// Connections by name, up to `)`.
#[tactic(auto, using(crate::proofs::ListKinds::connection_fewer))]
fn all_connections(
    alloc: Global,
    tokens: &Tokens<'_>,
    cursor: &mut Cursor,
) -> Result<Vec<Connection>, OrMemory<Stop>>
    ensures gives { Gives (all_of connection_tree) (all_until (codes ")") reading.connection)
        tokens.now cursor.old cursor.new result }
    ensures kept { IfOk result (Keeps (all_leaves connection_leaves)
        tokens.now cursor.old cursor.new) }
{
    let first = connection(alloc, tokens, cursor)?;
    list_until(
        alloc,
        &|cursor|
            ensures gives { Gives connection_tree reading.connection
                tokens.entry.now cursor.entry.now cursor.exit.now result }
            ensures kept { IfOk result (Keeps connection_leaves
                tokens.entry.now cursor.entry.now cursor.exit.now) }
        { connection(alloc, tokens, cursor) },
        tokens,
        cursor,
        first,
        b")",
    )
}

// What stands behind the first parenthesis.
fn connection_list(
    alloc: Global,
    tokens: &Tokens<'_>,
    cursor: &mut Cursor,
) -> Result<Connections, OrMemory<Stop>>
    ensures gives { Gives connections_tree connections_in tokens.now cursor.old cursor.new result }
    ensures kept { IfOk result (Keeps connections_leaves tokens.now cursor.old cursor.new) }
{
    if cursor.begins(tokens, b".") {
        Ok(Connections::ByName(all_connections(alloc, tokens, cursor)?))
    } else if cursor.begins(tokens, b")") {
        cursor.pass(tokens);
        Ok(Connections::ByOrder(Vec::new(alloc)))
    } else {
        Ok(Connections::ByOrder(values(alloc, tokens, cursor)?))
    }
}

/// Connections in parentheses.
#[tactic(auto, using(crate::proofs::ModuleForms::connections_is))]
pub fn connections(
    alloc: Global,
    tokens: &Tokens<'_>,
    cursor: &mut Cursor,
) -> Result<Connections, OrMemory<Stop>>
    ensures gives { Gives connections_tree reading.connections
        tokens.now cursor.old cursor.new result }
    ensures kept { IfOk result (Keeps connections_leaves tokens.now cursor.old cursor.new) }
{
    cursor.symbol(tokens, b"(")?;
    connection_list(alloc, tokens, cursor)
}

/// `#` and connections, if they stand there.
pub fn overrides(
    alloc: Global,
    tokens: &Tokens<'_>,
    cursor: &mut Cursor,
) -> Result<Option<Connections>, OrMemory<Stop>>
    ensures gives { Gives (optional_of connections_tree) reading.overrides
        tokens.now cursor.old cursor.new result }
    ensures kept { IfOk result (Keeps (if_some connections_leaves)
        tokens.now cursor.old cursor.new) }
{
    if cursor.begins(tokens, b"#") {
        cursor.pass(tokens);
        Ok(Some(connections(alloc, tokens, cursor)?))
    } else {
        Ok(None)
    }
}

// `name(connections)`
fn instance(
    alloc: Global,
    tokens: &Tokens<'_>,
    cursor: &mut Cursor,
) -> Result<Instance, OrMemory<Stop>>
    ensures gives { Gives instance_tree reading.instance_behind
        tokens.now cursor.old cursor.new result }
    ensures kept { IfOk result (Keeps instance_leaves tokens.now cursor.old cursor.new) }
{
    let name = name_word(tokens, cursor)?;
    let connections = connections(alloc, tokens, cursor)?;
    Ok(Instance { name, connections })
}

/// Instances, up to `;`.
#[tactic(auto, using(crate::proofs::ListKinds::instance_fewer))]
pub fn instances(
    alloc: Global,
    tokens: &Tokens<'_>,
    cursor: &mut Cursor,
) -> Result<Vec<Instance>, OrMemory<Stop>>
    ensures gives { Gives (all_of instance_tree) (all_until (codes ";") reading.instance_behind)
        tokens.now cursor.old cursor.new result }
    ensures kept { IfOk result (Keeps (all_leaves instance_leaves)
        tokens.now cursor.old cursor.new) }
{
    let first = instance(alloc, tokens, cursor)?;
    list_until(
        alloc,
        &|cursor|
            ensures gives { Gives instance_tree reading.instance_behind
                tokens.entry.now cursor.entry.now cursor.exit.now result }
            ensures kept { IfOk result (Keeps instance_leaves
                tokens.entry.now cursor.entry.now cursor.exit.now) }
        { instance(alloc, tokens, cursor) },
        tokens,
        cursor,
        first,
        b";",
    )
}
