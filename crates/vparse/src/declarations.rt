// Names with their values (IEEE 1364-2005, 4.2 and 4.10).

ghost use Rattle.std.specs.Prelude.{◌≡◌, ◌<◌, IfOk};
ghost use Rattle.vast.specs.Leaves.{boxed_leaves, declared_leaves, if_some, net_assignment_leaves, setting_leaves};
ghost use Rattle.vast.specs.ModuleTrees.{setting_tree, net_assignment as net_assignment_tree, declared_tree};
ghost use Rattle.vexpr_parse.specs.Answers.{Keeps};
ghost use Rattle.vstatement_parse.specs.Gives.{Gives, value_tree};
ghost use Rattle.vparse.specs.ModuleGives.{optional_of, optional_value};
ghost use Rattle.vparse.specs.TextReaders as reading;

use crate::types::LEVELS;
use basis::OrMemory;
use std::alloc::Global;
use vast::expression::Expression;
use vast::module::{Declared, NetAssignment, Setting};
use vexpr_parse::{Cursor, Stop};
use vlex::Tokens;
use vstatement_parse::targets::target;
use vstatement_parse::values::value as read_value;
use vstatement_parse::words::name_word;

/// `name = value`
pub fn setting(
    alloc: Global,
    tokens: &Tokens<'_>,
    cursor: &mut Cursor,
) -> Result<Setting, OrMemory<Stop>>
    ensures gives { Gives setting_tree reading.setting tokens.now cursor.old cursor.new result }
    ensures kept { IfOk result (Keeps setting_leaves tokens.now cursor.old cursor.new) }
{
    let name = name_word(tokens, cursor)?;
    cursor.symbol(tokens, b"=")?;
    let value = read_value(alloc, tokens, cursor, LEVELS)?;
    Ok(Setting { name, value })
}

/// `target = value`
pub fn net_assignment(
    alloc: Global,
    tokens: &Tokens<'_>,
    cursor: &mut Cursor,
) -> Result<NetAssignment, OrMemory<Stop>>
    ensures gives { Gives net_assignment_tree reading.net_assignment tokens.now cursor.old cursor.new result }
    ensures kept { IfOk result (Keeps net_assignment_leaves tokens.now cursor.old cursor.new) }
{
    let target = target(alloc, tokens, cursor, LEVELS)?;
    cursor.symbol(tokens, b"=")?;
    let value = read_value(alloc, tokens, cursor, LEVELS)?;
    Ok(NetAssignment { target, value })
}

/// `= value`, if it stands there.
pub fn optional_value(
    alloc: Global,
    tokens: &Tokens<'_>,
    cursor: &mut Cursor,
) -> Result<Option<Box<Expression>>, OrMemory<Stop>>
    ensures gives { Gives (optional_of value_tree) optional_value
        tokens.now cursor.old cursor.new result }
    ensures kept { IfOk result (Keeps (if_some boxed_leaves) tokens.now cursor.old cursor.new) }
{
    if cursor.begins(tokens, b"=") {
        cursor.pass(tokens);
        Ok(Some(read_value(alloc, tokens, cursor, LEVELS)?))
    } else {
        Ok(None)
    }
}

/// `name`, or `name = value`
pub fn declared_name(
    alloc: Global,
    tokens: &Tokens<'_>,
    cursor: &mut Cursor,
) -> Result<Declared, OrMemory<Stop>>
    ensures gives { Gives declared_tree reading.declarator tokens.now cursor.old cursor.new result }
    ensures kept { IfOk result (Keeps declared_leaves tokens.now cursor.old cursor.new) }
{
    let name = name_word(tokens, cursor)?;
    let value = optional_value(alloc, tokens, cursor)?;
    Ok(Declared { name, value })
}
