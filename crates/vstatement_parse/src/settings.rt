// What a `for` writes (IEEE 1364-2005, 9.6).

ghost use Rattle.std.specs.Prelude.{◌≡◌, ◌<◌, IfOk};
ghost use Rattle.vexpr_parse.specs.Answers.{Keeps};
ghost use Rattle.vstatement_parse.specs.Gives.{Gives, setting_tree, setting_leaves};
ghost use Rattle.vgrammar.specs.Statements as reading;

use crate::targets::target;
use crate::values::value;
use basis::OrMemory;
use std::alloc::Global;
use vast::expression::Expression;
use vast::statement::Target;
use vexpr_parse::{Cursor, Stop};
use vlex::Tokens;

/// `target = value`
#[derive(Drop)]
pub struct Setting {
    pub target: Target,
    pub value: Box<Expression>,
}

/// `target = value`
pub fn read_setting(
    alloc: Global,
    tokens: &Tokens<'_>,
    cursor: &mut Cursor,
    below: u32,
) -> Result<Setting, OrMemory<Stop>>
    requires { 0 < below }
    ensures gives { Gives setting_tree (reading.setting below)
        tokens.now cursor.old cursor.new result }
    ensures kept { IfOk result (Keeps setting_leaves tokens.now cursor.old cursor.new) }
{
    let target = target(alloc, tokens, cursor, below)?;
    cursor.symbol(tokens, b"=")?;
    let value = value(alloc, tokens, cursor, below)?;
    Ok(Setting { target, value })
}
