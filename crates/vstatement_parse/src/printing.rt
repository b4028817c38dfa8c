// Printing tasks, after their names (IEEE 1364-2005, 17.1).

ghost use Rattle.std.specs.Prelude.{◌≡◌, ◌<◌, IfOk};
ghost use Rattle.vast.specs.Leaves.{statement_leaves};
ghost use Rattle.vexpr_parse.specs.Answers.{Keeps};
ghost use Rattle.vast.specs.StatementTrees.{statement_tree};
ghost use Rattle.vstatement_parse.specs.Gives.{Gives, all_arguments, all_argument_leaves};
ghost use Rattle.vstatement_parse.specs.Begun.{idle_at, idle_with, monitor_at, optional_arguments as optional_arguments_at, print_at, required_arguments as required_arguments_at, printed_with};

use crate::arguments::arguments;
use basis::OrMemory;
use std::alloc::Global;
use vast::statement::{Argument, Idle, Printing, Statement, Task};
use vexpr_parse::{Cursor, Stop};
use vlex::Tokens;

// The arguments between parentheses, where one stands.
fn optional_arguments(
    alloc: Global,
    tokens: &Tokens<'_>,
    cursor: &mut Cursor,
    below: u32,
) -> Result<Vec<Argument>, OrMemory<Stop>>
    ensures gives { Gives all_arguments (optional_arguments_at below)
        tokens.now cursor.old cursor.new result }
    ensures kept { IfOk result (Keeps all_argument_leaves tokens.now cursor.old cursor.new) }
{
    if cursor.begins(tokens, b"(") {
        cursor.enter(tokens, below, 1)?;
        arguments(alloc, tokens, cursor, below)
    } else {
        Ok(Vec::new(alloc))
    }
}

// The arguments between parentheses.
fn required_arguments(
    alloc: Global,
    tokens: &Tokens<'_>,
    cursor: &mut Cursor,
    below: u32,
) -> Result<Vec<Argument>, OrMemory<Stop>>
    requires { 0 < below }
    ensures gives { Gives all_arguments (required_arguments_at below)
        tokens.now cursor.old cursor.new result }
    ensures kept { IfOk result (Keeps all_argument_leaves tokens.now cursor.old cursor.new) }
{
    cursor.symbol(tokens, b"(")?;
    arguments(alloc, tokens, cursor, below)
}

// What a printing task prints, if anything, and its end.
fn printing_task(
    alloc: Global,
    tokens: &Tokens<'_>,
    cursor: &mut Cursor,
    below: u32,
    at: u32,
    kind: Printing,
) -> Result<Statement, OrMemory<Stop>>
    ensures gives { Gives statement_tree (printed_with kind (optional_arguments_at below))
        tokens.now cursor.old cursor.new result }
    ensures kept { IfOk result (Keeps statement_leaves tokens.now cursor.old cursor.new) }
{
    let arguments = optional_arguments(alloc, tokens, cursor, below)?;
    cursor.symbol(tokens, b";")?;
    Ok(Statement::Task {
        at,
        task: Task::Print { kind, arguments },
    })
}

// What a task is given that has no effect, if anything, and its end.
fn idle_task(
    alloc: Global,
    tokens: &Tokens<'_>,
    cursor: &mut Cursor,
    below: u32,
    at: u32,
    kind: Idle,
) -> Result<Statement, OrMemory<Stop>>
    ensures gives { Gives statement_tree (idle_with kind (optional_arguments_at below))
        tokens.now cursor.old cursor.new result }
    ensures kept { IfOk result (Keeps statement_leaves tokens.now cursor.old cursor.new) }
{
    let arguments = optional_arguments(alloc, tokens, cursor, below)?;
    cursor.symbol(tokens, b";")?;
    Ok(Statement::Task {
        at,
        task: Task::Idle { kind, arguments },
    })
}

// What a printing task prints, and its end.
fn monitor_task(
    alloc: Global,
    tokens: &Tokens<'_>,
    cursor: &mut Cursor,
    below: u32,
    at: u32,
    kind: Printing,
) -> Result<Statement, OrMemory<Stop>>
    requires { 0 < below }
    ensures gives { Gives statement_tree (printed_with kind (required_arguments_at below))
        tokens.now cursor.old cursor.new result }
    ensures kept { IfOk result (Keeps statement_leaves tokens.now cursor.old cursor.new) }
{
    let arguments = required_arguments(alloc, tokens, cursor, below)?;
    cursor.symbol(tokens, b";")?;
    Ok(Statement::Task {
        at,
        task: Task::Print { kind, arguments },
    })
}

/// What stands after a task that has no effect, the token of this number.
pub fn idle(
    alloc: Global,
    tokens: &Tokens<'_>,
    cursor: &mut Cursor,
    below: u32,
    at: u32,
    kind: Idle,
) -> Result<Statement, OrMemory<Stop>>
    ensures gives { Gives statement_tree (idle_at kind below)
        tokens.now cursor.old cursor.new result }
    ensures kept { IfOk result (Keeps statement_leaves tokens.now cursor.old cursor.new) }
{
    idle_task(alloc, tokens, cursor, below, at, kind)
}

/// What stands after `$display`, `$write` or `$strobe`, the token of this number (17.1.1 and 17.1.2).
pub fn print(
    alloc: Global,
    tokens: &Tokens<'_>,
    cursor: &mut Cursor,
    below: u32,
    at: u32,
    kind: Printing,
) -> Result<Statement, OrMemory<Stop>>
    ensures gives { Gives statement_tree (print_at kind below)
        tokens.now cursor.old cursor.new result }
    ensures kept { IfOk result (Keeps statement_leaves tokens.now cursor.old cursor.new) }
{
    printing_task(alloc, tokens, cursor, below, at, kind)
}

/// What stands after `$monitor`, the token of this number (17.1.3).
pub fn monitor(
    alloc: Global,
    tokens: &Tokens<'_>,
    cursor: &mut Cursor,
    below: u32,
    at: u32,
    kind: Printing,
) -> Result<Statement, OrMemory<Stop>>
    requires { 0 < below }
    ensures gives { Gives statement_tree (monitor_at kind below)
        tokens.now cursor.old cursor.new result }
    ensures kept { IfOk result (Keeps statement_leaves tokens.now cursor.old cursor.new) }
{
    monitor_task(alloc, tokens, cursor, below, at, kind)
}
