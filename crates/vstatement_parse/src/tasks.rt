// Calls of system tasks, after their names (IEEE 1364-2005, clauses 17 and 18).

ghost use Rattle.std.specs.Prelude.{◌≡◌, IfOk};
ghost use Rattle.vexpr_parse.specs.Answers.{Keeps};
ghost use Rattle.vast.specs.Leaves.{statement_leaves, if_some};
ghost use Rattle.vast.specs.StatementTrees.{statement_tree};
ghost use Rattle.vstatement_parse.specs.Gives.{Gives, dump_at, dump_file_at, end_at, numbers_tree, optional_number_at, word_leaves};

use crate::words::{number_word, string_word};
use basis::OrMemory;
use vast::statement::{Dumping, Statement, Task};
use vast::token::Token;
use vexpr_parse::{Cursor, Stop};
use vlex::Tokens;

/// What stands after `$dumpon` and the like, the token of this number (18.1.3).
pub fn dump(
    tokens: &Tokens<'_>,
    cursor: &mut Cursor,
    at: u32,
    kind: Dumping,
) -> Result<Statement, OrMemory<Stop>>
    ensures gives { Gives statement_tree (dump_at kind) tokens.now cursor.old cursor.new result }
    ensures kept { IfOk result (Keeps statement_leaves tokens.now cursor.old cursor.new) }
{
    cursor.symbol(tokens, b";")?;
    Ok(Statement::Task {
        at,
        task: Task::Dump(kind),
    })
}

/// What stands after `$dumpfile`, the token of this number (18.1.1).
pub fn dump_file(
    tokens: &Tokens<'_>,
    cursor: &mut Cursor,
    at: u32,
) -> Result<Statement, OrMemory<Stop>>
    ensures gives { Gives statement_tree dump_file_at tokens.now cursor.old cursor.new result }
    ensures kept { IfOk result (Keeps statement_leaves tokens.now cursor.old cursor.new) }
{
    cursor.symbol(tokens, b"(")?;
    let word = string_word(tokens, cursor)?;
    cursor.symbol(tokens, b")")?;
    cursor.symbol(tokens, b";")?;
    Ok(Statement::Task {
        at,
        task: Task::DumpFile(word),
    })
}

// A number between parentheses, where one stands.
fn optional_number(
    tokens: &Tokens<'_>,
    cursor: &mut Cursor,
) -> Result<Option<Token>, OrMemory<Stop>>
    ensures gives { Gives numbers_tree optional_number_at tokens.now cursor.old cursor.new result }
    ensures kept { IfOk result (Keeps (if_some word_leaves) tokens.now cursor.old cursor.new) }
{
    if cursor.begins(tokens, b"(") {
        cursor.pass(tokens);
        let number = number_word(tokens, cursor)?;
        cursor.symbol(tokens, b")")?;
        Ok(Some(number))
    } else {
        Ok(None)
    }
}

/// What stands after `$stop` or `$finish`, the token of this number (17.4).
pub fn end_run(
    tokens: &Tokens<'_>,
    cursor: &mut Cursor,
    at: u32,
    stops: bool,
) -> Result<Statement, OrMemory<Stop>>
    ensures gives { Gives statement_tree (end_at stops) tokens.now cursor.old cursor.new result }
    ensures kept { IfOk result (Keeps statement_leaves tokens.now cursor.old cursor.new) }
{
    let number = optional_number(tokens, cursor)?;
    cursor.symbol(tokens, b";")?;
    Ok(Statement::Task {
        at,
        task: Task::End { stops, number },
    })
}
