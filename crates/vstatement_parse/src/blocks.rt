// Blocks (IEEE 1364-2005, 9.8.1).

ghost use Rattle.std.specs.Prelude.{◌≡◌, IfOk};
ghost use Rattle.vast.specs.Leaves.{statement_leaves, if_some};
ghost use Rattle.vexpr_parse.specs.Answers.{Keeps};
ghost use Rattle.vast.specs.StatementTrees.{statement_tree};
ghost use Rattle.vstatement_parse.specs.Gives.{Gives, ReadsStatements, all_statements, block_at, block_list, ended_list, all_statement_leaves, KeepsStatements, block_name_text, word_leaves};
ghost use Rattle.vgrammar.specs.Statements as reading;

use crate::words::name_word;
use basis::OrMemory;
use std::alloc::Global;
use vast::statement::Statement;
use vast::token::Token;
use vexpr_parse::{Cursor, Stop};
use vlex::Tokens;

// The statements before `end`.
fn list<F: Fn(&mut Cursor) -> Result<Statement, OrMemory<Stop>>>(
    alloc: Global,
    read: &F,
    below: u32,
    tokens: &Tokens<'_>,
    cursor: &mut Cursor,
) -> Result<Vec<Statement>, OrMemory<Stop>>
    requires callable { F.IsAlwaysCallable read.now }
    requires reads { ReadsStatements tokens.now below (F.post read.now) }
    requires keeps { KeepsStatements tokens.now (F.post read.now) }
    ensures gives { Gives all_statements (block_list below)
        tokens.now cursor.old cursor.new result }
    ensures kept { IfOk result (Keeps all_statement_leaves tokens.now cursor.old cursor.new) }
{
    let mut list: Vec<Statement> = Vec::new(alloc);
    'list: while !cursor.begins(tokens, b"end") {
        let statement = read(cursor)?;
        list.push(statement)?;
    }
    Ok(list)
}

// The statements, and `end` behind them.
#[tactic(auto, using(crate::proofs::LeafWords::end_plain))]
fn within<F: Fn(&mut Cursor) -> Result<Statement, OrMemory<Stop>>>(
    alloc: Global,
    read: &F,
    below: u32,
    tokens: &Tokens<'_>,
    cursor: &mut Cursor,
) -> Result<Vec<Statement>, OrMemory<Stop>>
    requires callable { F.IsAlwaysCallable read.now }
    requires reads { ReadsStatements tokens.now below (F.post read.now) }
    requires keeps { KeepsStatements tokens.now (F.post read.now) }
    ensures gives { Gives ended_list (reading.ended_statements (reading.statement below))
        tokens.now cursor.old cursor.new result }
    ensures kept { IfOk result (Keeps all_statement_leaves tokens.now cursor.old cursor.new) }
{
    let list = list(alloc, read, below, tokens, cursor)?;
    cursor.symbol(tokens, b"end")?;
    Ok(list)
}

// `:` and a name, where they stand.
fn name(tokens: &Tokens<'_>, cursor: &mut Cursor) -> Result<Option<Token>, OrMemory<Stop>>
    ensures gives { Gives block_name_text reading.block_name
        tokens.now cursor.old cursor.new result }
    ensures kept { IfOk result (Keeps (if_some word_leaves) tokens.now cursor.old cursor.new) }
{
    if cursor.begins(tokens, b":") {
        cursor.pass(tokens);
        Ok(Some(name_word(tokens, cursor)?))
    } else {
        Ok(None)
    }
}

/// What stands after `begin`.
pub fn block<F: Fn(&mut Cursor) -> Result<Statement, OrMemory<Stop>>>(
    alloc: Global,
    read: &F,
    below: u32,
    tokens: &Tokens<'_>,
    cursor: &mut Cursor,
) -> Result<Statement, OrMemory<Stop>>
    requires callable { F.IsAlwaysCallable read.now }
    requires reads { ReadsStatements tokens.now below (F.post read.now) }
    requires keeps { KeepsStatements tokens.now (F.post read.now) }
    ensures gives { Gives statement_tree (block_at below) tokens.now cursor.old cursor.new result }
    ensures kept { IfOk result (Keeps statement_leaves tokens.now cursor.old cursor.new) }
{
    let name = name(tokens, cursor)?;
    let statements = within(alloc, read, below, tokens, cursor)?;
    Ok(Statement::Block { name, statements })
}
