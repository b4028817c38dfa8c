// What is dumped, after `$dumpvars` (IEEE 1364-2005, 18.1.2).

ghost use Rattle.std.specs.Prelude.{◌≡◌, codes, IfOk, ◌∷◌, []};
ghost use Rattle.vast.specs.Leaves.{path_leaves, selection_leaves, if_some, statement_leaves};
ghost use Rattle.vexpr_parse.specs.Answers.{Keeps, KeepsBehind};
ghost use Rattle.vast.specs.TokenTexts.{token_text};
ghost use Rattle.vast.specs.StatementTrees.{path_tree, selection_tree, statement_tree};
ghost use Rattle.vexpr_parse.specs.Readers.{past};
ghost use Rattle.vstatement_parse.specs.Gives.{Gives, all_names, all_paths, dump_vars_at, ended_paths, names_behind, optional_selection as optional_selection_at, optional_selection_tree, path_at, paths_at, word_leaves, all_name_leaves, all_path_leaves};
ghost use Rattle.vgrammar.specs.Parts.{pair};
ghost use Rattle.vgrammar.specs.Statements as reading;
ghost use Rattle.vexpr_parse.specs.Texts.{words_of};

use crate::words::{name_word, number_word};
use basis::OrMemory;
use std::alloc::Global;
use vast::statement::{Path, Selection, Statement, Task};
use vast::token::Token;
use vexpr_parse::{Cursor, Stop};
use vlex::Tokens;

// A further name, with the dot before it.
fn further_name(tokens: &Tokens<'_>, cursor: &mut Cursor) -> Result<Token, OrMemory<Stop>>
    ensures gives { Gives token_text (past (codes ".") reading.name_word)
        tokens.now cursor.old cursor.new result }
    ensures kept { IfOk result (Keeps word_leaves tokens.now cursor.old cursor.new) }
{
    cursor.symbol(tokens, b".")?;
    name_word(tokens, cursor)
}

// The names with the first one.
fn more_names(
    alloc: Global,
    tokens: &Tokens<'_>,
    cursor: &mut Cursor,
    first: Token,
) -> Result<Vec<Token>, OrMemory<Stop>>
    ensures gives { Gives all_names (names_behind (token_text (words_of tokens.now) first))
        tokens.now cursor.old cursor.new result }
    ensures kept { IfOk result (KeepsBehind (first ∷ []) all_name_leaves
        tokens.now cursor.old cursor.new) }
{
    let mut names: Vec<Token> = Vec::new(alloc);
    names.push(first)?;
    'names: while cursor.begins(tokens, b".") {
        let name = further_name(tokens, cursor)?;
        names.push(name)?;
    }
    Ok(names)
}

// Names with dots between them.
fn names(
    alloc: Global,
    tokens: &Tokens<'_>,
    cursor: &mut Cursor,
) -> Result<Vec<Token>, OrMemory<Stop>>
    ensures gives { Gives all_names path_at tokens.now cursor.old cursor.new result }
    ensures kept { IfOk result (Keeps all_name_leaves tokens.now cursor.old cursor.new) }
{
    let first = name_word(tokens, cursor)?;
    let names = more_names(alloc, tokens, cursor, first)?;
    Ok(names)
}

// A path (12.5).
#[tactic(auto, using(crate::proofs::StatementTurns::path_answers))]
fn path(alloc: Global, tokens: &Tokens<'_>, cursor: &mut Cursor) -> Result<Path, OrMemory<Stop>>
    ensures gives { Gives path_tree reading.path tokens.now cursor.old cursor.new result }
    ensures kept { IfOk result (Keeps path_leaves tokens.now cursor.old cursor.new) }
{
    let names = names(alloc, tokens, cursor)?;
    Ok(Path { names })
}

// A path, with the comma before it.
fn further_path(
    alloc: Global,
    tokens: &Tokens<'_>,
    cursor: &mut Cursor,
) -> Result<Path, OrMemory<Stop>>
    ensures gives { Gives path_tree (past (codes ",") reading.path)
        tokens.now cursor.old cursor.new result }
    ensures kept { IfOk result (Keeps path_leaves tokens.now cursor.old cursor.new) }
{
    cursor.symbol(tokens, b",")?;
    path(alloc, tokens, cursor)
}

// The paths, with a comma before each.
fn paths(
    alloc: Global,
    tokens: &Tokens<'_>,
    cursor: &mut Cursor,
) -> Result<Vec<Path>, OrMemory<Stop>>
    ensures gives { Gives all_paths paths_at tokens.now cursor.old cursor.new result }
    ensures kept { IfOk result (Keeps all_path_leaves tokens.now cursor.old cursor.new) }
{
    let mut paths: Vec<Path> = Vec::new(alloc);
    'paths: while cursor.begins(tokens, b",") {
        let path = further_path(alloc, tokens, cursor)?;
        paths.push(path)?;
    }
    Ok(paths)
}

// The paths, and the parenthesis behind them.
fn closed_paths(
    alloc: Global,
    tokens: &Tokens<'_>,
    cursor: &mut Cursor,
) -> Result<Vec<Path>, OrMemory<Stop>>
    ensures gives { Gives ended_paths (pair paths_at (reading.word_only (codes ")")))
        tokens.now cursor.old cursor.new result }
    ensures kept { IfOk result (Keeps all_path_leaves tokens.now cursor.old cursor.new) }
{
    let paths = paths(alloc, tokens, cursor)?;
    cursor.symbol(tokens, b")")?;
    Ok(paths)
}

// How many levels, and the paths, between parentheses.
fn selection(
    alloc: Global,
    tokens: &Tokens<'_>,
    cursor: &mut Cursor,
) -> Result<Selection, OrMemory<Stop>>
    ensures gives { Gives selection_tree reading.selection tokens.now cursor.old cursor.new result }
    ensures kept { IfOk result (Keeps selection_leaves tokens.now cursor.old cursor.new) }
{
    cursor.symbol(tokens, b"(")?;
    let levels = number_word(tokens, cursor)?;
    let paths = closed_paths(alloc, tokens, cursor)?;
    Ok(Selection { levels, paths })
}

// The same, where a parenthesis stands.
fn optional_selection(
    alloc: Global,
    tokens: &Tokens<'_>,
    cursor: &mut Cursor,
) -> Result<Option<Selection>, OrMemory<Stop>>
    ensures gives { Gives optional_selection_tree optional_selection_at
        tokens.now cursor.old cursor.new result }
    ensures kept { IfOk result (Keeps (if_some selection_leaves) tokens.now cursor.old cursor.new) }
{
    if cursor.begins(tokens, b"(") {
        Ok(Some(selection(alloc, tokens, cursor)?))
    } else {
        Ok(None)
    }
}

/// What stands after `$dumpvars`, the token of this number.
pub fn dump_vars(
    alloc: Global,
    tokens: &Tokens<'_>,
    cursor: &mut Cursor,
    at: u32,
) -> Result<Statement, OrMemory<Stop>>
    ensures gives { Gives statement_tree dump_vars_at tokens.now cursor.old cursor.new result }
    ensures kept { IfOk result (Keeps statement_leaves tokens.now cursor.old cursor.new) }
{
    let selected = optional_selection(alloc, tokens, cursor)?;
    cursor.symbol(tokens, b";")?;
    Ok(Statement::Task {
        at,
        task: Task::DumpVars(selected),
    })
}
