// Statements, each by its first word (IEEE 1364-2005, A.6.4).

ghost use Rattle.std.specs.Prelude.{◌≡◌, ◌-◌, ◌<◌, true, length, nat_le, [], IfOk};
ghost use Rattle.vast.specs.Leaves.{statement_leaves};
ghost use Rattle.vast.specs.StatementTrees.{statement_tree};
ghost use Rattle.vexpr_parse.specs.Readers.{stop};
ghost use Rattle.vstatement_parse.specs.Gives.{Gives, ReadsStatements, KeepsStatements};
ghost use Rattle.vstatement_parse.specs.Begun.{begun_at, behind_word as behind_word_at, levels_of as levels_of_start, statement_at};
ghost use Rattle.vgrammar.specs.Statements as reading;
ghost use Rattle.vexpr_parse.specs.Answers.{ahead, leaf_here, Keeps};

use crate::assignments::{assignment, trigger};
use crate::blocks::block;
use crate::cases::case_statement;
use crate::conditions::conditional;
use crate::events::waiting;
use crate::guarded::{delayed_statement, forever, guarded_statement};
use crate::loops::for_statement;
use crate::paths::dump_vars;
use crate::printing::{idle, monitor, print};
use crate::tasks::{dump, dump_file, end_run};
use basis::OrMemory;
use std::alloc::Global;
use vast::statement::{Printing, Statement};
use vexpr_parse::{Cursor, Stop};
use vgrammar::start::{StatementStart, begins_target, start_of};
use vlex::Tokens;

// How many levels must be left below the first word.
fn levels_of(start: StatementStart) -> u64
    ensures { result ≡ levels_of_start start }
{
    match start {
        StatementStart::Empty => 0,
        StatementStart::Begin => 0,
        StatementStart::Trigger => 1,
        StatementStart::If => 1,
        StatementStart::Case(_) => 1,
        StatementStart::Guarded(_) => 1,
        StatementStart::Forever => 1,
        StatementStart::For => 1,
        StatementStart::Delay => 1,
        StatementStart::Event => 1,
        StatementStart::Print(Printing::Display(_)) => 0,
        StatementStart::Print(Printing::Write(_)) => 0,
        StatementStart::Print(Printing::Strobe(_)) => 0,
        StatementStart::Print(Printing::Monitor(_)) => 1,
        StatementStart::Idle(_) => 0,
        StatementStart::DumpFile => 1,
        StatementStart::DumpVars => 0,
        StatementStart::Dump(_) => 0,
        StatementStart::End(_) => 0,
    }
}

// What stands behind the first word of a task that prints, the token of this number.
fn task_that_prints(
    alloc: Global,
    tokens: &Tokens<'_>,
    cursor: &mut Cursor,
    below: u32,
    at: u32,
    kind: Printing,
) -> Result<Statement, OrMemory<Stop>>
    requires room { nat_le (levels_of_start (StatementStart.Print kind)) below ≡ true }
    ensures gives { Gives statement_tree (behind_word_at below (StatementStart.Print kind))
        tokens.now cursor.old cursor.new result }
    ensures kept { IfOk result (Keeps statement_leaves tokens.now cursor.old cursor.new) }
{
    match kind {
        Printing::Display(_) => print(alloc, tokens, cursor, below, at, kind),
        Printing::Write(_) => print(alloc, tokens, cursor, below, at, kind),
        Printing::Strobe(_) => print(alloc, tokens, cursor, below, at, kind),
        Printing::Monitor(_) => monitor(alloc, tokens, cursor, below, at, kind),
    }
}

// What stands behind the first word, the token of this number.
fn behind_word<F: Fn(&mut Cursor) -> Result<Statement, OrMemory<Stop>>>(
    alloc: Global,
    read: &F,
    below: u32,
    tokens: &Tokens<'_>,
    cursor: &mut Cursor,
    at: u32,
    start: StatementStart,
) -> Result<Statement, OrMemory<Stop>>
    requires room { nat_le (levels_of_start start) below ≡ true }
    requires callable { F.IsAlwaysCallable read.now }
    requires reads { ReadsStatements tokens.now below (F.post read.now) }
    requires keeps { KeepsStatements tokens.now (F.post read.now) }
    ensures gives { Gives statement_tree (behind_word_at below start)
        tokens.now cursor.old cursor.new result }
    ensures kept { IfOk result (Keeps statement_leaves tokens.now cursor.old cursor.new) }
{
    match start {
        StatementStart::Empty => Ok(Statement::Empty),
        StatementStart::Begin => block(alloc, read, below, tokens, cursor),
        StatementStart::Trigger => trigger(tokens, cursor, at),
        StatementStart::If => conditional(alloc, read, below, tokens, cursor, at),
        StatementStart::Case(kind) => case_statement(alloc, read, below, tokens, cursor, at, kind),
        StatementStart::Guarded(guard) => guarded_statement(
            alloc, read, below, tokens, cursor, at, guard,
        ),
        StatementStart::Forever => forever(alloc, read, below, tokens, cursor, at),
        StatementStart::For => for_statement(alloc, read, below, tokens, cursor, at),
        StatementStart::Delay => delayed_statement(alloc, read, below, tokens, cursor, at),
        StatementStart::Event => waiting(alloc, read, below, tokens, cursor, at),
        StatementStart::Print(kind) => task_that_prints(alloc, tokens, cursor, below, at, kind),
        StatementStart::Idle(kind) => idle(alloc, tokens, cursor, below, at, kind),
        StatementStart::DumpFile => dump_file(tokens, cursor, at),
        StatementStart::DumpVars => dump_vars(alloc, tokens, cursor, at),
        StatementStart::Dump(kind) => dump(tokens, cursor, at, kind),
        StatementStart::End(stops) => end_run(tokens, cursor, at, stops),
    }
}

// A statement that begins so.
#[tactic(auto, using(crate::proofs::LevelTurns::too_low))]
fn statement_by_word<F: Fn(&mut Cursor) -> Result<Statement, OrMemory<Stop>>>(
    alloc: Global,
    read: &F,
    below: u32,
    tokens: &Tokens<'_>,
    cursor: &mut Cursor,
    at: u32,
    start: StatementStart,
) -> Result<Statement, OrMemory<Stop>>
    requires word { 0 < length (ahead tokens.now cursor.old) }
    requires plain { leaf_here tokens.now cursor.old ≡ [] }
    requires callable { F.IsAlwaysCallable read.now }
    requires reads { ReadsStatements tokens.now below (F.post read.now) }
    requires keeps { KeepsStatements tokens.now (F.post read.now) }
    ensures gives { Gives statement_tree (begun_at below start)
        tokens.now cursor.old cursor.new result }
    ensures kept { IfOk result (Keeps statement_leaves tokens.now cursor.old cursor.new) }
{
    cursor.enter(tokens, below, levels_of(start))?;
    behind_word(alloc, read, below, tokens, cursor, at, start)
}

// A statement with so many levels below it, each of which is read by `read`.
#[tactic(auto, using(crate::proofs::LevelTurns::nothing_at, crate::proofs::LevelTurns::low_target, crate::proofs::LevelTurns::no_start))]
fn at_level<F: Fn(&mut Cursor) -> Result<Statement, OrMemory<Stop>>>(
    alloc: Global,
    read: &F,
    below: u32,
    tokens: &Tokens<'_>,
    cursor: &mut Cursor,
) -> Result<Statement, OrMemory<Stop>>
    requires callable { F.IsAlwaysCallable read.now }
    requires reads { ReadsStatements tokens.now below (F.post read.now) }
    requires keeps { KeepsStatements tokens.now (F.post read.now) }
    ensures gives { Gives statement_tree (statement_at below)
        tokens.now cursor.old cursor.new result }
    ensures kept { IfOk result (Keeps statement_leaves tokens.now cursor.old cursor.new) }
{
    let Some(word) = cursor.word(tokens) else {
        return Err(OrMemory::Fault(Stop::NoTree));
    };
    if begins_target(word.text) {
        if below == 0 {
            return Err(OrMemory::Fault(Stop::TooDeep));
        }
        return assignment(alloc, tokens, cursor, below, word.token.number);
    }
    match start_of(word.text) {
        None => Err(OrMemory::Fault(Stop::NoTree)),
        Some(start) => statement_by_word(
            alloc,
            read,
            below,
            tokens,
            cursor,
            word.token.number,
            start,
        ),
    }
}

// Whether a word begins a statement.
fn begins_statement(word: &[u8]) -> bool
    ensures { result ≡ reading.begins_statement word.now }
{
    if begins_target(word) {
        return true;
    }
    match start_of(word) {
        None => false,
        Some(_) => true,
    }
}

// Why nothing is read where no level is left.
#[tactic(auto, using(crate::proofs::LevelTurns::nothing_there, crate::proofs::LevelTurns::too_deep_there, crate::proofs::LevelTurns::no_tree_there))]
fn no_level(tokens: &Tokens<'_>, cursor: &Cursor) -> Stop
    ensures { reading.statement 0 (ahead tokens.now cursor.now)
        ≡ stop result (ahead tokens.now cursor.now) }
{
    match cursor.word(tokens) {
        Some(word) => {
            if begins_statement(word.text) {
                Stop::TooDeep
            } else {
                Stop::NoTree
            }
        }
        None => Stop::NoTree,
    }
}

/// A statement of so many levels at most (clause 9 and A.6.4). The cursor is left after it, or at the first word with
/// which the words before it begin none: of any depth (`NoTree`), or only for want of a level (`TooDeep`). Want of memory
/// leaves it anywhere.
#[cycle(statements)]
pub fn statement(
    alloc: Global,
    tokens: &Tokens<'_>,
    cursor: &mut Cursor,
    levels: u32,
) -> Result<Statement, OrMemory<Stop>>
    ensures gives { Gives statement_tree (reading.statement levels)
        tokens.now cursor.old cursor.new result }
    ensures kept { IfOk result (Keeps statement_leaves tokens.now cursor.old cursor.new) }
{
    if levels == 0 {
        return Err(OrMemory::Fault(no_level(tokens, cursor)));
    }
    let below = levels - 1;
    at_level(
        alloc,
        &|cursor|
            ensures gives { Gives statement_tree (reading.statement below)
                tokens.entry.now cursor.entry.now cursor.exit.now result }
            ensures kept { IfOk result (Keeps statement_leaves
                tokens.entry.now cursor.entry.now cursor.exit.now) }
        { statement(alloc, tokens, cursor, below) },
        below,
        tokens,
        cursor,
    )
}
