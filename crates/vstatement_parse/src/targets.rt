// What assignments write to (IEEE 1364-2005, A.8.5).

ghost use Rattle.std.specs.Prelude.{◌≡◌, ◌-◌, ◌<◌, codes, drop, length, IfOk, ◌∷◌, []};
ghost use Rattle.vast.specs.Leaves.{target_leaves};
ghost use Rattle.vast.specs.TokenTexts.{token_text};
ghost use Rattle.vast.specs.StatementTrees.{target_tree};
ghost use Rattle.vexpr_parse.specs.Readers.{stop};
ghost use Rattle.vstatement_parse.specs.Gives.{Gives, ReadsTargets, all_targets, in_braces, selected_tree, target_at, targets_behind, targets_within, all_target_leaves, KeepsTargets};
ghost use Rattle.vgrammar.specs.Parts.{map_tree};
ghost use Rattle.vgrammar.specs.Statements as reading;
ghost use Rattle.vexpr_parse.specs.Answers.{ahead, KeepsBehind, Keeps};
ghost use Rattle.vexpr_parse.specs.Texts.{words_of};

use crate::values::{value, value_before};
use basis::OrMemory;
use std::alloc::Global;
use vast::statement::Target;
use vast::token::Token;
use vexpr_parse::{Cursor, Stop};
use vgrammar::start::begins_target;
use vlex::Tokens;
use vwords::words::is_name;

// What stands behind `name [` (5.2.1).
fn select(
    alloc: Global,
    tokens: &Tokens<'_>,
    cursor: &mut Cursor,
    below: u32,
    name: Token,
) -> Result<Target, OrMemory<Stop>>
    requires { 0 < below }
    ensures gives { Gives target_tree (selected_tree (token_text (words_of tokens.now) name) below)
        tokens.now cursor.old cursor.new result }
    ensures kept { IfOk result (KeepsBehind (name ∷ []) target_leaves
        tokens.now cursor.old cursor.new) }
{
    let index = value(alloc, tokens, cursor, below)?;
    if cursor.begins(tokens, b":") {
        cursor.pass(tokens);
        let left = index;
        let right = value_before(alloc, tokens, cursor, below, b"]")?;
        Ok(Target::Part { name, left, right })
    } else {
        cursor.symbol(tokens, b"]")?;
        Ok(Target::Bit { name, index })
    }
}

// What stands behind a name.
fn named_target(
    alloc: Global,
    tokens: &Tokens<'_>,
    cursor: &mut Cursor,
    below: u32,
    name: Token,
) -> Result<Target, OrMemory<Stop>>
    ensures gives { Gives target_tree
        (reading.named_target below (token_text (words_of tokens.now) name))
        tokens.now cursor.old cursor.new result }
    ensures kept { IfOk result (KeepsBehind (name ∷ []) target_leaves
        tokens.now cursor.old cursor.new) }
{
    if cursor.begins(tokens, b"[") {
        cursor.enter(tokens, below, 1)?;
        select(alloc, tokens, cursor, below, name)
    } else {
        Ok(Target::Whole(name))
    }
}

// The targets behind the first one, with the commas between them.
fn more_targets<F: Fn(&mut Cursor) -> Result<Target, OrMemory<Stop>>>(
    alloc: Global,
    read: &F,
    below: u32,
    tokens: &Tokens<'_>,
    cursor: &mut Cursor,
    first: Target,
) -> Result<Vec<Target>, OrMemory<Stop>>
    requires callable { F.IsAlwaysCallable read.now }
    requires reads { ReadsTargets tokens.now below (F.post read.now) }
    requires keeps { KeepsTargets tokens.now (F.post read.now) }
    ensures gives { Gives all_targets
        (targets_behind below (target_tree (words_of tokens.now) first))
        tokens.now cursor.old cursor.new result }
    ensures kept { IfOk result (KeepsBehind (target_leaves first) all_target_leaves
        tokens.now cursor.old cursor.new) }
{
    let mut targets: Vec<Target> = Vec::new(alloc);
    targets.push(first)?;
    'targets: while cursor.begins(tokens, b",") {
        cursor.pass(tokens);
        let target = read(cursor)?;
        targets.push(target)?;
    }
    Ok(targets)
}

// The targets between braces, behind the first brace.
fn targets_within<F: Fn(&mut Cursor) -> Result<Target, OrMemory<Stop>>>(
    alloc: Global,
    read: &F,
    below: u32,
    tokens: &Tokens<'_>,
    cursor: &mut Cursor,
) -> Result<Vec<Target>, OrMemory<Stop>>
    requires callable { F.IsAlwaysCallable read.now }
    requires reads { ReadsTargets tokens.now below (F.post read.now) }
    requires keeps { KeepsTargets tokens.now (F.post read.now) }
    ensures gives { Gives all_targets (targets_within below)
        tokens.now cursor.old cursor.new result }
    ensures kept { IfOk result (Keeps all_target_leaves tokens.now cursor.old cursor.new) }
{
    let first = read(cursor)?;
    let targets = more_targets(alloc, read, below, tokens, cursor, first)?;
    cursor.symbol(tokens, b"}")?;
    Ok(targets)
}

// What stands behind `{`, the token of this number.
fn target_concatenation<F: Fn(&mut Cursor) -> Result<Target, OrMemory<Stop>>>(
    alloc: Global,
    read: &F,
    below: u32,
    tokens: &Tokens<'_>,
    cursor: &mut Cursor,
    at: u32,
) -> Result<Target, OrMemory<Stop>>
    requires callable { F.IsAlwaysCallable read.now }
    requires reads { ReadsTargets tokens.now below (F.post read.now) }
    requires keeps { KeepsTargets tokens.now (F.post read.now) }
    ensures gives { Gives target_tree (map_tree in_braces (targets_within below))
        tokens.now cursor.old cursor.new result }
    ensures kept { IfOk result (Keeps target_leaves tokens.now cursor.old cursor.new) }
{
    let targets = targets_within(alloc, read, below, tokens, cursor)?;
    Ok(Target::Joined { at, targets })
}

// A target with so many levels below it.
#[tactic(auto, using(crate::proofs::TargetTurns::gives_joined, crate::proofs::LeafWords::name_leaf))]
fn at_level<F: Fn(&mut Cursor) -> Result<Target, OrMemory<Stop>>>(
    alloc: Global,
    read: F,
    below: u32,
    tokens: &Tokens<'_>,
    cursor: &mut Cursor,
) -> Result<Target, OrMemory<Stop>>
    requires callable { F.IsAlwaysCallable read }
    requires reads { ReadsTargets tokens.now below (F.post read) }
    requires keeps { KeepsTargets tokens.now (F.post read) }
    ensures gives { Gives target_tree (target_at below) tokens.now cursor.old cursor.new result }
    ensures kept { IfOk result (Keeps target_leaves tokens.now cursor.old cursor.new) }
{
    let Some(word) = cursor.word(tokens) else {
        return Err(OrMemory::Fault(Stop::NoTree));
    };
    if is_name(word.text) {
        cursor.pass(tokens);
        named_target(alloc, tokens, cursor, below, word.token)
    } else if cursor.begins(tokens, b"{") {
        cursor.enter(tokens, below, 1)?;
        target_concatenation(alloc, &read, below, tokens, cursor, word.token.number)
    } else {
        Err(OrMemory::Fault(Stop::NoTree))
    }
}

// Why nothing is read where no level is left.
#[tactic(auto, using(crate::proofs::TargetTurns::nothing_there, crate::proofs::TargetTurns::too_deep_there, crate::proofs::TargetTurns::no_tree_there))]
fn no_level(tokens: &Tokens<'_>, cursor: &Cursor) -> Stop
    ensures { reading.target 0 (ahead tokens.now cursor.now)
        ≡ stop result (ahead tokens.now cursor.now) }
{
    match cursor.word(tokens) {
        Some(word) => {
            if begins_target(word.text) {
                Stop::TooDeep
            } else {
                Stop::NoTree
            }
        }
        None => Stop::NoTree,
    }
}

/// What an assignment writes to, of so many levels at most.
#[cycle(targets)]
pub fn target(
    alloc: Global,
    tokens: &Tokens<'_>,
    cursor: &mut Cursor,
    levels: u32,
) -> Result<Target, OrMemory<Stop>>
    ensures gives { Gives target_tree (reading.target levels)
        tokens.now cursor.old cursor.new result }
    ensures kept { IfOk result (Keeps target_leaves tokens.now cursor.old cursor.new) }
{
    if levels == 0 {
        return Err(OrMemory::Fault(no_level(tokens, cursor)));
    }
    let below = levels - 1;
    at_level(
        alloc,
        |cursor|
            ensures gives { Gives target_tree (reading.target below)
                tokens.entry.now cursor.entry.now cursor.exit.now result }
            ensures kept { IfOk result (Keeps target_leaves
                tokens.entry.now cursor.entry.now cursor.exit.now) }
        { target(alloc, tokens, cursor, below) },
        below,
        tokens,
        cursor,
    )
}
