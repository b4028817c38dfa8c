// Lists with commas in modules, up to what ends them.

ghost use Rattle.std.specs.Prelude.{◌≡◌, ◌∷◌, [], codes, IfOk};
ghost use Rattle.vast.specs.ExpressionTrees.{tree_of};
ghost use Rattle.vast.specs.Leaves.{declared_leaves, leaves_of, net_assignment_leaves, setting_leaves};
ghost use Rattle.vast.specs.ModuleTrees.{declared_tree, net_assignment as net_assignment_tree, setting_tree};
ghost use Rattle.vast.specs.TokenTexts.{token_text};
ghost use Rattle.vexpr_parse.specs.Answers.{Keeps};
ghost use Rattle.vstatement_parse.specs.Gives.{Gives};
ghost use Rattle.vparse.specs.ModuleGives.{all_leaves, all_of};
ghost use Rattle.vparse.specs.TextReaders as reading;
ghost use Rattle.vgrammar.specs.Statements as reading_words;
ghost use Rattle.vgrammar.specs.Lists.{all_until};

use crate::declarations::{declared_name, net_assignment, setting};
use crate::lists::list_until;
use crate::types::LEVELS;
use basis::OrMemory;
use std::alloc::Global;
use vast::expression::Expression;
use vast::module::{Declared, NetAssignment, Setting};
use vast::token::Token;
use vexpr_parse::{Cursor, Stop, expression};
use vlex::Tokens;
use vstatement_parse::words::name_word;

// An expression that stands in no statement.
fn value(
    alloc: Global,
    tokens: &Tokens<'_>,
    cursor: &mut Cursor,
) -> Result<Expression, OrMemory<Stop>>
    ensures gives { Gives tree_of reading.free_value tokens.now cursor.old cursor.new result }
    ensures kept { IfOk result (Keeps leaves_of tokens.now cursor.old cursor.new) }
{
    Ok(expression(alloc, tokens, cursor, LEVELS)?.tree)
}

/// Names with values, up to `;`.
#[tactic(auto, using(crate::proofs::ListKinds::setting_fewer))]
pub fn settings(
    alloc: Global,
    tokens: &Tokens<'_>,
    cursor: &mut Cursor,
) -> Result<Vec<Setting>, OrMemory<Stop>>
    ensures gives { Gives (all_of setting_tree) (all_until (codes ";") reading.setting)
        tokens.now cursor.old cursor.new result }
    ensures kept { IfOk result (Keeps (all_leaves setting_leaves)
        tokens.now cursor.old cursor.new) }
{
    let first = setting(alloc, tokens, cursor)?;
    list_until(
        alloc,
        &|cursor|
            ensures gives { Gives setting_tree reading.setting
                tokens.entry.now cursor.entry.now cursor.exit.now result }
            ensures kept { IfOk result (Keeps setting_leaves
                tokens.entry.now cursor.entry.now cursor.exit.now) }
        { setting(alloc, tokens, cursor) },
        tokens,
        cursor,
        first,
        b";",
    )
}

/// Targets with values, up to `;`.
#[tactic(auto, using(crate::proofs::ListKinds::net_assignment_fewer))]
pub fn net_assignments(
    alloc: Global,
    tokens: &Tokens<'_>,
    cursor: &mut Cursor,
) -> Result<Vec<NetAssignment>, OrMemory<Stop>>
    ensures gives { Gives (all_of net_assignment_tree) (all_until (codes ";") reading.net_assignment)
        tokens.now cursor.old cursor.new result }
    ensures kept { IfOk result (Keeps (all_leaves net_assignment_leaves)
        tokens.now cursor.old cursor.new) }
{
    let first = net_assignment(alloc, tokens, cursor)?;
    list_until(
        alloc,
        &|cursor|
            ensures gives { Gives net_assignment_tree reading.net_assignment
                tokens.entry.now cursor.entry.now cursor.exit.now result }
            ensures kept { IfOk result (Keeps net_assignment_leaves
                tokens.entry.now cursor.entry.now cursor.exit.now) }
        { net_assignment(alloc, tokens, cursor) },
        tokens,
        cursor,
        first,
        b";",
    )
}

/// Names, with values or without, up to `;`.
#[tactic(auto, using(crate::proofs::ListKinds::declared_fewer))]
pub fn declared_names(
    alloc: Global,
    tokens: &Tokens<'_>,
    cursor: &mut Cursor,
) -> Result<Vec<Declared>, OrMemory<Stop>>
    ensures gives { Gives (all_of declared_tree) (all_until (codes ";") reading.declarator)
        tokens.now cursor.old cursor.new result }
    ensures kept { IfOk result (Keeps (all_leaves declared_leaves)
        tokens.now cursor.old cursor.new) }
{
    let first = declared_name(alloc, tokens, cursor)?;
    list_until(
        alloc,
        &|cursor|
            ensures gives { Gives declared_tree reading.declarator
                tokens.entry.now cursor.entry.now cursor.exit.now result }
            ensures kept { IfOk result (Keeps declared_leaves
                tokens.entry.now cursor.entry.now cursor.exit.now) }
        { declared_name(alloc, tokens, cursor) },
        tokens,
        cursor,
        first,
        b";",
    )
}

/// Names, up to `;`.
#[tactic(auto, using(crate::proofs::ListKinds::named_fewer))]
pub fn names(
    alloc: Global,
    tokens: &Tokens<'_>,
    cursor: &mut Cursor,
) -> Result<Vec<Token>, OrMemory<Stop>>
    ensures gives { Gives (all_of token_text) (all_until (codes ";") reading_words.name_word)
        tokens.now cursor.old cursor.new result }
    ensures kept { IfOk result (Keeps (λ names. names.items) tokens.now cursor.old cursor.new) }
{
    let first = name_word(tokens, cursor)?;
    list_until(
        alloc,
        &|cursor|
            ensures gives { Gives token_text reading_words.name_word
                tokens.entry.now cursor.entry.now cursor.exit.now result }
            ensures kept { IfOk result (Keeps (λ word. word ∷ [])
                tokens.entry.now cursor.entry.now cursor.exit.now) }
        { name_word(tokens, cursor) },
        tokens,
        cursor,
        first,
        b";",
    )
}

/// Expressions, up to `)`.
#[tactic(auto, using(crate::proofs::ListKinds::value_fewer))]
pub fn values(
    alloc: Global,
    tokens: &Tokens<'_>,
    cursor: &mut Cursor,
) -> Result<Vec<Expression>, OrMemory<Stop>>
    ensures gives { Gives (all_of tree_of) (all_until (codes ")") reading.free_value)
        tokens.now cursor.old cursor.new result }
    ensures kept { IfOk result (Keeps (all_leaves leaves_of) tokens.now cursor.old cursor.new) }
{
    let first = value(alloc, tokens, cursor)?;
    list_until(
        alloc,
        &|cursor|
            ensures gives { Gives tree_of reading.free_value
                tokens.entry.now cursor.entry.now cursor.exit.now result }
            ensures kept { IfOk result (Keeps leaves_of
                tokens.entry.now cursor.entry.now cursor.exit.now) }
        { value(alloc, tokens, cursor) },
        tokens,
        cursor,
        first,
        b")",
    )
}
