// Labels of a case (IEEE 1364-2005, 9.5).

ghost use Rattle.std.specs.Prelude.{◌≡◌, ◌<◌, codes, IfOk};
ghost use Rattle.vexpr_parse.specs.Answers.{Keeps, KeepsBehind};
ghost use Rattle.vast.specs.Leaves.{leaves_of};
ghost use Rattle.vast.specs.ExpressionTrees.{tree_of};
ghost use Rattle.vexpr_parse.specs.Readers.{past};
ghost use Rattle.vstatement_parse.specs.Gives.{Gives};
ghost use Rattle.vstatement_parse.specs.Cases.{all_labels, labels_behind, labels_within, all_label_leaves};
ghost use Rattle.vgrammar.specs.Statements as reading;
ghost use Rattle.vexpr_parse.specs.Texts.{words_of};

use basis::OrMemory;
use std::alloc::Global;
use vast::expression::Expression;
use vexpr_parse::{Cursor, Stop, expression};
use vlex::Tokens;

// A label, with the comma before it.
fn further_label(
    alloc: Global,
    tokens: &Tokens<'_>,
    cursor: &mut Cursor,
    below: u32,
) -> Result<Expression, OrMemory<Stop>>
    requires { 0 < below }
    ensures gives { Gives tree_of (past (codes ",") (reading.value below))
        tokens.now cursor.old cursor.new result }
    ensures kept { IfOk result (Keeps leaves_of tokens.now cursor.old cursor.new) }
{
    cursor.symbol(tokens, b",")?;
    Ok(expression(alloc, tokens, cursor, below)?.tree)
}

// The labels with the first one.
fn more_labels(
    alloc: Global,
    tokens: &Tokens<'_>,
    cursor: &mut Cursor,
    below: u32,
    first: Expression,
) -> Result<Vec<Expression>, OrMemory<Stop>>
    requires some { 0 < below }
    ensures gives { Gives all_labels (labels_behind below (tree_of (words_of tokens.now) first))
        tokens.now cursor.old cursor.new result }
    ensures kept { IfOk result (KeepsBehind (leaves_of first) all_label_leaves
        tokens.now cursor.old cursor.new) }
{
    let mut labels: Vec<Expression> = Vec::new(alloc);
    labels.push(first)?;
    'labels: while cursor.begins(tokens, b",") {
        let label = further_label(alloc, tokens, cursor, below)?;
        labels.push(label)?;
    }
    Ok(labels)
}

/// The labels, and the colon after them.
pub fn labels(
    alloc: Global,
    tokens: &Tokens<'_>,
    cursor: &mut Cursor,
    below: u32,
) -> Result<Vec<Expression>, OrMemory<Stop>>
    requires { 0 < below }
    ensures gives { Gives all_labels (labels_within below) tokens.now cursor.old cursor.new result }
    ensures kept { IfOk result (Keeps all_label_leaves tokens.now cursor.old cursor.new) }
{
    let first = expression(alloc, tokens, cursor, below)?.tree;
    let labels = more_labels(alloc, tokens, cursor, below, first)?;
    cursor.symbol(tokens, b":")?;
    Ok(labels)
}
