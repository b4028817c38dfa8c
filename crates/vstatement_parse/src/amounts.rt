// How long is waited (IEEE 1364-2005, 9.7.1).

ghost use Rattle.std.specs.Prelude.{◌≡◌, ◌<◌, IfOk};
ghost use Rattle.vexpr_parse.specs.Answers.{Keeps};
ghost use Rattle.vast.specs.Leaves.{delay_leaves};
ghost use Rattle.vast.specs.StatementTrees.{delay_tree};
ghost use Rattle.vstatement_parse.specs.Gives.{Gives};
ghost use Rattle.vgrammar.specs.Statements as reading;

use crate::values::value_in_parentheses;
use basis::OrMemory;
use std::alloc::Global;
use vast::statement::Delay;
use vexpr_parse::{Cursor, Stop};
use vlex::Tokens;
use vwords::words::{is_name, is_number};

/// What stands after `#`.
#[tactic(auto, using(crate::proofs::LeafWords::number_leaf, crate::proofs::LeafWords::name_leaf))]
pub fn amount(
    alloc: Global,
    tokens: &Tokens<'_>,
    cursor: &mut Cursor,
    below: u32,
) -> Result<Delay, OrMemory<Stop>>
    requires { 0 < below }
    ensures gives { Gives delay_tree (reading.amount below)
        tokens.now cursor.old cursor.new result }
    ensures kept { IfOk result (Keeps delay_leaves tokens.now cursor.old cursor.new) }
{
    if let Some(word) = cursor.word(tokens) {
        if is_number(word.text) {
            cursor.pass(tokens);
            return Ok(Delay::Number(word.token));
        }
        if is_name(word.text) {
            cursor.pass(tokens);
            return Ok(Delay::Name(word.token));
        }
    }
    Ok(Delay::Value(value_in_parentheses(alloc, tokens, cursor, below)?))
}
