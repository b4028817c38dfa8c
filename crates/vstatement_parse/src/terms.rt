// Names whose changes are waited for (IEEE 1364-2005, 9.7.2 and 9.7.3).

ghost use Rattle.std.specs.Prelude.{◌≡◌, IfOk};
ghost use Rattle.vast.specs.Leaves.{term_leaves, further_leaves};
ghost use Rattle.vexpr_parse.specs.Answers.{Keeps};
ghost use Rattle.vast.specs.StatementTrees.{term_tree, further_term as further_tree};
ghost use Rattle.vstatement_parse.specs.Gives.{Gives, itself, optional_edge, no_leaves};
ghost use Rattle.vgrammar.specs.Parts.{word_as};
ghost use Rattle.vgrammar.specs.Starts.{comma_of};
ghost use Rattle.vgrammar.specs.Statements as reading;

use crate::words::name_word;
use basis::OrMemory;
use vast::statement::{Edge, FurtherTerm, Term};
use vexpr_parse::{Cursor, Stop};
use vlex::Tokens;

// `posedge` or `negedge`, where one stands.
#[tactic(auto, using(crate::proofs::LeafWords::posedge_plain, crate::proofs::LeafWords::negedge_plain))]
fn edge(tokens: &Tokens<'_>, cursor: &mut Cursor) -> Result<Option<Edge>, OrMemory<Stop>>
    ensures gives { Gives itself optional_edge tokens.now cursor.old cursor.new result }
    ensures kept { IfOk result (Keeps no_leaves tokens.now cursor.old cursor.new) }
{
    if cursor.begins(tokens, b"posedge") {
        cursor.pass(tokens);
        Ok(Some(Edge::Rising))
    } else if cursor.begins(tokens, b"negedge") {
        cursor.pass(tokens);
        Ok(Some(Edge::Falling))
    } else {
        Ok(None)
    }
}

/// A name, with the edge before it.
pub fn read_term(tokens: &Tokens<'_>, cursor: &mut Cursor) -> Result<Term, OrMemory<Stop>>
    ensures gives { Gives term_tree reading.term tokens.now cursor.old cursor.new result }
    ensures kept { IfOk result (Keeps term_leaves tokens.now cursor.old cursor.new) }
{
    let edge = edge(tokens, cursor)?;
    let name = name_word(tokens, cursor)?;
    Ok(Term { edge, name })
}

// `,` or `or`: whether it is the comma.
#[tactic(auto, using(crate::proofs::LeafWords::or_plain))]
fn comma(tokens: &Tokens<'_>, cursor: &mut Cursor) -> Result<bool, OrMemory<Stop>>
    ensures gives { Gives itself (word_as comma_of) tokens.now cursor.old cursor.new result }
    ensures kept { IfOk result (Keeps no_leaves tokens.now cursor.old cursor.new) }
{
    if cursor.begins(tokens, b",") {
        cursor.pass(tokens);
        Ok(true)
    } else if cursor.begins(tokens, b"or") {
        cursor.pass(tokens);
        Ok(false)
    } else {
        Err(OrMemory::Fault(Stop::NoTree))
    }
}

/// A further name, after a comma or `or`.
pub fn further_term(tokens: &Tokens<'_>, cursor: &mut Cursor) -> Result<FurtherTerm, OrMemory<Stop>>
    ensures gives { Gives further_tree reading.further_term
        tokens.now cursor.old cursor.new result }
    ensures kept { IfOk result (Keeps further_leaves tokens.now cursor.old cursor.new) }
{
    let by_comma = comma(tokens, cursor)?;
    let term = read_term(tokens, cursor)?;
    Ok(FurtherTerm { by_comma, term })
}
