// Parameters in the heads of modules (IEEE 1364-2005, 12.2).

ghost use Rattle.std.specs.Prelude.{◌≡◌, codes, IfOk};
ghost use Rattle.vast.specs.Leaves.{head_leaves, if_some, parameter_type_leaves};
ghost use Rattle.vast.specs.ModuleTrees.{head_parameter as head_tree, parameter_type as type_tree};
ghost use Rattle.vexpr_parse.specs.Answers.{Keeps};
ghost use Rattle.vstatement_parse.specs.Gives.{Gives};
ghost use Rattle.vparse.specs.ModuleGives.{all_leaves, all_of, heads_in, optional_heads, optional_of, optional_type};
ghost use Rattle.vgrammar.specs.Modules as parts;
ghost use Rattle.vparse.specs.TextReaders as reading;
ghost use Rattle.vgrammar.specs.Parts.{map_tree};

use crate::declarations::setting;
use crate::lists::list_until;
use crate::types::parameter_type;
use basis::OrMemory;
use std::alloc::Global;
use vast::module::{HeadParameter, ParameterType};
use vexpr_parse::{Cursor, Stop};
use vlex::Tokens;

// `parameter type name = value`
#[tactic(auto, using(crate::proofs::PlainWords::parameter_plain))]
fn first_parameter(
    alloc: Global,
    tokens: &Tokens<'_>,
    cursor: &mut Cursor,
) -> Result<HeadParameter, OrMemory<Stop>>
    ensures gives { Gives head_tree reading.first_parameter
        tokens.now cursor.old cursor.new result }
    ensures kept { IfOk result (Keeps head_leaves tokens.now cursor.old cursor.new) }
{
    cursor.symbol(tokens, b"parameter")?;
    let kind = parameter_type(alloc, tokens, cursor)?;
    let setting = setting(alloc, tokens, cursor)?;
    Ok(HeadParameter {
        kind: Some(kind),
        setting,
    })
}

// `parameter type`, if it stands there.
#[tactic(auto, using(crate::proofs::PlainWords::parameter_plain))]
fn optional_type(
    alloc: Global,
    tokens: &Tokens<'_>,
    cursor: &mut Cursor,
) -> Result<Option<ParameterType>, OrMemory<Stop>>
    ensures gives { Gives (optional_of type_tree) optional_type
        tokens.now cursor.old cursor.new result }
    ensures kept { IfOk result (Keeps (if_some parameter_type_leaves)
        tokens.now cursor.old cursor.new) }
{
    if cursor.begins(tokens, b"parameter") {
        cursor.pass(tokens);
        Ok(Some(parameter_type(alloc, tokens, cursor)?))
    } else {
        Ok(None)
    }
}

// A parameter behind a comma.
fn head_parameter(
    alloc: Global,
    tokens: &Tokens<'_>,
    cursor: &mut Cursor,
) -> Result<HeadParameter, OrMemory<Stop>>
    ensures gives { Gives head_tree reading.head_parameter tokens.now cursor.old cursor.new result }
    ensures kept { IfOk result (Keeps head_leaves tokens.now cursor.old cursor.new) }
{
    let kind = optional_type(alloc, tokens, cursor)?;
    let setting = setting(alloc, tokens, cursor)?;
    Ok(HeadParameter { kind, setting })
}

// What stands behind the first parenthesis.
#[tactic(auto, using(crate::proofs::ListKinds::head_fewer))]
fn heads_in(
    alloc: Global,
    tokens: &Tokens<'_>,
    cursor: &mut Cursor,
) -> Result<Vec<HeadParameter>, OrMemory<Stop>>
    ensures gives { Gives (all_of head_tree) heads_in tokens.now cursor.old cursor.new result }
    ensures kept { IfOk result (Keeps (all_leaves head_leaves) tokens.now cursor.old cursor.new) }
{
    let first = first_parameter(alloc, tokens, cursor)?;
    list_until(
        alloc,
        &|cursor|
            ensures gives { Gives head_tree reading.head_parameter
                tokens.entry.now cursor.entry.now cursor.exit.now result }
            ensures kept { IfOk result (Keeps head_leaves
                tokens.entry.now cursor.entry.now cursor.exit.now) }
        { head_parameter(alloc, tokens, cursor) },
        tokens,
        cursor,
        first,
        b")",
    )
}

// What stands behind `#`.
#[tactic(auto, using(crate::proofs::ModuleForms::heads_is))]
fn head_parameters(
    alloc: Global,
    tokens: &Tokens<'_>,
    cursor: &mut Cursor,
) -> Result<Vec<HeadParameter>, OrMemory<Stop>>
    ensures gives { Gives (all_of head_tree) (map_tree parts.head_list_of reading.head_parameters)
        tokens.now cursor.old cursor.new result }
    ensures kept { IfOk result (Keeps (all_leaves head_leaves) tokens.now cursor.old cursor.new) }
{
    cursor.symbol(tokens, b"(")?;
    heads_in(alloc, tokens, cursor)
}

/// `#` and parameters, if they stand there.
pub fn optional_heads(
    alloc: Global,
    tokens: &Tokens<'_>,
    cursor: &mut Cursor,
) -> Result<Option<Vec<HeadParameter>>, OrMemory<Stop>>
    ensures gives { Gives (optional_of (all_of head_tree)) optional_heads
        tokens.now cursor.old cursor.new result }
    ensures kept { IfOk result (Keeps (if_some (all_leaves head_leaves))
        tokens.now cursor.old cursor.new) }
{
    if cursor.begins(tokens, b"#") {
        cursor.pass(tokens);
        Ok(Some(head_parameters(alloc, tokens, cursor)?))
    } else {
        Ok(None)
    }
}
