// Types of parameters, ports, nets and variables (IEEE 1364-2005, 4.2, 4.3 and 4.10).

ghost use Rattle.std.specs.Prelude.{◌≡◌, ◌<◌, false, codes, IfOk};
ghost use Rattle.vwords.specs.Words.{is_leaf};
ghost use Rattle.vast.specs.Leaves.{if_some, range_leaves, type_leaves, parameter_type_leaves};
ghost use Rattle.vast.specs.ModuleTrees.{range_tree, type_tree, parameter_type};
ghost use Rattle.vexpr_parse.specs.Answers.{Keeps, leaves_ahead};
ghost use Rattle.vstatement_parse.specs.Gives.{Gives};
ghost use Rattle.vparse.specs.ModuleGives.{ReadsAt, TellsAt, any_parameter_type, optional_integer as integer_reader, optional_of, optional_range};
ghost use Rattle.vparse.specs.TextReaders as reading;

use basis::OrMemory;
use std::alloc::Global;
use vast::module::{Bounds, ParameterType, SignAndRange};
use vexpr_parse::{Cursor, Stop};
use vlex::Tokens;
use vstatement_parse::values::{value, value_before};

/// How deep expressions and statements nest in a module (docs/LANGUAGE.md, "Depth").
pub const LEVELS: u32 = 64;

fn range(alloc: Global, tokens: &Tokens<'_>, cursor: &mut Cursor) -> Result<Bounds, OrMemory<Stop>>
    ensures gives { Gives range_tree reading.range tokens.now cursor.old cursor.new result }
    ensures kept { IfOk result (Keeps range_leaves tokens.now cursor.old cursor.new) }
{
    cursor.symbol(tokens, b"[")?;
    let left = value(alloc, tokens, cursor, LEVELS)?;
    cursor.symbol(tokens, b":")?;
    let right = value_before(alloc, tokens, cursor, LEVELS, b"]")?;
    Ok(Bounds { left, right })
}

fn optional_range(
    alloc: Global,
    tokens: &Tokens<'_>,
    cursor: &mut Cursor,
) -> Result<Option<Bounds>, OrMemory<Stop>>
    ensures gives { Gives (optional_of range_tree) optional_range
        tokens.now cursor.old cursor.new result }
    ensures kept { IfOk result (Keeps (if_some range_leaves) tokens.now cursor.old cursor.new) }
{
    if cursor.begins(tokens, b"[") {
        Ok(Some(range(alloc, tokens, cursor)?))
    } else {
        Ok(None)
    }
}

/// Whether this very word stands here, which is passed then.
pub fn optional(tokens: &Tokens<'_>, cursor: &mut Cursor, text: &[u8]) -> bool
    ensures tells { TellsAt tokens.now text.now cursor.old cursor.new result }
    ensures kept { is_leaf text.now ≡ false →
        leaves_ahead tokens.now cursor.old ≡ leaves_ahead tokens.now cursor.new }
{
    if cursor.begins(tokens, text) {
        cursor.pass(tokens);
        true
    } else {
        false
    }
}

/// A sign and a range, each if it stands there.
#[tactic(auto, using(crate::proofs::PlainWords::signed_plain))]
pub fn sign_and_range(
    alloc: Global,
    tokens: &Tokens<'_>,
    cursor: &mut Cursor,
) -> Result<SignAndRange, OrMemory<Stop>>
    ensures gives { Gives type_tree reading.type tokens.now cursor.old cursor.new result }
    ensures kept { IfOk result (Keeps type_leaves tokens.now cursor.old cursor.new) }
{
    let signed = optional(tokens, cursor, b"signed");
    let range = optional_range(alloc, tokens, cursor)?;
    Ok(SignAndRange { signed, range })
}

/// `integer` or `time`, if one stands there: whether it is the latter.
#[tactic(auto, using(crate::proofs::PlainWords::integer_plain, crate::proofs::PlainWords::time_plain))]
pub fn optional_integer(tokens: &Tokens<'_>, cursor: &mut Cursor) -> Option<bool>
    ensures reads { ReadsAt integer_reader tokens.now cursor.old cursor.new result }
    ensures kept { leaves_ahead tokens.now cursor.old ≡ leaves_ahead tokens.now cursor.new }
{
    if cursor.begins(tokens, b"integer") {
        cursor.pass(tokens);
        Some(false)
    } else if cursor.begins(tokens, b"time") {
        cursor.pass(tokens);
        Some(true)
    } else {
        None
    }
}

fn any_parameter_type(
    alloc: Global,
    tokens: &Tokens<'_>,
    cursor: &mut Cursor,
) -> Result<ParameterType, OrMemory<Stop>>
    ensures gives { Gives parameter_type any_parameter_type tokens.now cursor.old cursor.new result }
    ensures kept { IfOk result (Keeps parameter_type_leaves tokens.now cursor.old cursor.new) }
{
    match optional_integer(tokens, cursor) {
        Some(long) => Ok(ParameterType::Integer { long }),
        None => Ok(ParameterType::Typed(sign_and_range(alloc, tokens, cursor)?)),
    }
}

/// The type of a parameter.
#[tactic(auto, using(crate::proofs::ModuleForms::parameter_type_is))]
pub fn parameter_type(
    alloc: Global,
    tokens: &Tokens<'_>,
    cursor: &mut Cursor,
) -> Result<ParameterType, OrMemory<Stop>>
    ensures gives { Gives parameter_type reading.parameter_type
        tokens.now cursor.old cursor.new result }
    ensures kept { IfOk result (Keeps parameter_type_leaves tokens.now cursor.old cursor.new) }
{
    any_parameter_type(alloc, tokens, cursor)
}
