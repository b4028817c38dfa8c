// Expressions of the text, lowered to those of a design (IEEE 1364-2005, clause 5, 12.7).

ghost use Rattle.std.specs.Prelude.{◌≡◌, ◌≤◌, [], ◌∷◌, ◌++◌, true, false, List, Ok, None, length, IfOk, OnOk};
ghost use Rattle.basis.specs.Reasons.{IfFault};
ghost use Rattle.vast.specs.NumberedTrees as text;
ghost use Rattle.vast.specs.NumberedExpressions as written;
ghost use Rattle.vast.specs.NumberedWords.{word_of};
ghost use Rattle.vwords.specs.Words.{Text};
ghost use Rattle.vdesign.specs.Expressions.{ExpressionTree};
ghost use Rattle.vdesign.specs.Nodes.{nodes_of};
ghost use Rattle.vexpr_parse.specs.Texts.{words_of};
ghost use Rattle.velab_expr.specs.Answers.{Gives, Makes};
ghost use Rattle.velab_expr.specs.Resolved as spec;
ghost use Rattle.velab_expr.specs.Resolved.{lower, lower_parts, lower_joined, lower_expression, lower_constant, lower_value};
ghost use Rattle.velab_expr.specs.InnerParts as inner;
ghost use Rattle.velab_expr.specs.InnerParts.{nodes_behind};
ghost use Rattle.velab_expr.specs.Rules.{IsBroken};

use crate::constant::{count_in, part_bounds, worth_of};
use crate::fault::{ElabFault, Rule};
use crate::first::first_among;
use crate::number::constant_of;
use crate::refusal::refusal;
use crate::scope::{Operand, Scope, operand_of};
use basis::{NoMemory, OrMemory};
use std::alloc::Global;
use vast::expression::Expression as Value;
use vast::token::Token;
use vbits::Vec4;
use vdesign::expression::{Bounds, Constant, Expression, Node};
use vlex::Tokens;
use vmodules::letters::letters;
use vvalue::flaw::is_part;
use vvalue::select::part_of;

/// The most parts of a concatenation: a vector has at most 64 bits.
const MOST_PARTS: usize = 64;

// A value as it is.
fn plain(value: Vec4) -> Node
    ensures { result ∷ [] ≡ nodes_of (spec.plain value) }
{
    Node::Constant(Constant {
        value,
        spreads: false,
    })
}

// What stands for a concatenation of nothing.
fn no_parts() -> Node
    ensures { result ∷ [] ≡ nodes_of spec.no_parts }
{
    plain(Vec4::all_x(1))
}

// What stands before a part with so many behind it.
fn before_part(left: usize) -> Node
    ensures { result ≡ inner.before_part left }
{
    if left == 0 {
        Node::Conversion(false)
    } else {
        Node::Joined
    }
}

// One node more.
fn put(nodes: &mut Vec<Node>, node: Node) -> Result<(), NoMemory>
    ensures { OnOk result (nodes.new.items ≡ nodes.old.items ++ node ∷ []) }
{
    nodes.push(node)?;
    Ok(())
}

// A name alone.
fn operand_node(operand: Operand) -> Node
    ensures { result ∷ [] ≡ nodes_of (spec.operand_tree operand) }
{
    match operand {
        Operand::Variable(number) => Node::Variable(number),
        Operand::Parameter { value, .. } => plain(value),
    }
}

// What stands before the index, in `name[index]`.
fn bit_node(operand: Operand) -> Node
    ensures { (index : ExpressionTree) →
        nodes_of (spec.bit_in operand index) ≡ result ∷ nodes_of index }
{
    match operand {
        Operand::Variable(number) => Node::Bit(number),
        Operand::Parameter { value, bounds } => Node::BitOf { value, bounds },
    }
}

// Puts `name[left:right]` behind others, where both bounds are known. E306 where they are no part of a parameter.
fn put_part(
    operand: Operand,
    selection_of: Bounds,
    at: Token,
    nodes: &mut Vec<Node>,
) -> Result<(), OrMemory<ElabFault>>
    ensures { (words : List Text) → Makes result nodes.new.items
        (nodes_behind nodes.old.items (spec.part_in operand selection_of (word_of words at))) }
{
    match operand {
        Operand::Variable(variable) => Ok(put(
            nodes,
            Node::Part {
                variable,
                bounds: selection_of,
            },
        )?),
        Operand::Parameter { value, bounds } => {
            if !is_part(bounds, selection_of) {
                return Err(refusal(Rule::Width, Some(at.number)));
            }
            Ok(put(nodes, plain(part_of(value, bounds, selection_of)))?)
        }
    }
}

// The parts of a concatenation.
#[cycle(expressions)]
fn put_parts(
    alloc: Global,
    scope: &Scope<'_, '_>,
    fixed: bool,
    tokens: &Tokens<'_>,
    parts: &[Value],
    nodes: &mut Vec<Node>,
) -> Result<(), OrMemory<ElabFault>>
    ensures { Makes result nodes.new.items (nodes_behind nodes.old.items
        (lower_parts fixed scope.now (text.trees_of (words_of tokens.now) parts.now))) }
{
    if parts.is_empty() {
        return Ok(put(nodes, no_parts())?);
    }
    let mut left = parts.len();
    for one in parts {
        left -= 1;
        put(nodes, before_part(left))?;
        put_expression(alloc, scope, fixed, tokens, one, nodes)?;
    }
    Ok(())
}

/// What a constant expression is worth. E303, E306 or E307 where it is none.
#[cycle(expressions)]
pub fn worth(
    alloc: Global,
    scope: &Scope<'_, '_>,
    tokens: &Tokens<'_>,
    expression: &Value,
) -> Result<Vec4, OrMemory<ElabFault>>
    ensures { Gives result
        (lower_value scope.now (text.tree_of (words_of tokens.now) expression.now)) }
{
    let mut nodes = Vec::new(alloc);
    put_expression(alloc, scope, true, tokens, expression, &mut nodes)?;
    let lowered = Expression::new(nodes);
    worth_of(&lowered, expression)
}

// `name[index]`
#[cycle(expressions)]
fn put_bit(
    alloc: Global,
    scope: &Scope<'_, '_>,
    fixed: bool,
    tokens: &Tokens<'_>,
    index: &Value,
    name: Token,
    nodes: &mut Vec<Node>,
) -> Result<(), OrMemory<ElabFault>>
    ensures { Makes result nodes.new.items (nodes_behind nodes.old.items (lower fixed scope.now
        (written.bit (word_of (words_of tokens.now) name)
        (text.tree_of (words_of tokens.now) index.now)))) }
{
    let operand = operand_of(scope, fixed, tokens, name)?;
    put(nodes, bit_node(operand))?;
    put_expression(alloc, scope, fixed, tokens, index, nodes)
}

// The parts of a concatenation. E306 where there are more than 64, as each has a bit at least.
#[cycle(expressions)]
#[tactic(auto, using(crate::proofs::PartLemmas::parts_counted))]
fn put_joined(
    alloc: Global,
    scope: &Scope<'_, '_>,
    fixed: bool,
    tokens: &Tokens<'_>,
    parts: &[Value],
    nodes: &mut Vec<Node>,
) -> Result<(), OrMemory<ElabFault>>
    ensures { Makes result nodes.new.items (nodes_behind nodes.old.items
        (lower_joined fixed scope.now (text.trees_of (words_of tokens.now) parts.now))) }
{
    if parts.len() > MOST_PARTS {
        return Err(refusal(Rule::Width, first_among(parts)));
    }
    put_parts(alloc, scope, fixed, tokens, parts, nodes)
}

// `{count{part, part}}`, of which the count is known.
#[cycle(expressions)]
fn put_repeated(
    alloc: Global,
    scope: &Scope<'_, '_>,
    fixed: bool,
    tokens: &Tokens<'_>,
    parts: &[Value],
    count: Vec4,
    nodes: &mut Vec<Node>,
) -> Result<(), OrMemory<ElabFault>>
    ensures { Makes result nodes.new.items (nodes_behind nodes.old.items
        (spec.replicate_by count
        (lower_joined fixed scope.now (text.trees_of (words_of tokens.now) parts.now)))) }
{
    put(nodes, Node::Repeated(count_in(count)))?;
    put_joined(alloc, scope, fixed, tokens, parts, nodes)
}

// Puts the nodes that an expression of the text is lowered to behind others.
#[cycle(expressions)]
fn put_expression(
    alloc: Global,
    scope: &Scope<'_, '_>,
    fixed: bool,
    tokens: &Tokens<'_>,
    expression: &Value,
    nodes: &mut Vec<Node>,
) -> Result<(), OrMemory<ElabFault>>
    ensures { Makes result nodes.new.items (nodes_behind nodes.old.items
        (lower fixed scope.now (text.tree_of (words_of tokens.now) expression.now))) }
{
    match expression {
        Value::Number(word) => {
            Ok(put(nodes, Node::Constant(constant_of(letters(tokens, *word))))?)
        }
        Value::Name(word) => {
            let operand = operand_of(scope, fixed, tokens, *word)?;
            Ok(put(nodes, operand_node(operand))?)
        }
        Value::Time(word) => {
            if fixed {
                return Err(refusal(Rule::Constant, Some(word.number)));
            }
            Ok(put(nodes, Node::Time)?)
        }
        Value::Parentheses(inner) => put_expression(alloc, scope, fixed, tokens, inner, nodes),
        Value::Bit { name, index } => put_bit(alloc, scope, fixed, tokens, index, *name, nodes),
        Value::Part { name, left, right } => {
            let operand = operand_of(scope, fixed, tokens, *name)?;
            let left = worth(alloc, scope, tokens, left)?;
            let right = worth(alloc, scope, tokens, right)?;
            put_part(operand, part_bounds(left, right), *name, nodes)
        }
        Value::Concatenation { parts, .. } => {
            put_joined(alloc, scope, fixed, tokens, parts, nodes)
        }
        Value::Replication { count, parts, .. } => {
            let count = worth(alloc, scope, tokens, count)?;
            put_repeated(alloc, scope, fixed, tokens, parts, count, nodes)
        }
        Value::Conversion { signed, operand } => {
            put(nodes, Node::Conversion(*signed))?;
            put_expression(alloc, scope, fixed, tokens, operand, nodes)
        }
        Value::Unary { operator, operand } => {
            put(nodes, Node::Unary(*operator))?;
            put_expression(alloc, scope, fixed, tokens, operand, nodes)
        }
        Value::Binary {
            operator,
            left,
            right,
        } => {
            put(nodes, Node::Binary(*operator))?;
            put_expression(alloc, scope, fixed, tokens, left, nodes)?;
            put_expression(alloc, scope, fixed, tokens, right, nodes)
        }
        Value::Conditional {
            condition,
            when_true,
            when_false,
        } => {
            put(nodes, Node::Conditional)?;
            put_expression(alloc, scope, fixed, tokens, condition, nodes)?;
            put_expression(alloc, scope, fixed, tokens, when_true, nodes)?;
            put_expression(alloc, scope, fixed, tokens, when_false, nodes)
        }
    }
}

/// The expression of a design that an expression of the text is lowered to. E303 where a name in it is not declared, E310 where it is
/// the name of an event or an instance, E306 or E307 where what has to be constant in it is wrong.
pub fn expression_of(
    alloc: Global,
    scope: &Scope<'_, '_>,
    tokens: &Tokens<'_>,
    expression: &Value,
) -> Result<Expression, OrMemory<ElabFault>>
    ensures gives { Gives result
        (lower_expression scope.now (text.tree_of (words_of tokens.now) expression.now)) }
{
    let mut nodes = Vec::new(alloc);
    put_expression(alloc, scope, false, tokens, expression, &mut nodes)?;
    Ok(Expression::new(nodes))
}

/// The expression that a name of the text is lowered to.
pub fn expression_of_name(
    alloc: Global,
    scope: &Scope<'_, '_>,
    tokens: &Tokens<'_>,
    name: Token,
) -> Result<Expression, OrMemory<ElabFault>>
    ensures gives { Gives result
        (lower_expression scope.now (written.name (word_of (words_of tokens.now) name))) }
{
    let operand = operand_of(scope, false, tokens, name)?;
    let mut nodes = Vec::new(alloc);
    put(&mut nodes, operand_node(operand))?;
    Ok(Expression::new(nodes))
}

/// The expression that a constant of the text is lowered to. E303, E306, E307 or E310 where it is none.
pub fn constant_expression(
    alloc: Global,
    scope: &Scope<'_, '_>,
    tokens: &Tokens<'_>,
    expression: &Value,
) -> Result<Expression, OrMemory<ElabFault>>
    ensures gives { Gives result
        (lower_constant scope.now (text.tree_of (words_of tokens.now) expression.now)) }
{
    let mut nodes = Vec::new(alloc);
    put_expression(alloc, scope, true, tokens, expression, &mut nodes)?;
    let lowered = Expression::new(nodes);
    worth_of(&lowered, expression)?;
    Ok(lowered)
}

/// The expression that is one operand alone.
pub fn alone(alloc: Global, node: Node) -> Result<Expression, OrMemory<ElabFault>>
    requires { (tree : ExpressionTree) × (node ∷ [] ≡ nodes_of tree) }
    ensures ok { IfOk result (λ e. (tree : ExpressionTree) → node ∷ [] ≡ nodes_of tree → e ≡ tree) }
    ensures err { IfFault result (IsBroken None) }
{
    let mut nodes = Vec::new(alloc);
    put(&mut nodes, node)?;
    Ok(Expression::new(nodes))
}
