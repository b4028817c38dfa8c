// What event controls and `wait` listen to (IEEE 1364-2005, clause 9.7).

ghost use Rattle.std.specs.Prelude.{◌≡◌, ◌≤◌, List, None, Some, [], ◌∷◌, ◌++◌, length, map, option_map, IfOk, OnOk};
ghost use Rattle.vast.specs.NumberedTrees.{tree_of as text_tree, trees_of as text_trees};
ghost use Rattle.vast.specs.NumberedWords.{word_of};
ghost use Rattle.vast.specs.NumberedTrees.{target_tree, target_trees, argument_tree, task_tree, delay_tree, further_term, event_tree, statement_tree, statement_trees, branch_tree, branch_trees};
ghost use Rattle.vwords.specs.Words.{Text};
ghost use Rattle.vexpr_parse.specs.Texts.{words_of};
ghost use Rattle.velab_expr.specs.Answers.{Gives, Makes, behind};
ghost use Rattle.velab_expr.specs.Scopes.{meaning_of as spec_meaning};
ghost use Rattle.velab_process.specs.Inner.{own_read, inner_read};
ghost use Rattle.velab_process.specs.Waits as spec;
ghost use Rattle.velab_process.specs.Waits.{any_of, names_in, names_in_parts, read_by, read_by_all, read_by_target, read_by_targets, read_by_own, read_by_assignment, read_by_argument, read_by_arguments, read_by_task, read_by_delay, lower_term, lower_further, lower_control, change_terms_of, read_by_items, read_by_branch, read_by_branches};

use basis::{NoMemory, OrMemory};
use std::alloc::Global;
use vast::expression::Expression as Value;
use vast::statement::{
    Argument, Branch, Delay, Edge as Side, Event, FurtherTerm, Statement, Target, Task,
};
use vast::token::Token;
use vdesign::action::{Edge, Term, Terms};
use velab_expr::fault::{ElabFault, Rule};
use velab_expr::refusal::refusal;
use velab_expr::scope::{Meaning, Scope, meaning_of};
use vlex::Tokens;

fn edge_of(side: Option<Side>) -> Edge
    ensures { result ≡ spec.edge_of side }
{
    match side {
        None => Edge::Any,
        Some(Side::Rising) => Edge::Rise,
        Some(Side::Falling) => Edge::Fall,
    }
}

// One term more. E303 where the name stands for nothing, E310 where it is no variable's and no event's, or an event's with an edge.
fn put_term(
    scope: &Scope<'_, '_>,
    tokens: &Tokens<'_>,
    edge: Edge,
    name: Token,
    terms: &mut Vec<Term>,
) -> Result<(), OrMemory<ElabFault>>
    ensures { Makes result terms.new.items (behind terms.old.items
        (lower_term scope.now edge (word_of (words_of tokens.now) name))) }
{
    match meaning_of(scope, tokens, name) {
        None => Err(refusal(Rule::Unknown, Some(name.number))),
        Some(Meaning::Variable(variable)) => Ok(terms.push(Term::Change { edge, variable })?),
        Some(Meaning::Event(number)) if edge == Edge::Any => Ok(terms.push(Term::Event(number))?),
        Some(_) => Err(refusal(Rule::Kind, Some(name.number))),
    }
}

// Any change of the variable of this name, if it is one's.
fn put_name(
    scope: &Scope<'_, '_>,
    tokens: &Tokens<'_>,
    name: Token,
    terms: &mut Vec<Term>,
) -> Result<(), NoMemory>
    ensures { OnOk result (terms.new.items ≡ terms.old.items
        ++ change_terms_of (spec_meaning scope.now (word_of (words_of tokens.now) name))) }
{
    match meaning_of(scope, tokens, name) {
        Some(Meaning::Variable(variable)) => {
            terms.push(Term::Change {
                edge: Edge::Any,
                variable,
            })?;
            Ok(())
        }
        Some(Meaning::Parameter { .. }) => Ok(()),
        Some(Meaning::Event(_)) => Ok(()),
        Some(Meaning::Instance) => Ok(()),
        None => Ok(()),
    }
}

// Any change of each name in the parts of a concatenation.
#[cycle(naming)]
fn put_part_names(
    scope: &Scope<'_, '_>,
    tokens: &Tokens<'_>,
    parts: &[Value],
    terms: &mut Vec<Term>,
) -> Result<(), NoMemory>
    ensures { OnOk result (terms.new.items ≡ terms.old.items
        ++ any_of scope.now (names_in_parts (text_trees (words_of tokens.now) parts.now))) }
{
    for one in parts {
        put_names(scope, tokens, one, terms)?;
    }
    Ok(())
}

// Any change of each name in an expression.
#[cycle(naming)]
fn put_names(
    scope: &Scope<'_, '_>,
    tokens: &Tokens<'_>,
    expression: &Value,
    terms: &mut Vec<Term>,
) -> Result<(), NoMemory>
    ensures { OnOk result (terms.new.items ≡ terms.old.items
        ++ any_of scope.now (names_in (text_tree (words_of tokens.now) expression.now))) }
{
    match expression {
        Value::Number(_) => Ok(()),
        Value::Name(word) => put_name(scope, tokens, *word, terms),
        Value::Time(_) => Ok(()),
        Value::Parentheses(inner) => put_names(scope, tokens, inner, terms),
        Value::Bit { name, index } => {
            put_name(scope, tokens, *name, terms)?;
            put_names(scope, tokens, index, terms)
        }
        Value::Part { name, .. } => put_name(scope, tokens, *name, terms),
        Value::Concatenation { parts, .. } => put_part_names(scope, tokens, parts, terms),
        Value::Replication { parts, .. } => put_part_names(scope, tokens, parts, terms),
        Value::Conversion { operand, .. } => put_names(scope, tokens, operand, terms),
        Value::Unary { operand, .. } => put_names(scope, tokens, operand, terms),
        Value::Binary { left, right, .. } => {
            put_names(scope, tokens, left, terms)?;
            put_names(scope, tokens, right, terms)
        }
        Value::Conditional {
            condition,
            when_true,
            when_false,
        } => {
            put_names(scope, tokens, condition, terms)?;
            put_names(scope, tokens, when_true, terms)?;
            put_names(scope, tokens, when_false, terms)
        }
    }
}

// Any change of each name in the indices of what is written.
#[cycle(indexing)]
fn put_target(
    scope: &Scope<'_, '_>,
    tokens: &Tokens<'_>,
    target: &Target,
    terms: &mut Vec<Term>,
) -> Result<(), NoMemory>
    ensures { OnOk result (terms.new.items ≡ terms.old.items ++ any_of scope.now
        (read_by_target (target_tree (words_of tokens.now) target.now))) }
{
    match target {
        Target::Whole(_) => Ok(()),
        Target::Bit { index, .. } => put_names(scope, tokens, index, terms),
        Target::Part { .. } => Ok(()),
        Target::Joined { targets, .. } => put_targets(scope, tokens, targets, terms),
    }
}

// The same of the targets of a concatenation.
#[cycle(indexing)]
fn put_targets(
    scope: &Scope<'_, '_>,
    tokens: &Tokens<'_>,
    targets: &[Target],
    terms: &mut Vec<Term>,
) -> Result<(), NoMemory>
    ensures { OnOk result (terms.new.items ≡ terms.old.items ++ any_of scope.now
        (read_by_targets (target_trees (words_of tokens.now) targets.now))) }
{
    for one in targets {
        put_target(scope, tokens, one, terms)?;
    }
    Ok(())
}

fn put_delay(
    scope: &Scope<'_, '_>,
    tokens: &Tokens<'_>,
    amount: &Delay,
    terms: &mut Vec<Term>,
) -> Result<(), NoMemory>
    ensures { OnOk result (terms.new.items ≡ terms.old.items
        ++ any_of scope.now (read_by_delay (delay_tree (words_of tokens.now) amount.now))) }
{
    match amount {
        Delay::Number(_) => Ok(()),
        Delay::Name(word) => put_name(scope, tokens, *word, terms),
        Delay::Value(value) => put_names(scope, tokens, value, terms),
    }
}

// Any change of each name in the delay of an assignment, if it has one.
fn put_own(
    scope: &Scope<'_, '_>,
    tokens: &Tokens<'_>,
    amount: &Option<Delay>,
    terms: &mut Vec<Term>,
) -> Result<(), NoMemory>
    ensures { OnOk result (terms.new.items ≡ terms.old.items ++ any_of scope.now
        (read_by_own (option_map (delay_tree (words_of tokens.now)) amount.now))) }
{
    match amount {
        None => Ok(()),
        Some(amount) => put_delay(scope, tokens, amount, terms),
    }
}

// Any change of each name that an assignment reads.
fn put_assignment(
    scope: &Scope<'_, '_>,
    tokens: &Tokens<'_>,
    target: &Target,
    amount: &Option<Delay>,
    value: &Value,
    terms: &mut Vec<Term>,
) -> Result<(), NoMemory>
    ensures { OnOk result (terms.new.items ≡ terms.old.items ++ any_of scope.now
        (read_by_assignment (target_tree (words_of tokens.now) target.now)
        (option_map (delay_tree (words_of tokens.now)) amount.now)
        (text_tree (words_of tokens.now) value.now))) }
{
    put_target(scope, tokens, target, terms)?;
    put_own(scope, tokens, amount, terms)?;
    put_names(scope, tokens, value, terms)
}

// Any change of each name in an argument of a print task.
fn put_argument(
    scope: &Scope<'_, '_>,
    tokens: &Tokens<'_>,
    argument: &Argument,
    terms: &mut Vec<Term>,
) -> Result<(), NoMemory>
    ensures { OnOk result (terms.new.items ≡ terms.old.items ++ any_of scope.now
        (read_by_argument (argument_tree (words_of tokens.now) argument.now))) }
{
    match argument {
        Argument::Text(_) => Ok(()),
        Argument::Value(value) => put_names(scope, tokens, value, terms),
        Argument::LeftOut => Ok(()),
    }
}

// The same of all arguments.
fn put_arguments(
    scope: &Scope<'_, '_>,
    tokens: &Tokens<'_>,
    arguments: &[Argument],
    terms: &mut Vec<Term>,
) -> Result<(), NoMemory>
    ensures { OnOk result (terms.new.items ≡ terms.old.items ++ any_of scope.now
        (read_by_arguments (map (argument_tree (words_of tokens.now)) arguments.now))) }
{
    for one in arguments {
        put_argument(scope, tokens, one, terms)?;
    }
    Ok(())
}

// Any change of each name that a system task reads.
fn put_task(
    scope: &Scope<'_, '_>,
    tokens: &Tokens<'_>,
    task: &Task,
    terms: &mut Vec<Term>,
) -> Result<(), NoMemory>
    ensures { OnOk result (terms.new.items ≡ terms.old.items
        ++ any_of scope.now (read_by_task (task_tree (words_of tokens.now) task.now))) }
{
    match task {
        Task::Print { arguments, .. } => put_arguments(scope, tokens, arguments, terms),
        Task::Idle { .. } => Ok(()),
        Task::DumpFile(_) => Ok(()),
        Task::DumpVars(_) => Ok(()),
        Task::Dump(_) => Ok(()),
        Task::End { .. } => Ok(()),
    }
}

// Any change of each name in the items in front of a statement of a `case`.
fn put_labels(
    scope: &Scope<'_, '_>,
    tokens: &Tokens<'_>,
    labels: &[Value],
    terms: &mut Vec<Term>,
) -> Result<(), NoMemory>
    ensures { OnOk result (terms.new.items ≡ terms.old.items
        ++ any_of scope.now (read_by_items (text_trees (words_of tokens.now) labels.now))) }
{
    for label in labels {
        put_names(scope, tokens, label, terms)?;
    }
    Ok(())
}

// Any change of each name that a statement reads itself, outside of the statements that stand in it.
fn put_own_read(
    scope: &Scope<'_, '_>,
    tokens: &Tokens<'_>,
    statement: &Statement,
    terms: &mut Vec<Term>,
) -> Result<(), NoMemory>
    ensures { OnOk result (terms.new.items ≡ terms.old.items
        ++ any_of scope.now (own_read (statement_tree (words_of tokens.now) statement.now))) }
{
    match statement {
        Statement::Empty => Ok(()),
        Statement::Block { .. } => Ok(()),
        Statement::Assign {
            target,
            delay,
            value,
            ..
        } => put_assignment(scope, tokens, target, delay, value, terms),
        Statement::Nonblocking {
            target,
            delay,
            value,
            ..
        } => put_assignment(scope, tokens, target, delay, value, terms),
        Statement::Delayed { delay, .. } => put_delay(scope, tokens, delay, terms),
        Statement::Task { task, .. } => put_task(scope, tokens, task, terms),
        Statement::Trigger { .. } => Ok(()),
        Statement::If { condition, .. } => put_names(scope, tokens, condition, terms),
        Statement::IfElse { condition, .. } => put_names(scope, tokens, condition, terms),
        Statement::Case { value, .. } => put_names(scope, tokens, value, terms),
        Statement::While { condition, .. } => put_names(scope, tokens, condition, terms),
        Statement::Repeat { count, .. } => put_names(scope, tokens, count, terms),
        Statement::Forever { .. } => Ok(()),
        Statement::For {
            target,
            value,
            condition,
            next_target,
            next_value,
            ..
        } => {
            put_assignment(scope, tokens, target, &None, value, terms)?;
            put_names(scope, tokens, condition, terms)?;
            put_assignment(scope, tokens, next_target, &None, next_value, terms)
        }
        Statement::Wait { .. } => Ok(()),
        Statement::OnEvent { .. } => Ok(()),
    }
}

// Any change of each name that the statements inside a statement read.
#[cycle(reading)]
fn put_inner_read(
    scope: &Scope<'_, '_>,
    tokens: &Tokens<'_>,
    statement: &Statement,
    terms: &mut Vec<Term>,
) -> Result<(), NoMemory>
    ensures { OnOk result (terms.new.items ≡ terms.old.items
        ++ any_of scope.now (inner_read (statement_tree (words_of tokens.now) statement.now))) }
{
    match statement {
        Statement::Empty => Ok(()),
        Statement::Block { statements, .. } => put_all_read(scope, tokens, statements, terms),
        Statement::Assign { .. } => Ok(()),
        Statement::Nonblocking { .. } => Ok(()),
        Statement::Delayed { body, .. } => put_read(scope, tokens, body, terms),
        Statement::Task { .. } => Ok(()),
        Statement::Trigger { .. } => Ok(()),
        Statement::If { body, .. } => put_read(scope, tokens, body, terms),
        Statement::IfElse { body, other, .. } => {
            put_read(scope, tokens, body, terms)?;
            put_read(scope, tokens, other, terms)
        }
        Statement::Case { branches, .. } => put_branches(scope, tokens, branches, terms),
        Statement::While { body, .. } => put_read(scope, tokens, body, terms),
        Statement::Repeat { body, .. } => put_read(scope, tokens, body, terms),
        Statement::Forever { body, .. } => put_read(scope, tokens, body, terms),
        Statement::For { body, .. } => put_read(scope, tokens, body, terms),
        Statement::Wait { body, .. } => put_read(scope, tokens, body, terms),
        Statement::OnEvent { body, .. } => put_read(scope, tokens, body, terms),
    }
}

// Any change of each name that a statement reads.
#[cycle(reading)]
fn put_read(
    scope: &Scope<'_, '_>,
    tokens: &Tokens<'_>,
    statement: &Statement,
    terms: &mut Vec<Term>,
) -> Result<(), NoMemory>
    ensures { OnOk result (terms.new.items ≡ terms.old.items
        ++ any_of scope.now (read_by (statement_tree (words_of tokens.now) statement.now))) }
{
    put_own_read(scope, tokens, statement, terms)?;
    put_inner_read(scope, tokens, statement, terms)
}

#[cycle(reading)]
fn put_all_read(
    scope: &Scope<'_, '_>,
    tokens: &Tokens<'_>,
    statements: &[Statement],
    terms: &mut Vec<Term>,
) -> Result<(), NoMemory>
    ensures { OnOk result (terms.new.items ≡ terms.old.items
        ++ any_of scope.now (read_by_all (statement_trees (words_of tokens.now) statements.now))) }
{
    for statement in statements {
        put_read(scope, tokens, statement, terms)?;
    }
    Ok(())
}

#[cycle(reading)]
fn put_branches(
    scope: &Scope<'_, '_>,
    tokens: &Tokens<'_>,
    branches: &[Branch],
    terms: &mut Vec<Term>,
) -> Result<(), NoMemory>
    ensures { OnOk result (terms.new.items ≡ terms.old.items ++ any_of scope.now
        (read_by_branches (branch_trees (words_of tokens.now) branches.now))) }
{
    for branch in branches {
        put_branch(scope, tokens, branch, terms)?;
    }
    Ok(())
}

#[cycle(reading)]
fn put_branch(
    scope: &Scope<'_, '_>,
    tokens: &Tokens<'_>,
    branch: &Branch,
    terms: &mut Vec<Term>,
) -> Result<(), NoMemory>
    ensures { OnOk result (terms.new.items ≡ terms.old.items ++ any_of scope.now
        (read_by_branch (branch_tree (words_of tokens.now) branch.now))) }
{
    match branch {
        Branch::Labelled { labels, body } => {
            put_labels(scope, tokens, labels, terms)?;
            put_read(scope, tokens, body, terms)
        }
        Branch::Default { body, .. } => put_read(scope, tokens, body, terms),
    }
}

// One term more, by its edge in the text. E303 and E310 as above.
fn put_edge(
    scope: &Scope<'_, '_>,
    tokens: &Tokens<'_>,
    side: Option<Side>,
    name: Token,
    terms: &mut Vec<Term>,
) -> Result<(), OrMemory<ElabFault>>
    ensures { Makes result terms.new.items (behind terms.old.items
        (lower_term scope.now (spec.edge_of side) (word_of (words_of tokens.now) name))) }
{
    put_term(scope, tokens, edge_of(side), name, terms)
}

// A further term of an event control. E303 and E310 as above.
fn put_further_term(
    scope: &Scope<'_, '_>,
    tokens: &Tokens<'_>,
    one: &FurtherTerm,
    terms: &mut Vec<Term>,
) -> Result<(), OrMemory<ElabFault>>
    ensures { Makes result terms.new.items (behind terms.old.items (lower_term scope.now
        (spec.edge_of one.now.term.edge) (word_of (words_of tokens.now) one.now.term.name))) }
{
    put_edge(scope, tokens, one.term.edge, one.term.name, terms)
}

// The further terms of an event control.
fn put_further(
    scope: &Scope<'_, '_>,
    tokens: &Tokens<'_>,
    further: &[FurtherTerm],
    terms: &mut Vec<Term>,
) -> Result<(), OrMemory<ElabFault>>
    ensures { Makes result terms.new.items (behind terms.old.items (lower_further scope.now
        (map (further_term (words_of tokens.now)) further.now))) }
{
    let mut rest = further;
    while let Some((one, behind)) = rest.split_first() {
        put_further_term(scope, tokens, one, terms)?;
        rest = behind;
    }
    Ok(())
}

// What `@event body` listens to. E303 and E310 where a name in it is no variable's and no event's.
fn put_event(
    scope: &Scope<'_, '_>,
    tokens: &Tokens<'_>,
    event: &Event,
    body: &Statement,
    terms: &mut Vec<Term>,
) -> Result<(), OrMemory<ElabFault>>
    ensures { Makes result terms.new.items (behind terms.old.items (lower_control scope.now
        (event_tree (words_of tokens.now) event.now)
        (statement_tree (words_of tokens.now) body.now))) }
{
    match event {
        Event::Named(name) => put_term(scope, tokens, Edge::Any, *name, terms),
        Event::Any => Ok(put_read(scope, tokens, body, terms)?),
        Event::AnyEnclosed => Ok(put_read(scope, tokens, body, terms)?),
        Event::Terms { term, further } => {
            put_edge(scope, tokens, term.edge, term.name, terms)?;
            put_further(scope, tokens, further, terms)
        }
    }
}

/// What `@event body` listens to. E303 and E310 where a name in it is no variable's and no event's.
pub fn event_terms(
    alloc: Global,
    scope: &Scope<'_, '_>,
    tokens: &Tokens<'_>,
    event: &Event,
    body: &Statement,
) -> Result<Terms, OrMemory<ElabFault>>
    ensures { Gives result (lower_control scope.now
        (event_tree (words_of tokens.now) event.now)
        (statement_tree (words_of tokens.now) body.now)) }
{
    let mut terms = Vec::new(alloc);
    put_event(scope, tokens, event, body, &mut terms)?;
    Ok(Terms::new(terms))
}

/// Any change of a name in an expression: what `wait (condition)` listens to (9.7.6), and what a driven net does (6.1).
pub fn condition_terms(
    alloc: Global,
    scope: &Scope<'_, '_>,
    tokens: &Tokens<'_>,
    condition: &Value,
) -> Result<Terms, NoMemory>
    ensures { IfOk result (λ terms. terms ≡ any_of scope.now
        (names_in (text_tree (words_of tokens.now) condition.now))) }
{
    let mut terms = Vec::new(alloc);
    put_names(scope, tokens, condition, &mut terms)?;
    Ok(Terms::new(terms))
}

/// Any change of the variable of this name, if it is one's: what an output listens to (12.3.9.2).
pub fn name_terms(
    alloc: Global,
    scope: &Scope<'_, '_>,
    tokens: &Tokens<'_>,
    name: Token,
) -> Result<Terms, NoMemory>
    ensures { IfOk result (λ terms. terms ≡ any_of scope.now
        (word_of (words_of tokens.now) name ∷ [])) }
{
    let mut terms = Vec::new(alloc);
    put_name(scope, tokens, name, &mut terms)?;
    Ok(Terms::new(terms))
}
