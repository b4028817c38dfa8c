// Statements.

use super::expressions::{expression, expressions};
use super::page::Page;
use super::tasks::{delay, event, optional_delay, target, task};
use vast::expression::Expression;
use vast::statement::{Branch, Delay, Statement, Target};
use vwords::cases::CaseKind;

fn kind(value: &Statement) -> &'static [u8] {
    match value {
        Statement::Empty => b"empty",
        Statement::Block { .. } => b"block",
        Statement::Assign { .. } => b"assign",
        Statement::Nonblocking { .. } => b"nonblocking",
        Statement::Trigger { .. } => b"trigger",
        Statement::If { .. } => b"if",
        Statement::IfElse { .. } => b"if-else",
        Statement::Case {
            kind: CaseKind::Exact,
            ..
        } => b"case",
        Statement::Case {
            kind: CaseKind::Z,
            ..
        } => b"casez",
        Statement::Case {
            kind: CaseKind::X,
            ..
        } => b"casex",
        Statement::While { .. } => b"while",
        Statement::Repeat { .. } => b"repeat",
        Statement::Forever { .. } => b"forever",
        Statement::For { .. } => b"for",
        Statement::Wait { .. } => b"wait",
        Statement::Delayed { .. } => b"delayed",
        Statement::OnEvent { .. } => b"on-event",
        Statement::Task { .. } => b"task",
    }
}

fn assignment(page: &mut Page<'_>, written: &Target, amount: &Option<Delay>, value: &Expression) {
    target(page, written);
    optional_delay(page, amount);
    expression(page, value)
}

fn setting(page: &mut Page<'_>, written: &Target, value: &Expression) {
    target(page, written);
    expression(page, value)
}

// What stands in a statement before the statements within it.
fn heading(page: &mut Page<'_>, whole: &Statement) {
    match whole {
        Statement::Assign {
            target,
            delay,
            value,
            ..
        } => assignment(page, target, delay, value),
        Statement::Nonblocking {
            target,
            delay,
            value,
            ..
        } => { assignment(page, target, delay, value) }
        Statement::Block {
            name: Some(name),
            ..
        } => page.token(*name),
        Statement::Trigger { name, .. } => page.token(*name),
        Statement::If { condition, .. } => expression(page, condition),
        Statement::IfElse { condition, .. } => expression(page, condition),
        Statement::Case { value, .. } => expression(page, value),
        Statement::While { condition, .. } => expression(page, condition),
        Statement::Repeat { count, .. } => expression(page, count),
        Statement::For {
            target,
            value,
            condition,
            next_target,
            next_value,
            ..
        } => {
            setting(page, target, value);
            expression(page, condition);
            setting(page, next_target, next_value)
        }
        Statement::Wait { condition, .. } => expression(page, condition),
        Statement::Delayed { delay: amount, .. } => delay(page, amount),
        Statement::OnEvent { event: awaited, .. } => event(page, awaited),
        Statement::Task { task: call, .. } => task(page, call),
        _ => {}
    }
}

/// A statement.
#[cycle(statements)]
pub fn statement(page: &mut Page<'_>, whole: &Statement) {
    page.open(kind(whole));
    heading(page, whole);
    match whole {
        Statement::Empty => {}
        Statement::Block {
            statements: list,
            ..
        } => statements(page, list),
        Statement::Assign { .. } => {}
        Statement::Nonblocking { .. } => {}
        Statement::Trigger { .. } => {}
        Statement::If { body, .. } => statement(page, body),
        Statement::IfElse { body, other, .. } => {
            statement(page, body);
            statement(page, other);
        }
        Statement::Case { branches: list, .. } => branches(page, list),
        Statement::While { body, .. } => statement(page, body),
        Statement::Repeat { body, .. } => statement(page, body),
        Statement::Forever { body, .. } => statement(page, body),
        Statement::For { body, .. } => statement(page, body),
        Statement::Wait { body, .. } => statement(page, body),
        Statement::Delayed { body, .. } => statement(page, body),
        Statement::OnEvent { body, .. } => statement(page, body),
        Statement::Task { .. } => {}
    }
    page.close();
}

#[cycle(statements)]
fn statements(page: &mut Page<'_>, list: &[Statement]) {
    for one in list {
        statement(page, one);
    }
}

#[cycle(statements)]
fn branches(page: &mut Page<'_>, list: &[Branch]) {
    for one in list {
        branch(page, one);
    }
}

#[cycle(statements)]
fn branch(page: &mut Page<'_>, whole: &Branch) {
    match whole {
        Branch::Labelled { labels, body } => {
            page.open(b"labelled");
            page.open(b"labels");
            expressions(page, labels);
            page.close();
            statement(page, body);
        }
        Branch::Default { colon, body } => {
            page.open(b"default");
            page.mark(*colon, b"colon");
            statement(page, body);
        }
    }
    page.close();
}
