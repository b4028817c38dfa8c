// What modules hold.

use super::expressions::{expression, expressions, optional};
use super::page::Page;
use super::statements::statement;
use super::tasks::target;
use vast::module::{
    Bounds, Connection, Connections, DeclarationKind, Declared, Direction, Instance, ModuleItem,
    NetAssignment, NetKind, ParameterType, Setting, SignAndRange,
};

// The word of a net's kind.
fn net_word(net: NetKind) -> &'static [u8] {
    match net {
        NetKind::Wire => b"wire",
        NetKind::Reg => b"reg",
    }
}

// The word of an integer, or of a longer one.
fn integer_word(long: bool) -> &'static [u8] {
    if long { b"time" } else { b"integer" }
}

fn range(page: &mut Page<'_>, value: &Option<Bounds>) {
    match value {
        None => page.word(b"-"),
        Some(bounds) => {
            page.open(b"range");
            expression(page, &bounds.left);
            expression(page, &bounds.right);
            page.close();
        }
    }
}

/// A sign and a range.
pub fn sign_and_range(page: &mut Page<'_>, value: &SignAndRange) {
    page.open(b"type");
    page.mark(value.signed, b"signed");
    range(page, &value.range);
    page.close();
}

/// The type of a parameter.
pub fn parameter_type(page: &mut Page<'_>, value: &ParameterType) {
    match value {
        ParameterType::Integer { long } => page.empty(integer_word(*long)),
        ParameterType::Typed(kind) => sign_and_range(page, kind),
    }
}

/// A name and its value.
pub fn setting(page: &mut Page<'_>, value: &Setting) {
    page.open_with(b"set", value.name);
    expression(page, &value.value);
    page.close();
}

fn settings(page: &mut Page<'_>, list: &[Setting]) {
    for value in list {
        setting(page, value);
    }
}

fn net_assignments(page: &mut Page<'_>, list: &[NetAssignment]) {
    for one in list {
        page.open(b"set");
        target(page, &one.target);
        expression(page, &one.value);
        page.close();
    }
}

fn net(page: &mut Page<'_>, value: Option<NetKind>) {
    match value {
        None => page.word(b"-"),
        Some(net) => page.word(net_word(net)),
    }
}

/// Which way ports go.
pub fn direction(page: &mut Page<'_>, value: &Direction) {
    match value {
        Direction::Input { wire, kind } => {
            page.open(b"input");
            page.mark(*wire, b"wire");
            sign_and_range(page, kind);
            page.close();
        }
        Direction::Output { net: written, kind } => {
            page.open(b"output");
            net(page, *written);
            sign_and_range(page, kind);
            page.close();
        }
        Direction::OutputInteger { long } => {
            page.open(b"output");
            net(page, None);
            page.empty(integer_word(*long));
            page.close();
        }
    }
}

fn declaration_kind(page: &mut Page<'_>, value: &DeclarationKind) {
    match value {
        DeclarationKind::Integers { long } => page.empty(integer_word(*long)),
        DeclarationKind::Directed { direction: way } => direction(page, way),
        DeclarationKind::Variables { net, kind } => {
            page.open(net_word(*net));
            sign_and_range(page, kind);
            page.close();
        }
    }
}

fn declared(page: &mut Page<'_>, list: &[Declared]) {
    for value in list {
        page.open_with(b"declared", value.name);
        optional(page, &value.value);
        page.close();
    }
}

fn named_connections(page: &mut Page<'_>, list: &[Connection]) {
    for value in list {
        page.open_with(b"connection", value.name);
        optional(page, &value.value);
        page.close();
    }
}

fn connections(page: &mut Page<'_>, value: &Connections) {
    match value {
        Connections::ByOrder(list) => {
            page.open(b"by-order");
            expressions(page, list);
        }
        Connections::ByName(list) => {
            page.open(b"by-name");
            named_connections(page, list);
        }
    }
    page.close();
}

fn overrides(page: &mut Page<'_>, value: &Option<Connections>) {
    match value {
        None => page.word(b"-"),
        Some(value) => connections(page, value),
    }
}

fn instances(page: &mut Page<'_>, list: &[Instance]) {
    for value in list {
        page.open_with(b"instance", value.name);
        connections(page, &value.connections);
        page.close();
    }
}

fn kind(value: &ModuleItem) -> &'static [u8] {
    match value {
        ModuleItem::Parameters { local: true, .. } => b"localparam",
        ModuleItem::Parameters { local: false, .. } => b"parameter",
        ModuleItem::Declaration { .. } => b"declare",
        ModuleItem::Events { .. } => b"events",
        ModuleItem::Assignments { .. } => b"assigns",
        ModuleItem::Initial { .. } => b"initial",
        ModuleItem::Always { .. } => b"always",
        ModuleItem::Instances { .. } => b"instances",
    }
}

/// What a module holds.
pub fn item(page: &mut Page<'_>, value: &ModuleItem) {
    page.open(kind(value));
    match value {
        ModuleItem::Parameters {
            kind,
            settings: list,
            ..
        } => {
            parameter_type(page, kind);
            settings(page, list);
        }
        ModuleItem::Declaration {
            kind,
            declared: list,
            ..
        } => {
            declaration_kind(page, kind);
            declared(page, list);
        }
        ModuleItem::Events { names, .. } => page.tokens(names),
        ModuleItem::Assignments { list, .. } => net_assignments(page, list),
        ModuleItem::Initial {
            statement: body,
            ..
        } => statement(page, body),
        ModuleItem::Always {
            statement: body,
            ..
        } => statement(page, body),
        ModuleItem::Instances {
            module,
            overrides: given,
            instances: list,
        } => {
            page.token(*module);
            overrides(page, given);
            instances(page, list);
        }
    }
    page.close();
}
