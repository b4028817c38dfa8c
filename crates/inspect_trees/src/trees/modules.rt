// Modules, and texts of them.

use super::expressions::optional;
use super::items::{direction, item, parameter_type, setting};
use super::page::Page;
use vast::module::{
    Direction, HeadParameter, ModuleItem, ModuleTree, ParameterType, Port, TextTree,
};

fn head_type(page: &mut Page<'_>, value: &Option<ParameterType>) {
    match value {
        None => page.word(b"-"),
        Some(kind) => parameter_type(page, kind),
    }
}

fn head_parameters(page: &mut Page<'_>, list: &[HeadParameter]) {
    for value in list {
        page.open(b"head");
        head_type(page, &value.kind);
        setting(page, &value.setting);
        page.close();
    }
}

fn parameters(page: &mut Page<'_>, value: &Option<Vec<HeadParameter>>) {
    match value {
        None => page.word(b"-"),
        Some(list) => {
            page.open(b"parameters");
            head_parameters(page, list);
            page.close();
        }
    }
}

fn optional_direction(page: &mut Page<'_>, value: &Option<Direction>) {
    match value {
        None => page.word(b"-"),
        Some(value) => direction(page, value),
    }
}

fn port_list(page: &mut Page<'_>, list: &[Port]) {
    for port in list {
        page.open(b"port");
        optional_direction(page, &port.direction);
        page.token(port.name);
        optional(page, &port.value);
        page.close();
    }
}

fn ports(page: &mut Page<'_>, value: &Option<Vec<Port>>) {
    match value {
        None => page.word(b"-"),
        Some(list) => {
            page.open(b"ports");
            port_list(page, list);
            page.close();
        }
    }
}

fn items(page: &mut Page<'_>, list: &[ModuleItem]) {
    for value in list {
        item(page, value);
    }
}

fn module(page: &mut Page<'_>, value: &ModuleTree) {
    page.open_with(b"module", value.name);
    parameters(page, &value.parameters);
    ports(page, &value.ports);
    items(page, &value.items);
    page.close();
}

/// A whole text.
pub fn text(page: &mut Page<'_>, value: &TextTree) {
    page.line.put(b"(text");
    for tree in &value.modules {
        module(page, tree);
    }
    page.close();
}
