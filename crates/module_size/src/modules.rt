// Modules (IEEE 1364-2005, clauses 4 and 12).

ghost use Rattle.std.specs.Prelude.{◌≡◌, ◌-◌, List, map, option_map};
ghost use Rattle.vast.specs.NumberedTrees.{connection_tree, connections_tree, declaration_kind, declared_tree, direction_tree, head_parameter, instance_tree, item_tree, module_tree, net_assignment, parameter_type, port_tree, range_tree, setting_tree, tree_of, type_tree};
ghost use Rattle.vwords.specs.Words.{Text};
ghost use Rattle.vexpr_parse.specs.Texts.{words_of};
ghost use Rattle.module_size.specs.Sizes.{connection_size, connections_size, declaration_kind_size, declared_size, direction_size, expression_size, head_size, instance_size, item_size, module_size, net_assignment_size, parameter_type_size, port_size, range_size, setting_size, size_if, size_of, type_size};

use crate::expressions::take_expression;
use crate::parts::take_target;
use crate::statements::take_statement;
use vast::expression::Expression;
use vast::module::{
    Bounds, Connection, Connections, DeclarationKind, Declared, Direction, HeadParameter, Instance,
    ModuleItem, ModuleTree, NetAssignment, ParameterType, Port, Setting, SignAndRange,
};
use vlex::Tokens;

fn take_type(kind: &SignAndRange, left: usize) -> usize
    ensures { (words : List Text) → result ≡ left - type_size (type_tree words kind.now) }
{
    match &kind.range {
        None => left,
        Some(range) => take_range(range, left),
    }
}

fn take_range(range: &Bounds, left: usize) -> usize
    ensures { (words : List Text) → result ≡ left - range_size (range_tree words range.now) }
{
    take_expression(&range.right, take_expression(&range.left, left))
}

fn take_parameter_type(kind: &ParameterType, left: usize) -> usize
    ensures { (words : List Text) →
        result ≡ left - parameter_type_size (parameter_type words kind.now) }
{
    match kind {
        ParameterType::Integer { .. } => left,
        ParameterType::Typed(kind) => take_type(kind, left),
    }
}

fn take_setting(setting: &Setting, left: usize) -> usize
    ensures { (words : List Text) → result ≡ left - setting_size (setting_tree words setting.now) }
{
    take_expression(&setting.value, left.saturating_sub(1))
}

fn take_settings(settings: &[Setting], mut left: usize) -> usize
    ensures { (words : List Text) →
        result ≡ left - size_of setting_size (map (setting_tree words) settings.now) }
{
    for one in settings {
        left = take_setting(one, left);
    }
    left
}

fn take_net_assignment(one: &NetAssignment, left: usize) -> usize
    ensures { (words : List Text) → result ≡ left - net_assignment_size (net_assignment words one.now) }
{
    take_expression(&one.value, take_target(&one.target, left))
}

fn take_net_assignments(list: &[NetAssignment], mut left: usize) -> usize
    ensures { (words : List Text) →
        result ≡ left - size_of net_assignment_size (map (net_assignment words) list.now) }
{
    for one in list {
        left = take_net_assignment(one, left);
    }
    left
}

fn take_declared(declared: &Declared, left: usize) -> usize
    ensures { (words : List Text) →
        result ≡ left - declared_size (declared_tree words declared.now) }
{
    let left = left.saturating_sub(1);
    match &declared.value {
        None => left,
        Some(value) => take_expression(value, left),
    }
}

fn take_declarations(list: &[Declared], mut left: usize) -> usize
    ensures { (words : List Text) →
        result ≡ left - size_of declared_size (map (declared_tree words) list.now) }
{
    for one in list {
        left = take_declared(one, left);
    }
    left
}

fn take_direction(direction: &Direction, left: usize) -> usize
    ensures { (words : List Text) →
        result ≡ left - direction_size (direction_tree words direction.now) }
{
    match direction {
        Direction::Input { kind, .. } => take_type(kind, left),
        Direction::Output { kind, .. } => take_type(kind, left),
        Direction::OutputInteger { .. } => left,
    }
}

fn take_port_direction(direction: &Option<Direction>, left: usize) -> usize
    ensures { (words : List Text) → result ≡
        left - size_if direction_size (option_map (direction_tree words) direction.now) }
{
    match direction {
        None => left,
        Some(direction) => take_direction(direction, left),
    }
}

fn take_port_value(value: &Option<Box<Expression>>, left: usize) -> usize
    ensures { (words : List Text) → result ≡ left - size_if expression_size
        (option_map (λ value. tree_of words value.value) value.now) }
{
    match value {
        None => left,
        Some(value) => take_expression(value, left),
    }
}

fn take_port(port: &Port, left: usize) -> usize
    ensures { (words : List Text) → result ≡ left - port_size (port_tree words port.now) }
{
    let left = take_port_direction(&port.direction, left.saturating_sub(1));
    take_port_value(&port.value, left)
}

fn take_ports(ports: &[Port], mut left: usize) -> usize
    ensures { (words : List Text) →
        result ≡ left - size_of port_size (map (port_tree words) ports.now) }
{
    for one in ports {
        left = take_port(one, left);
    }
    left
}

fn take_head(head: &HeadParameter, left: usize) -> usize
    ensures { (words : List Text) → result ≡ left - head_size (head_parameter words head.now) }
{
    match &head.kind {
        None => take_setting(&head.setting, left),
        Some(kind) => take_setting(&head.setting, take_parameter_type(kind, left)),
    }
}

fn take_heads(heads: &[HeadParameter], mut left: usize) -> usize
    ensures { (words : List Text) →
        result ≡ left - size_of head_size (map (head_parameter words) heads.now) }
{
    for one in heads {
        left = take_head(one, left);
    }
    left
}

fn take_values(values: &[Expression], mut left: usize) -> usize
    ensures { (words : List Text) →
        result ≡ left - size_of expression_size (map (tree_of words) values.now) }
{
    for one in values {
        left = take_expression(one, left);
    }
    left
}

fn take_connection(connection: &Connection, left: usize) -> usize
    ensures { (words : List Text) →
        result ≡ left - connection_size (connection_tree words connection.now) }
{
    let left = left.saturating_sub(1);
    match &connection.value {
        None => left,
        Some(value) => take_expression(value, left),
    }
}

fn take_named(list: &[Connection], mut left: usize) -> usize
    ensures { (words : List Text) →
        result ≡ left - size_of connection_size (map (connection_tree words) list.now) }
{
    for one in list {
        left = take_connection(one, left);
    }
    left
}

fn take_connections(connections: &Connections, left: usize) -> usize
    ensures { (words : List Text) →
        result ≡ left - connections_size (connections_tree words connections.now) }
{
    if left == 0 {
        return 0;
    }
    match connections {
        Connections::ByOrder(values) => take_values(values, left),
        Connections::ByName(list) => take_named(list, left),
    }
}

fn take_overrides(overrides: &Option<Connections>, left: usize) -> usize
    ensures { (words : List Text) → result ≡
        left - size_if connections_size (option_map (connections_tree words) overrides.now) }
{
    match overrides {
        None => left,
        Some(overrides) => take_connections(overrides, left),
    }
}

fn take_instance(overrides: &Option<Connections>, instance: &Instance, left: usize) -> usize
    ensures { (words : List Text) → result ≡ left - instance_size
        (size_if connections_size (option_map (connections_tree words) overrides.now))
        (instance_tree words instance.now) }
{
    let left = take_overrides(overrides, left.saturating_sub(1));
    take_connections(&instance.connections, left)
}

fn take_instances(overrides: &Option<Connections>, list: &[Instance], mut left: usize) -> usize
    ensures { (words : List Text) → result ≡ left - size_of (instance_size
        (size_if connections_size (option_map (connections_tree words) overrides.now)))
        (map (instance_tree words) list.now) }
{
    for one in list {
        left = take_instance(overrides, one, left);
    }
    left
}

fn take_kind(kind: &DeclarationKind, left: usize) -> usize
    ensures { (words : List Text) →
        result ≡ left - declaration_kind_size (declaration_kind words kind.now) }
{
    match kind {
        DeclarationKind::Variables { kind, .. } => take_type(kind, left),
        DeclarationKind::Integers { .. } => left,
        DeclarationKind::Directed { direction } => take_direction(direction, left),
    }
}

fn take_item(tokens: &Tokens<'_>, item: &ModuleItem, path: usize, left: usize) -> usize
    ensures { result ≡ left - item_size path (item_tree (words_of tokens.now) item.now) }
{
    match item {
        ModuleItem::Parameters { kind, settings, .. } => {
            take_settings(settings, take_parameter_type(kind, left))
        }
        ModuleItem::Declaration { kind, declared, .. } => {
            take_declarations(declared, take_kind(kind, left))
        }
        ModuleItem::Events { names, .. } => left.saturating_sub(names.len()),
        ModuleItem::Assignments { list, .. } => take_net_assignments(list, left),
        ModuleItem::Initial { statement, .. } => take_statement(tokens, statement, path, left),
        ModuleItem::Always { statement, .. } => take_statement(tokens, statement, path, left),
        ModuleItem::Instances {
            overrides,
            instances,
            ..
        } => take_instances(overrides, instances, left),
    }
}

fn take_items(tokens: &Tokens<'_>, items: &[ModuleItem], path: usize, mut left: usize) -> usize
    ensures { result ≡
        left - size_of (item_size path) (map (item_tree (words_of tokens.now)) items.now) }
{
    for one in items {
        left = take_item(tokens, one, path, left);
    }
    left
}

fn take_head_parameters(heads: &Option<Vec<HeadParameter>>, left: usize) -> usize
    ensures { (words : List Text) → result ≡ left - size_if (size_of head_size)
        (option_map (λ list. map (head_parameter words) list.items) heads.now) }
{
    match heads {
        None => left,
        Some(heads) => take_heads(heads, left),
    }
}

fn take_all_ports(ports: &Option<Vec<Port>>, left: usize) -> usize
    ensures { (words : List Text) → result ≡ left - size_if (size_of port_size)
        (option_map (λ list. map (port_tree words) list.items) ports.now) }
{
    match ports {
        None => left,
        Some(ports) => take_ports(ports, left),
    }
}

/// What is left behind a module, as an instance whose path has so many letters; 0, where it has at least as much as was left.
pub fn take_module(tokens: &Tokens<'_>, unit: &ModuleTree, path: usize, left: usize) -> usize
    ensures { result ≡ left - module_size path (module_tree (words_of tokens.now) unit.now) }
{
    let left = take_all_ports(&unit.ports, take_head_parameters(&unit.parameters, left));
    take_items(tokens, &unit.items, path, left)
}
