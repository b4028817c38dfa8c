// Parts of modules (IEEE 1364-2005, clauses 4 and 12).

ghost use Rattle.std.specs.Prelude.{◌≡◌, ◌-◌, List, map, option_map};
ghost use Rattle.vast.specs.NumberedTrees.{connection_tree, connections_tree, declaration_kind, declared_tree, direction_tree, head_parameter, instance_tree, net_assignment, parameter_type, port_tree, range_tree, setting_tree, tree_of, type_tree};
ghost use Rattle.vwords.specs.Words.{Text};
ghost use Rattle.action_origins.specs.Lengths.{connection_length, connections_length, declaration_kind_length, declared_length, direction_length, expression_length, head_parameter_length, head_parameters_length, instance_length, kind_length, length_if, length_of_each, list_length, net_assignment_length, overrides_length, parameter_type_length, port_length, ports_length, range_length, setting_length, type_length, value_length, word_if, word_where};

use crate::expressions::{past_end, past_expression};
use crate::parts::past_pair;
use vast::expression::Expression;
use vast::module::{
    Bounds, Connection, Connections, DeclarationKind, Declared, Direction, HeadParameter, Instance,
    NetAssignment, NetKind, ParameterType, Port, Setting, SignAndRange,
};

fn past_word(is_there: bool, left: usize) -> usize
    ensures { result ≡ left - word_where is_there }
{
    if is_there {
        left.saturating_sub(1)
    } else {
        left
    }
}

fn past_range(range: &Bounds, left: usize) -> usize
    ensures { (words : List Text) → result ≡ left - range_length (range_tree words range.now) }
{
    past_expression(
        &range.right,
        past_expression(&range.left, left.saturating_sub(3)),
    )
}

fn past_type(kind: &SignAndRange, left: usize) -> usize
    ensures { (words : List Text) → result ≡ left - type_length (type_tree words kind.now) }
{
    let left = past_word(kind.signed, left);
    match &kind.range {
        None => left,
        Some(range) => past_range(range, left),
    }
}

/// What is left behind the type of a parameter.
pub fn past_parameter_type(kind: &ParameterType, left: usize) -> usize
    ensures { (words : List Text) →
        result ≡ left - parameter_type_length (parameter_type words kind.now) }
{
    match kind {
        ParameterType::Integer { .. } => left.saturating_sub(1),
        ParameterType::Typed(kind) => past_type(kind, left),
    }
}

fn past_setting(setting: &Setting, left: usize) -> usize
    ensures { (words : List Text) →
        result ≡ left - setting_length (setting_tree words setting.now) }
{
    past_expression(&setting.value, left.saturating_sub(2))
}

fn past_each_setting(settings: &[Setting], mut left: usize) -> usize
    ensures { (words : List Text) →
        result ≡ left - length_of_each setting_length (map (setting_tree words) settings.now) }
{
    for one in settings {
        left = past_setting(one, left).saturating_sub(1);
    }
    left
}

/// What is left behind settings and the word that ends them.
pub fn past_settings(settings: &[Setting], left: usize) -> usize
    ensures { (words : List Text) →
        result ≡ left - list_length setting_length (map (setting_tree words) settings.now) }
{
    past_each_setting(settings, past_end(settings.is_empty(), left))
}

/// What is left behind one part of an `assign`.
pub fn past_net_assignment(one: &NetAssignment, left: usize) -> usize
    ensures { (words : List Text) →
        result ≡ left - net_assignment_length (net_assignment words one.now) }
{
    past_pair(&one.target, &one.value, left)
}

fn past_each_net_assignment(list: &[NetAssignment], mut left: usize) -> usize
    ensures { (words : List Text) →
        result ≡ left - length_of_each net_assignment_length (map (net_assignment words) list.now) }
{
    for one in list {
        left = past_net_assignment(one, left).saturating_sub(1);
    }
    left
}

/// What is left behind the parts of an `assign` and the word that ends them.
pub fn past_net_assignments(list: &[NetAssignment], left: usize) -> usize
    ensures { (words : List Text) →
        result ≡ left - list_length net_assignment_length (map (net_assignment words) list.now) }
{
    past_each_net_assignment(list, past_end(list.is_empty(), left))
}

fn past_value(value: &Option<Box<Expression>>, left: usize) -> usize
    ensures { (words : List Text) → result ≡ left - length_if value_length
        (option_map (λ value. tree_of words value.value) value.now) }
{
    match value {
        None => left,
        Some(value) => past_expression(value, left.saturating_sub(1)),
    }
}

fn past_declared(declared: &Declared, left: usize) -> usize
    ensures { (words : List Text) →
        result ≡ left - declared_length (declared_tree words declared.now) }
{
    past_value(&declared.value, left.saturating_sub(1))
}

fn past_each_declared(list: &[Declared], mut left: usize) -> usize
    ensures { (words : List Text) →
        result ≡ left - length_of_each declared_length (map (declared_tree words) list.now) }
{
    for one in list {
        left = past_declared(one, left).saturating_sub(1);
    }
    left
}

/// What is left behind names that are declared and the word that ends them.
pub fn past_declarations(list: &[Declared], left: usize) -> usize
    ensures { (words : List Text) →
        result ≡ left - list_length declared_length (map (declared_tree words) list.now) }
{
    past_each_declared(list, past_end(list.is_empty(), left))
}

fn past_net(net: Option<NetKind>, left: usize) -> usize
    ensures { result ≡ left - word_if net }
{
    match net {
        None => left,
        Some(_) => left.saturating_sub(1),
    }
}

fn past_direction(direction: &Direction, left: usize) -> usize
    ensures { (words : List Text) →
        result ≡ left - direction_length (direction_tree words direction.now) }
{
    match direction {
        Direction::Input { wire, kind } => {
            past_type(kind, past_word(*wire, left.saturating_sub(1)))
        }
        Direction::Output { net, kind } => {
            past_type(kind, past_net(*net, left.saturating_sub(1)))
        }
        Direction::OutputInteger { .. } => left.saturating_sub(2),
    }
}

fn past_port_direction(direction: &Option<Direction>, left: usize) -> usize
    ensures { (words : List Text) → result ≡ left - length_if direction_length
        (option_map (direction_tree words) direction.now) }
{
    match direction {
        None => left,
        Some(direction) => past_direction(direction, left),
    }
}

fn past_port(port: &Port, left: usize) -> usize
    ensures { (words : List Text) → result ≡ left - port_length (port_tree words port.now) }
{
    let left = past_port_direction(&port.direction, left);
    past_value(&port.value, left.saturating_sub(1))
}

fn past_each_port(ports: &[Port], mut left: usize) -> usize
    ensures { (words : List Text) →
        result ≡ left - length_of_each port_length (map (port_tree words) ports.now) }
{
    for one in ports {
        left = past_port(one, left).saturating_sub(1);
    }
    left
}

/// What is left behind the ports of a module.
pub fn past_ports(ports: &Option<Vec<Port>>, left: usize) -> usize
    ensures { (words : List Text) → result ≡ left - length_if ports_length
        (option_map (λ list. map (port_tree words) list.items) ports.now) }
{
    match ports {
        None => left,
        Some(list) => past_each_port(list, past_end(list.is_empty(), left.saturating_sub(1))),
    }
}

fn past_kind(kind: &Option<ParameterType>, left: usize) -> usize
    ensures { (words : List Text) → result ≡ left - length_if kind_length
        (option_map (parameter_type words) kind.now) }
{
    match kind {
        None => left,
        Some(kind) => past_parameter_type(kind, left.saturating_sub(1)),
    }
}

fn past_head_parameter(head: &HeadParameter, left: usize) -> usize
    ensures { (words : List Text) →
        result ≡ left - head_parameter_length (head_parameter words head.now) }
{
    past_setting(&head.setting, past_kind(&head.kind, left))
}

fn past_each_head(heads: &[HeadParameter], mut left: usize) -> usize
    ensures { (words : List Text) → result ≡
        left - length_of_each head_parameter_length (map (head_parameter words) heads.now) }
{
    for one in heads {
        left = past_head_parameter(one, left).saturating_sub(1);
    }
    left
}

/// What is left behind the parameters of a module's head.
pub fn past_heads(heads: &Option<Vec<HeadParameter>>, left: usize) -> usize
    ensures { (words : List Text) → result ≡ left - length_if head_parameters_length
        (option_map (λ list. map (head_parameter words) list.items) heads.now) }
{
    match heads {
        None => left,
        Some(list) => past_each_head(list, past_end(list.is_empty(), left.saturating_sub(2))),
    }
}

fn past_each_value(values: &[Expression], mut left: usize) -> usize
    ensures { (words : List Text) →
        result ≡ left - length_of_each expression_length (map (tree_of words) values.now) }
{
    for one in values {
        left = past_expression(one, left).saturating_sub(1);
    }
    left
}

fn past_optional(value: &Option<Box<Expression>>, left: usize) -> usize
    ensures { (words : List Text) → result ≡ left - length_if expression_length
        (option_map (λ value. tree_of words value.value) value.now) }
{
    match value {
        None => left,
        Some(value) => past_expression(value, left),
    }
}

fn past_connection(connection: &Connection, left: usize) -> usize
    ensures { (words : List Text) →
        result ≡ left - connection_length (connection_tree words connection.now) }
{
    past_optional(&connection.value, left.saturating_sub(4))
}

fn past_each_connection(list: &[Connection], mut left: usize) -> usize
    ensures { (words : List Text) →
        result ≡ left - length_of_each connection_length (map (connection_tree words) list.now) }
{
    for one in list {
        left = past_connection(one, left).saturating_sub(1);
    }
    left
}

fn past_connections(connections: &Connections, left: usize) -> usize
    ensures { (words : List Text) →
        result ≡ left - connections_length (connections_tree words connections.now) }
{
    match connections {
        Connections::ByOrder(list) => {
            past_each_value(list, past_end(list.is_empty(), left.saturating_sub(1)))
        }
        Connections::ByName(list) => {
            past_each_connection(list, past_end(list.is_empty(), left.saturating_sub(1)))
        }
    }
}

/// What is left behind what is said of the parameters of instances.
pub fn past_overrides(overrides: &Option<Connections>, left: usize) -> usize
    ensures { (words : List Text) → result ≡ left - length_if overrides_length
        (option_map (connections_tree words) overrides.now) }
{
    match overrides {
        None => left,
        Some(overrides) => past_connections(overrides, left.saturating_sub(1)),
    }
}

fn past_instance(instance: &Instance, left: usize) -> usize
    ensures { (words : List Text) →
        result ≡ left - instance_length (instance_tree words instance.now) }
{
    past_connections(&instance.connections, left.saturating_sub(1))
}

fn past_each_instance(list: &[Instance], mut left: usize) -> usize
    ensures { (words : List Text) →
        result ≡ left - length_of_each instance_length (map (instance_tree words) list.now) }
{
    for one in list {
        left = past_instance(one, left).saturating_sub(1);
    }
    left
}

/// What is left behind instances and the word that ends them.
pub fn past_instances(list: &[Instance], left: usize) -> usize
    ensures { (words : List Text) →
        result ≡ left - list_length instance_length (map (instance_tree words) list.now) }
{
    past_each_instance(list, past_end(list.is_empty(), left))
}

/// What is left behind what names are declared as.
pub fn past_declaration_kind(kind: &DeclarationKind, left: usize) -> usize
    ensures { (words : List Text) →
        result ≡ left - declaration_kind_length (declaration_kind words kind.now) }
{
    match kind {
        DeclarationKind::Variables { kind, .. } => past_type(kind, left.saturating_sub(1)),
        DeclarationKind::Integers { .. } => left.saturating_sub(1),
        DeclarationKind::Directed { direction } => past_direction(direction, left),
    }
}
