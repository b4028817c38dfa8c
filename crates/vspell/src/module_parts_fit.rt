// Whether what stands in modules beside statements stands as the grammar lets it: types, settings, ports, connections.

ghost use Rattle.std.specs.Prelude.{◌≡◌, Some, map, option_map};
ghost use Rattle.std.specs.List.{list_all};
ghost use Rattle.vast.specs.TokenTexts.{texts};
ghost use Rattle.vast.specs.ExpressionTrees.{tree_of, boxed_tree};
ghost use Rattle.vast.specs.Modules.{fits_value, fits_optional, fits_range, fits_type, fits_parameter_type, fits_setting, fits_net_assignment, fits_declared, fits_direction, fits_port, is_named_port, fits_ports, fits_kind, fits_head_parameter, fits_head_parameters, fits_connection, fits_connections, fits_instance};
ghost use Rattle.vast.specs.ModuleTrees.{range_tree, type_tree, parameter_type, setting_tree, net_assignment, declared_tree, direction_tree, port_tree, head_parameter, connection_tree, connections_tree, instance_tree};

use crate::expression_fits::expression_fits;
use crate::statement_parts_fit::setting_fits as setting_stands;
use vast::expression::Expression;
use vast::module::{
    Bounds, Connection, Connections, Declared, Direction, HeadParameter, Instance, NetAssignment,
    ParameterType, Port, Setting, SignAndRange,
};
use vast::token::letters;
use vwords::words::is_name;

fn range_fits(words: &[&[u8]], range: &Option<Bounds>, levels: u32) -> bool
    ensures { result ≡ fits_range levels (option_map (range_tree (texts words.now)) range.now) }
{
    match range {
        None => true,
        Some(range) => {
            expression_fits(words, &range.left, levels)
                && expression_fits(words, &range.right, levels)
        }
    }
}

/// Whether a sign and a range stand as the grammar lets them, with so many levels at most.
pub fn type_fits(words: &[&[u8]], kind: &SignAndRange, levels: u32) -> bool
    ensures { result ≡ fits_type levels (type_tree (texts words.now) kind.now) }
{
    range_fits(words, &kind.range, levels)
}

/// Whether the type of a parameter stands so.
pub fn parameter_type_fits(words: &[&[u8]], kind: &ParameterType, levels: u32) -> bool
    ensures { result ≡ fits_parameter_type levels (parameter_type (texts words.now) kind.now) }
{
    match kind {
        ParameterType::Integer { .. } => true,
        ParameterType::Typed(kind) => type_fits(words, kind, levels),
    }
}

fn setting_fits(words: &[&[u8]], setting: &Setting, levels: u32) -> bool
    ensures { result ≡ fits_setting levels (setting_tree (texts words.now) setting.now) }
{
    is_name(letters(words, setting.name)) && expression_fits(words, &setting.value, levels)
}

/// Whether each setting stands so.
pub fn settings_fit(words: &[&[u8]], settings: &[Setting], levels: u32) -> bool
    ensures { result ≡ list_all (fits_setting levels)
        (map (setting_tree (texts words.now)) settings.now) }
{
    for setting in settings {
        if !setting_fits(words, setting, levels) {
            return false;
        }
    }
    true
}

fn net_assignment_fits(words: &[&[u8]], one: &NetAssignment, levels: u32) -> bool
    ensures { result ≡ fits_net_assignment levels (net_assignment (texts words.now) one.now) }
{
    setting_stands(words, &one.target, &one.value, levels)
}

/// Whether each assignment of an `assign` stands so.
pub fn net_assignments_fit(words: &[&[u8]], list: &[NetAssignment], levels: u32) -> bool
    ensures { result ≡ list_all (fits_net_assignment levels)
        (map (net_assignment (texts words.now)) list.now) }
{
    for one in list {
        if !net_assignment_fits(words, one, levels) {
            return false;
        }
    }
    true
}

fn optional_fits(words: &[&[u8]], value: &Option<Box<Expression>>, levels: u32) -> bool
    ensures { result ≡ fits_optional levels
        (option_map (boxed_tree (texts words.now)) value.now) }
{
    match value {
        None => true,
        Some(value) => expression_fits(words, value, levels),
    }
}

fn one_declared_fits(words: &[&[u8]], declared: &Declared, levels: u32) -> bool
    ensures { result ≡ fits_declared levels (declared_tree (texts words.now) declared.now) }
{
    is_name(letters(words, declared.name)) && optional_fits(words, &declared.value, levels)
}

/// Whether each declared name stands so.
pub fn declared_fit(words: &[&[u8]], declared: &[Declared], levels: u32) -> bool
    ensures { result ≡ list_all (fits_declared levels)
        (map (declared_tree (texts words.now)) declared.now) }
{
    for one in declared {
        if !one_declared_fits(words, one, levels) {
            return false;
        }
    }
    true
}

/// Whether the type that stands with a direction does so.
pub fn direction_fits(words: &[&[u8]], direction: &Direction, levels: u32) -> bool
    ensures { result ≡ fits_direction levels
        (Some (direction_tree (texts words.now) direction.now)) }
{
    match direction {
        Direction::Input { kind, .. } => type_fits(words, kind, levels),
        Direction::Output { kind, .. } => type_fits(words, kind, levels),
        Direction::OutputInteger { .. } => true,
    }
}

fn optional_direction_fits(words: &[&[u8]], direction: &Option<Direction>, levels: u32) -> bool
    ensures { result ≡ fits_direction levels
        (option_map (direction_tree (texts words.now)) direction.now) }
{
    match direction {
        None => true,
        Some(direction) => direction_fits(words, direction, levels),
    }
}

fn port_fits(words: &[&[u8]], port: &Port, levels: u32) -> bool
    ensures { result ≡ fits_port levels (port_tree (texts words.now) port.now) }
{
    optional_direction_fits(words, &port.direction, levels)
        && is_name(letters(words, port.name))
        && optional_fits(words, &port.value, levels)
}

fn each_port_fits(words: &[&[u8]], ports: &[Port], levels: u32) -> bool
    ensures { result ≡ list_all (fits_port levels)
        (map (port_tree (texts words.now)) ports.now) }
{
    for port in ports {
        if !port_fits(words, port, levels) {
            return false;
        }
    }
    true
}

fn is_named(words: &[&[u8]], port: &Port) -> bool
    ensures { result ≡ is_named_port (port_tree (texts words.now) port.now) }
{
    !port.direction.is_some() && is_name(letters(words, port.name)) && !port.value.is_some()
}

fn are_named(words: &[&[u8]], ports: &[Port]) -> bool
    ensures { result ≡ list_all is_named_port (map (port_tree (texts words.now)) ports.now) }
{
    for port in ports {
        if !is_named(words, port) {
            return false;
        }
    }
    true
}

/// Whether the ports of a module stand so: the first says which way it goes, or all are names alone.
pub fn ports_fit(words: &[&[u8]], ports: &[Port], levels: u32) -> bool
    ensures { result ≡ fits_ports levels (map (port_tree (texts words.now)) ports.now) }
{
    match ports.split_first() {
        None => true,
        Some((port, _)) => {
            if port.direction.is_some() {
                each_port_fits(words, ports, levels)
            } else {
                are_named(words, ports)
            }
        }
    }
}

fn kind_fits(words: &[&[u8]], kind: &Option<ParameterType>, levels: u32) -> bool
    ensures { result ≡ fits_kind levels (option_map (parameter_type (texts words.now)) kind.now) }
{
    match kind {
        None => true,
        Some(kind) => parameter_type_fits(words, kind, levels),
    }
}

fn head_parameter_fits(words: &[&[u8]], parameter: &HeadParameter, levels: u32) -> bool
    ensures { result ≡ fits_head_parameter levels
        (head_parameter (texts words.now) parameter.now) }
{
    kind_fits(words, &parameter.kind, levels) && setting_fits(words, &parameter.setting, levels)
}

fn each_parameter_fits(words: &[&[u8]], parameters: &[HeadParameter], levels: u32) -> bool
    ensures { result ≡ list_all (fits_head_parameter levels)
        (map (head_parameter (texts words.now)) parameters.now) }
{
    for parameter in parameters {
        if !head_parameter_fits(words, parameter, levels) {
            return false;
        }
    }
    true
}

/// Whether the parameters of a module's head stand so: the first stands after the word.
pub fn head_parameters_fit(words: &[&[u8]], parameters: &[HeadParameter], levels: u32) -> bool
    ensures { result ≡ fits_head_parameters levels
        (map (head_parameter (texts words.now)) parameters.now) }
{
    match parameters.split_first() {
        None => false,
        Some((parameter, _)) => {
            parameter.kind.is_some() && each_parameter_fits(words, parameters, levels)
        }
    }
}

fn values_fit(words: &[&[u8]], values: &[Expression], levels: u32) -> bool
    ensures { result ≡ list_all (fits_value levels) (map (tree_of (texts words.now)) values.now) }
{
    for value in values {
        if !expression_fits(words, value, levels) {
            return false;
        }
    }
    true
}

fn connection_fits(words: &[&[u8]], connection: &Connection, levels: u32) -> bool
    ensures { result ≡ fits_connection levels (connection_tree (texts words.now) connection.now) }
{
    is_name(letters(words, connection.name)) && optional_fits(words, &connection.value, levels)
}

fn each_connection_fits(words: &[&[u8]], connections: &[Connection], levels: u32) -> bool
    ensures { result ≡ list_all (fits_connection levels)
        (map (connection_tree (texts words.now)) connections.now) }
{
    for connection in connections {
        if !connection_fits(words, connection, levels) {
            return false;
        }
    }
    true
}

/// Whether connections by order or by name stand so.
pub fn connections_fit(words: &[&[u8]], connections: &Connections, levels: u32) -> bool
    ensures { result ≡ fits_connections levels
        (connections_tree (texts words.now) connections.now) }
{
    match connections {
        Connections::ByOrder(values) => values_fit(words, values, levels),
        Connections::ByName(list) => {
            !list.is_empty() && each_connection_fits(words, list, levels)
        }
    }
}

fn instance_fits(words: &[&[u8]], instance: &Instance, levels: u32) -> bool
    ensures { result ≡ fits_instance levels (instance_tree (texts words.now) instance.now) }
{
    is_name(letters(words, instance.name)) && connections_fit(words, &instance.connections, levels)
}

/// Whether each instance stands so.
pub fn instances_fit(words: &[&[u8]], instances: &[Instance], levels: u32) -> bool
    ensures { result ≡ list_all (fits_instance levels)
        (map (instance_tree (texts words.now)) instances.now) }
{
    for instance in instances {
        if !instance_fits(words, instance, levels) {
            return false;
        }
    }
    true
}
