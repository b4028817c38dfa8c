// Modules of the whole profile (IEEE 1364-2005, clauses 4 and 12, A.1 and A.2, narrowed to this product's profile).

use crate::expression::Expression;
use crate::statement::{Statement, Target};
use crate::token::Token;

/// What holds a value: a net or a variable (4.2).
#[derive(Clone, Copy, PartialEq, Eq)]
pub enum NetKind {
    /// `wire`
    Wire,
    /// `reg`
    Reg,
}

/// `[left:right]` (4.3.1)
#[derive(Drop)]
pub struct Bounds {
    pub left: Box<Expression>,
    pub right: Box<Expression>,
}

/// `signed [left:right]`, each if it stands there (4.3)
#[derive(Drop)]
pub struct SignAndRange {
    pub signed: bool,
    pub range: Option<Bounds>,
}

/// The type of a parameter (4.10.1).
#[derive(Drop)]
pub enum ParameterType {
    /// `integer`, or where it is the longer one `time`
    Integer { long: bool },
    /// A sign and a range, or neither.
    Typed(SignAndRange),
}

/// `name = value`
#[derive(Drop)]
pub struct Setting {
    pub name: Token,
    pub value: Box<Expression>,
}

/// `target = value` of an `assign` (A.6.1)
#[derive(Drop)]
pub struct NetAssignment {
    pub target: Target,
    pub value: Box<Expression>,
}

/// `name = value`, or `name`
#[derive(Drop)]
pub struct Declared {
    pub name: Token,
    pub value: Option<Box<Expression>>,
}

/// Which way a port goes (12.3.3).
#[derive(Drop)]
pub enum Direction {
    /// `input`, or `input wire`
    Input {
        wire: bool,
        kind: SignAndRange,
    },
    /// `output`, `output wire` or `output reg`
    Output {
        net: Option<NetKind>,
        kind: SignAndRange,
    },
    /// `output integer`, or where it is the longer one `output time`
    OutputInteger {
        long: bool,
    },
}

/// A port; without a direction it has that of the one before it (12.3.4), or, where no port of the list has one, that of the item
/// which declares it (12.3.2). An output that is a variable may have a value (A.2.1.2, A.2.3).
#[derive(Drop)]
pub struct Port {
    pub direction: Option<Direction>,
    pub name: Token,
    pub value: Option<Box<Expression>>,
}

/// A parameter of a module's head; without a type it has that of the one before it (12.2).
#[derive(Drop)]
pub struct HeadParameter {
    pub kind: Option<ParameterType>,
    pub setting: Setting,
}

/// `.name(value)`, or `.name()` (12.3.6)
#[derive(Drop)]
pub struct Connection {
    pub name: Token,
    pub value: Option<Box<Expression>>,
}

/// What an instance is connected to (12.3.5, 12.3.6).
#[derive(Drop)]
pub enum Connections {
    /// `(value, ..)`
    ByOrder(Vec<Expression>),
    /// `(.name(value), ..)`
    ByName(Vec<Connection>),
}

/// `name(connections)` (12.1.2)
#[derive(Drop)]
pub struct Instance {
    pub name: Token,
    pub connections: Connections,
}

/// What is declared together (4.2, 4.8).
#[derive(Drop)]
pub enum DeclarationKind {
    /// `wire` or `reg`, and a type
    Variables { net: NetKind, kind: SignAndRange },
    /// `integer`, or where it is the longer one `time`
    Integers { long: bool },
    /// Ports that the list of a module names: `input type`, `output type` and so on (12.3.3)
    Directed { direction: Direction },
}

/// What a module holds (A.1.4); `at` is the number of its first token.
#[derive(Drop)]
pub enum ModuleItem {
    /// `parameter type setting, ..;`, or `localparam ..` (4.10)
    Parameters {
        at: u32,
        local: bool,
        kind: ParameterType,
        settings: Vec<Setting>,
    },
    /// `reg type name, name = value, ..;` (4.2)
    Declaration {
        at: u32,
        kind: DeclarationKind,
        declared: Vec<Declared>,
    },
    /// `event name, ..;` (9.7.3)
    Events {
        at: u32,
        names: Vec<Token>,
    },
    /// `assign target = value, ..;` (6.1)
    Assignments {
        at: u32,
        list: Vec<NetAssignment>,
    },
    /// `initial statement` (9.9.1)
    Initial {
        at: u32,
        statement: Statement,
    },
    /// `always statement` (9.9.2)
    Always {
        at: u32,
        statement: Statement,
    },
    /// `name #(connections) instance, ..;` (12.1.2)
    Instances {
        module: Token,
        overrides: Option<Connections>,
        instances: Vec<Instance>,
    },
}

/// `module name #(parameters) (ports); .. endmodule` (12.1)
#[derive(Drop)]
pub struct ModuleTree {
    pub name: Token,
    pub parameters: Option<Vec<HeadParameter>>,
    pub ports: Option<Vec<Port>>,
    pub items: Vec<ModuleItem>,
}

/// A whole text: its modules in order.
#[derive(Drop)]
pub struct TextTree {
    pub modules: Vec<ModuleTree>,
}
