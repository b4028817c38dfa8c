// Why a text has no design.

use thiserror::Error;

/// A rule of elaboration that a text may break (IEEE 1364-2005, clause 12).
#[derive(Clone, Copy, Debug, PartialEq, Eq, Error)]
pub enum Rule {
    /// E301: a module that isn't in the text, that of the top or of an instance; or no top was asked for, and there is none or several.
    #[error("no module of this name, or no top module that is the only one")]
    Top,
    /// E302: two modules, two names of a module, or two paths are alike.
    #[error("a name stands for two things")]
    Doubled,
    /// E303: a name that the module doesn't declare, in a constant a parameter that stands later, or a path of `$dumpvars` to nothing.
    #[error("a name that nothing declares")]
    Unknown,
    /// E304: a net that is driven twice: by continuous assignments, its own value, outputs of instances, or a connection of an input.
    #[error("a net with two drivers")]
    Drivers,
    /// E305: what is connected to an instance isn't what its module has: its ports, its parameters. Or an output is connected to what
    /// is no name alone.
    #[error("a connection that the module hasn't")]
    Ports,
    /// E306: a bound that isn't 0 to 65,535, more than 64 bits from one bound to the other, joined or repeated, nothing repeated, or a
    /// part that goes the other way than its variable.
    #[error("a bound or a width out of its limit")]
    Width,
    /// E307: a variable or `$time` in what has to be constant.
    #[error("a value that isn't constant")]
    Constant,
    /// E308: more than 16 levels of instances, the top among them.
    #[error("instances nest too deep")]
    Depth,
    /// E309: more than 1,024 variables, 256 processes, 1,024 instances below the top or 4,294,967,295 named events; or names that are too
    /// long, or modules that are too large, together.
    #[error("too many variables, processes, instances or events, or too large names or modules")]
    TooMany,
    /// E310: a name of another kind than its use asks for: a net that a process assigns to, a variable that an `assign` or an output
    /// drives, a parameter that is written or waited for, a named event or an instance in an expression, a bit or a part of what is
    /// declared without a range and is no `integer`, a path of `$dumpvars` to a variable; or a format that isn't known or has nothing to print.
    #[error("a name of another kind than its use asks for")]
    Kind,
}

/// Why a text has no design: the rule that is broken, and the number of the token at fault, where there is one.
#[derive(Clone, Copy, Debug, PartialEq, Eq, Error)]
#[error("{rule}")]
pub struct ElabFault {
    pub rule: Rule,
    pub at: Option<u32>,
}
