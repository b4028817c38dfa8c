// Statements of the whole profile (IEEE 1364-2005, clause 9 and A.6, narrowed to this product's profile).

use crate::expression::Expression;
use crate::token::Token;
use vwords::cases::CaseKind;

/// Which change of a name an event control waits for (9.7.2).
#[derive(Clone, Copy, PartialEq, Eq)]
pub enum Edge {
    /// `posedge`
    Rising,
    /// `negedge`
    Falling,
}

/// How a value is shown that no format takes (17.1.1).
#[derive(Clone, Copy, PartialEq, Eq)]
pub enum Base {
    /// `$display`: as by `%d`
    Decimal,
    /// `$displayb`: as by `%b`
    Binary,
    /// `$displayo`: as by `%o`
    Octal,
    /// `$displayh`: as by `%h`
    Hexadecimal,
}

/// A task that prints (17.1), and how it shows a value that no format takes.
#[derive(Clone, Copy, PartialEq, Eq)]
pub enum Printing {
    /// `$display`: a line, at once (17.1.1)
    Display(Base),
    /// `$write`: the same, without a line feed (17.1.1)
    Write(Base),
    /// `$strobe`: a line, at the slot's end (17.1.2)
    Strobe(Base),
    /// `$monitor`: a line at each slot's end where a value has changed (17.1.3)
    Monitor(Base),
}

/// A task that has no effect here (own): of files, and of how times are shown.
#[derive(Clone, Copy, PartialEq, Eq)]
pub enum Idle {
    /// `$fopen` (17.2.1)
    Open,
    /// `$fclose` (17.2.1)
    Close,
    /// `$fflush` (17.2.6)
    Flush,
    /// `$fdisplay`, and the like (17.2.2)
    File(Printing),
    /// `$timeformat` (17.3.2)
    TimeFormat,
    /// `$printtimescale` (17.3.1)
    PrintTimescale,
}

/// What is done to the dump (18.1).
#[derive(Clone, Copy, PartialEq, Eq)]
pub enum Dumping {
    /// `$dumpon` (18.1.3)
    On,
    /// `$dumpoff` (18.1.3)
    Off,
    /// `$dumpall` (18.1.4)
    All,
    /// `$dumpflush` (18.1.6)
    Flush,
}

/// What an assignment writes to (A.8.5).
#[derive(Drop)]
pub enum Target {
    /// `name`
    Whole(Token),
    /// `name[index]` (5.2.1)
    Bit {
        name: Token,
        index: Box<Expression>,
    },
    /// `name[left:right]` (5.2.1)
    Part {
        name: Token,
        left: Box<Expression>,
        right: Box<Expression>,
    },
    /// `{target, ..}` (5.1.14); `at` is the number of its first token
    Joined {
        at: u32,
        targets: Vec<Target>,
    },
}

/// How long is waited (9.7.1).
#[derive(Drop)]
pub enum Delay {
    /// `#5`
    Number(Token),
    /// `#name`
    Name(Token),
    /// `#(amount)`
    Value(Box<Expression>),
}

/// A name whose changes are waited for, or those to one side (9.7.2).
#[derive(Clone, Copy)]
pub struct Term {
    pub edge: Option<Edge>,
    pub name: Token,
}

/// A further term of an event control, after a comma or after `or` (9.7.3).
#[derive(Clone, Copy)]
pub struct FurtherTerm {
    pub by_comma: bool,
    pub term: Term,
}

/// What is waited for (9.7).
#[derive(Drop)]
pub enum Event {
    /// `@name`
    Named(Token),
    /// `@*` (9.7.5)
    Any,
    /// `@(*)` (9.7.5)
    AnyEnclosed,
    /// `@(term or term, ..)`
    Terms {
        term: Term,
        further: Vec<FurtherTerm>,
    },
}

/// What a printing task is given (17.1.1).
#[derive(Drop)]
pub enum Argument {
    /// `"letters"`
    Text(Token),
    /// An expression.
    Value(Box<Expression>),
    /// Nothing
    LeftOut,
}

/// `name.name..` (12.5)
#[derive(Drop)]
pub struct Path {
    pub names: Vec<Token>,
}

/// What is dumped: so many levels of the scopes that are named (18.1.2).
#[derive(Drop)]
pub struct Selection {
    pub levels: Token,
    pub paths: Vec<Path>,
}

/// A call of a system task (clauses 17 and 18).
#[derive(Drop)]
pub enum Task {
    /// `$display(argument, ..)`, or `$display`
    Print {
        kind: Printing,
        arguments: Vec<Argument>,
    },
    /// `$fdisplay(argument, ..)`, or `$fopen`
    Idle {
        kind: Idle,
        arguments: Vec<Argument>,
    },
    /// `$dumpfile("letters")` (18.1.1)
    DumpFile(Token),
    /// `$dumpvars(levels, path, ..)`, or `$dumpvars` (18.1.2)
    DumpVars(Option<Selection>),
    /// `$dumpon`
    Dump(Dumping),
    /// `$stop(number)`, or `$finish` (17.4)
    End {
        stops: bool,
        number: Option<Token>,
    },
}

/// A statement (clause 9); `at` is the number of its first token.
#[cycle(statement)]
#[derive(Drop)]
pub enum Statement {
    /// `;`
    Empty,
    /// `begin .. end`, or `begin : name .. end` (9.8.1, 9.8.3)
    Block {
        name: Option<Token>,
        statements: Vec<Statement>,
    },
    /// `target = #delay value;` (9.2.1)
    Assign {
        at: u32,
        target: Target,
        delay: Option<Delay>,
        value: Box<Expression>,
    },
    /// `target <= #delay value;` (9.2.2)
    Nonblocking {
        at: u32,
        target: Target,
        delay: Option<Delay>,
        value: Box<Expression>,
    },
    /// `-> name;` (9.7.3)
    Trigger {
        at: u32,
        name: Token,
    },
    /// `if (condition) body` (9.4)
    If {
        at: u32,
        condition: Box<Expression>,
        body: Box<Statement>,
    },
    /// `if (condition) body else other` (9.4)
    IfElse {
        at: u32,
        condition: Box<Expression>,
        body: Box<Statement>,
        other: Box<Statement>,
    },
    /// `case (value) branch .. endcase` (9.5)
    Case {
        at: u32,
        kind: CaseKind,
        value: Box<Expression>,
        branches: Vec<Branch>,
    },
    /// `while (condition) body` (9.6)
    While {
        at: u32,
        condition: Box<Expression>,
        body: Box<Statement>,
    },
    /// `repeat (count) body` (9.6)
    Repeat {
        at: u32,
        count: Box<Expression>,
        body: Box<Statement>,
    },
    /// `forever body` (9.6)
    Forever {
        at: u32,
        body: Box<Statement>,
    },
    /// `for (target = value; condition; next_target = next_value) body` (9.6)
    For {
        at: u32,
        target: Target,
        value: Box<Expression>,
        condition: Box<Expression>,
        next_target: Target,
        next_value: Box<Expression>,
        body: Box<Statement>,
    },
    /// `wait (condition) body` (9.7.6)
    Wait {
        at: u32,
        condition: Box<Expression>,
        body: Box<Statement>,
    },
    /// `#delay body` (9.7.1)
    Delayed {
        at: u32,
        delay: Delay,
        body: Box<Statement>,
    },
    /// `@event body` (9.7)
    OnEvent {
        at: u32,
        event: Event,
        body: Box<Statement>,
    },
    /// A call of a system task.
    Task {
        at: u32,
        task: Task,
    },
}

/// A branch of a case (9.5).
#[cycle(statement)]
#[derive(Drop)]
pub enum Branch {
    /// `label, .. : body`
    Labelled {
        labels: Vec<Expression>,
        body: Statement,
    },
    /// `default : body`, or `default body`
    Default {
        colon: bool,
        body: Statement,
    },
}
