// What the profile leaves out, in words, and what serves in its place (docs/LANGUAGE.md, "What is left out").

use crate::system_verilog_rows;

/// A construct of Verilog or of SystemVerilog that the profile leaves out.
#[derive(Clone, Copy, PartialEq, Eq)]
pub(crate) enum Construct {
    AlwaysComb,
    AlwaysFf,
    Assertion,
    Attribute,
    AttributeBehindName,
    Bind,
    BlockDeclaration,
    BlockName,
    Cast,
    ChargedNet,
    ChosenString,
    Class,
    Defparam,
    DelayRange,
    Directive,
    Disable,
    DoWhile,
    DumpPath,
    EscapedName,
    EventInAssignment,
    EventTerm,
    FileTask,
    Fill,
    Final,
    Force,
    Foreach,
    Fork,
    Format,
    Function,
    Gate,
    Generate,
    HierarchicalName,
    Iff,
    Include,
    Increment,
    IndexedPart,
    IndexedTarget,
    Inout,
    InputType,
    Inside,
    InstanceArray,
    Interface,
    JoinedAssignment,
    Jump,
    LaterTrigger,
    Logic,
    MacroArguments,
    Mailbox,
    Memory,
    Method,
    MissingArgument,
    MixedPorts,
    MonitorSwitch,
    NetDelay,
    NetKind,
    NetTypeDirective,
    NewType,
    NumberGap,
    OutputExpression,
    Package,
    Pattern,
    Plusargs,
    PortExpression,
    PortGap,
    PortValue,
    Power,
    Primitive,
    ProceduralAssign,
    Program,
    Property,
    Pull,
    PulledNet,
    Queue,
    Random,
    Range,
    ReadMemory,
    Real,
    SelectOfSelect,
    ShortConnection,
    Strength,
    StringType,
    StringValue,
    SystemTask,
    Task,
    ThreeState,
    TimeLiteral,
    TimeUnit,
    TwoValued,
    Unique,
    UnnamedPort,
    Vectored,
    WaitFork,
    WideNumber,
    WideVector,
    WiredNet,
}

/// A construct, what it is called, whether its word is told behind that, and what to write in its place.
pub(crate) struct Row {
    pub(crate) construct: Construct,
    pub(crate) names_word: bool,
    pub(crate) what: &'static [u8],
    pub(crate) instead: &'static [u8],
}

// Words, directives and system names.
static OF_WORDS: [Row; 15] = [
    Row {
        construct: Construct::Attribute,
        names_word: false,
        what: b"an attribute in this place, or of this form",
        instead: b"take `(* .. *)` away: it changes no run",
    },
    Row {
        construct: Construct::Directive,
        names_word: true,
        what: b"the directive",
        instead: b"take it away: it changes no run of what the profile has; in place of `uselib name the files of the modules, too",
    },
    Row {
        construct: Construct::DumpPath,
        names_word: false,
        what: b"a path of `$dumpvars` to a variable, or to nothing",
        instead: b"write a path of instances from the top's name on, as `$dumpvars(0, tb.u)`; a variable is dumped with its \
            instance",
    },
    Row {
        construct: Construct::EscapedName,
        names_word: false,
        what: b"a dot in an escaped name",
        instead: b"write `_` in its place",
    },
    Row {
        construct: Construct::FileTask,
        names_word: false,
        what: b"system tasks of files",
        instead: b"what writes to files has no effect here, so leave `fd = $fopen(..)` out; assign what a file would hold in an \
            `initial`",
    },
    Row {
        construct: Construct::Format,
        names_word: true,
        what: b"the format",
        instead: b"write `%b`, `%o`, `%h`, `%d`, `%t`, `%c`, `%s` or `%m`, with at most three digits before the letter, or `%%`",
    },
    Row {
        construct: Construct::Include,
        names_word: false,
        what: b"``include`",
        instead: b"name the files on the command line, in their order; of one that belongs inside a module put the lines there",
    },
    Row {
        construct: Construct::MacroArguments,
        names_word: false,
        what: b"macros with arguments",
        instead: b"write the text itself where it is used",
    },
    Row {
        construct: Construct::MissingArgument,
        names_word: false,
        what: b"empty parentheses, or no arguments of `$monitor`",
        instead: b"write `$time` and `$finish` without parentheses, and give `$monitor` something to print",
    },
    Row {
        construct: Construct::MonitorSwitch,
        names_word: false,
        what: b"`$monitoron` and `$monitoroff`",
        instead: b"switch a print of your own: `always @* if (on) $strobe(\"%b\", a);`, which prints twice where `a` changes \
            twice in a slot",
    },
    Row {
        construct: Construct::NetTypeDirective,
        names_word: false,
        what: b"``default_nettype` of anything but `none` and `wire`",
        instead: b"take it away: no net is declared by its use, and each is a `wire`",
    },
    Row {
        construct: Construct::Plusargs,
        names_word: false,
        what: b"`$test$plusargs` and `$value$plusargs`",
        instead: b"write the value into the text, as a `parameter` of the top or by a macro",
    },
    Row {
        construct: Construct::Random,
        names_word: false,
        what: b"`$random` and its like",
        instead: b"compute the values, in each process with a `reg [31:0] seed` of its own that begins at a number: `seed = seed * \
            1103515245 + 12345;`, and use `seed >> 16`, as the low bits repeat",
    },
    Row {
        construct: Construct::ReadMemory,
        names_word: false,
        what: b"`$readmemb` and `$readmemh`",
        instead: b"assign the values in an `initial`, or by a `case` on the address",
    },
    Row {
        construct: Construct::SystemTask,
        names_word: true,
        what: b"the system task or function",
        instead: b"compute its value: for `$clog2(N)` a `localparam` with the number, for `$isunknown(a)` `(^a === 1'bx)`, for \
            `$realtime` `$time`, which is rounded. Where it prints, as `$error`, write `$display`, and for `$fatal` `$finish` \
            after it; what changes nothing, leave out. docs/LANGUAGE.md lists those that there are, under \"Words\"",
    },
];

// Heads of modules, ports, instances, and what has rules of its own.
static OF_MODULES: [Row; 13] = [
    Row {
        construct: Construct::Defparam,
        names_word: false,
        what: b"`defparam`",
        instead: b"give the parameter at the instance: `m #(.P(1)) u();`",
    },
    Row {
        construct: Construct::Generate,
        names_word: false,
        what: b"`generate` and `genvar`; `if`, `for`, `case` and `begin` among items",
        instead: b"write each instance or item out",
    },
    Row {
        construct: Construct::HierarchicalName,
        names_word: false,
        what: b"hierarchical names",
        instead: b"to read it or wait for it, bring it out by an output, which follows a step later. To write it or trigger it, \
            toggle an input, and let a process of its own module do so: `always @(t) ..`",
    },
    Row {
        construct: Construct::Inout,
        names_word: false,
        what: b"`inout`",
        instead: b"write an input and an output, and join the drivers outside in one `assign`: `assign bus = oe1 ? o1 : oe2 ? o2 \
            : 1'bz;`",
    },
    Row {
        construct: Construct::InputType,
        names_word: false,
        what: b"an input of `integer` or `time`",
        instead: b"write `input signed [31:0]` for `integer`, and `input [63:0]` for `time`: an input is a net",
    },
    Row {
        construct: Construct::InstanceArray,
        names_word: false,
        what: b"arrays of instances",
        instead: b"write each instance out",
    },
    Row {
        construct: Construct::MixedPorts,
        names_word: false,
        what: b"directions in a list of ports whose first one has none",
        instead: b"write the direction of each port into the list; or names alone, and items behind it: `m(a, b); input a; output b;`",
    },
    Row {
        construct: Construct::OutputExpression,
        names_word: false,
        what: b"an output on an expression",
        instead: b"connect it to a net, to a bit or a part of one, or to a concatenation of these, `.p({c, s[3:0]})`, and write \
            the expression where that is read",
    },
    Row {
        construct: Construct::PortExpression,
        names_word: false,
        what: b"ports that are expressions",
        instead: b"name the port as its net",
    },
    Row {
        construct: Construct::PortGap,
        names_word: false,
        what: b"a gap in a list of connections by order",
        instead: b"connect by name: `m u(.a(a), .c(w));` leaves `b` out",
    },
    Row {
        construct: Construct::PortValue,
        names_word: false,
        what: b"a value in a list of ports without directions",
        instead: b"write it where the port is declared: `output reg q = 1;`",
    },
    Row {
        construct: Construct::Primitive,
        names_word: false,
        what: b"user-defined primitives, `specify` blocks, configurations and libraries",
        instead: b"write a module with `assign`s or an `always`, a `localparam` for a `specparam`, `module` for `macromodule`. \
            Without a `specify` block its delays are gone: write them into the assignments",
    },
    Row {
        construct: Construct::UnnamedPort,
        names_word: false,
        what: b"a port without a name",
        instead: b"take the comma away, and the connection in each list by order; or give the port a name, and declare it as `input`",
    },
];

// Nets, variables and gates.
static OF_DECLARATIONS: [Row; 14] = [
    Row {
        construct: Construct::BlockDeclaration,
        names_word: false,
        what: b"declarations inside a block",
        instead: b"declare it in the module, under a name of its own",
    },
    Row {
        construct: Construct::Gate,
        names_word: false,
        what: b"gates and switches",
        instead: b"write an `assign` with the operator, `assign w = a & b;`; for `buf` `a | 1'b0`, which is x where `a` is z",
    },
    Row {
        construct: Construct::Memory,
        names_word: false,
        what: b"memories and other arrays",
        instead: b"write a variable for each element and a `case` on the index, whose `default` reads x; or one vector of at most \
            64 bits, read and written bit by bit in a loop: `b[k] = m[8*i + k];`",
    },
    Row {
        construct: Construct::NetDelay,
        names_word: false,
        what: b"delays of nets and of `assign`",
        instead: b"write a process: `reg p; always begin p <= #5 q; @(q); end`. It passes on pulses that are shorter than the \
            delay, which a net would hold back",
    },
    Row {
        construct: Construct::NetKind,
        names_word: false,
        what: b"nets that aren't `wire`",
        instead: b"write `wire`; for `supply0` and `supply1` `localparam p = 1'b0;` and `localparam p = 1'b1;`, as a net would be \
            x until it is first driven",
    },
    Row {
        construct: Construct::ChargedNet,
        names_word: false,
        what: b"`trireg`",
        instead: b"write a variable that keeps its value: `reg p; always begin if (en) p = a; @(en or a); end`",
    },
    Row {
        construct: Construct::PulledNet,
        names_word: false,
        what: b"`tri0` and `tri1`",
        instead: b"write `wire`, and the pull in place of z in its one driver: `assign w = en ? a : 1'b1;`. Where that can't be, \
            read `wire p = w === 1'bz ? 1'b1 : w;`, which follows a step later",
    },
    Row {
        construct: Construct::WiredNet,
        names_word: false,
        what: b"`wand`, `wor`, `triand` and `trior`",
        instead: b"join the drivers in one `assign`: `a & b` for `wand` and `triand`, `a | b` for `wor` and `trior`; for a driver \
            that may be z write `en ? a : 1'b1`, of an `or` `1'b0`",
    },
    Row {
        construct: Construct::Pull,
        names_word: false,
        what: b"`pullup` and `pulldown`",
        instead: b"write the pull in place of z in the net's one driver: `assign w = en ? a : 1'b1;`. Where that can't be, read \
            `wire p = w === 1'bz ? 1'b1 : w;`, which follows a step later",
    },
    Row {
        construct: Construct::Range,
        names_word: false,
        what: b"a vector of more than 64 bits, or a bound that isn't from 0 to 65,535",
        instead: b"split it: `reg [63:0] low; reg [63:0] high;`; in place of letters keep a number for each text",
    },
    Row {
        construct: Construct::Strength,
        names_word: false,
        what: b"strengths",
        instead: b"leave them out: a net has one driver here; for `highz0` and `highz1` write z in place of that value: `assign w \
            = a ? 1'bz : 1'b0;`",
    },
    Row {
        construct: Construct::ThreeState,
        names_word: false,
        what: b"gates and switches that give z",
        instead: b"write an `assign` that chooses, `assign w = en ? a : 1'bz;`, with all drivers of the net in one: `en1 ? a : \
            en2 ? b : 1'bz`. For `tran`, which goes both ways, nothing serves",
    },
    Row {
        construct: Construct::Vectored,
        names_word: false,
        what: b"`vectored` and `scalared`",
        instead: b"leave the word out: it changes no run",
    },
    Row {
        construct: Construct::WideVector,
        names_word: false,
        what: b"vectors of more than 64 bits",
        instead: b"split it: `reg [63:0] low; reg [63:0] high;`; in place of letters keep a number for each text",
    },
];

// Statements, and functions and tasks.
static OF_STATEMENTS: [Row; 10] = [
    Row {
        construct: Construct::AttributeBehindName,
        names_word: false,
        what: b"an attribute behind the name of a block",
        instead: b"write it before `begin`, or take it away: it changes no run",
    },
    Row {
        construct: Construct::BlockName,
        names_word: false,
        what: b"a name behind `fork`, `join` or `end`",
        instead: b"leave the name away",
    },
    Row {
        construct: Construct::Disable,
        names_word: false,
        what: b"`disable`",
        instead: b"in a loop test a variable: `while (!done && i < n)`. In place of a delay that it cuts short write `@(late or \
            stop)`, and let a process of its own do `#1000 -> late;`",
    },
    Row {
        construct: Construct::EventInAssignment,
        names_word: false,
        what: b"an event inside an assignment",
        instead: b"for `a = @(e) b;` write `t = b; @(e) a = t;`. As `a <= @(e) b;` goes on at once, write `t = b; -> go;` there, \
            and a process `always @(go) @(e) a <= t;`",
    },
    Row {
        construct: Construct::EventTerm,
        names_word: false,
        what: b"waiting for anything but a name",
        instead: b"give it a name: `wire p = a[0];` and `@(posedge p)`. The net follows a step after `a`: a process that has just \
            written `a` and then waits is woken by its own write",
    },
    Row {
        construct: Construct::Force,
        names_word: false,
        what: b"`force`, `release` and `deassign`",
        instead: b"choose the value where a net is driven: `assign p = test ? 1 : q;`. For a variable do so at each assignment: \
            it then changes at the next one, not at once",
    },
    Row {
        construct: Construct::Fork,
        names_word: false,
        what: b"`fork` and `join`",
        instead: b"write a process for each branch, `always @(go) begin ..; d1 = 1; end`, and here `d1 = 0; d2 = 0; -> go; wait \
            (d1 && d2);`, for `join_any` `wait (d1 || d2)`, for `join_none` nothing. At time 0 they may not wait yet: there write \
            an `initial` for each, or `#1 -> go`",
    },
    Row {
        construct: Construct::Function,
        names_word: false,
        what: b"functions",
        instead: b"write the expression where it is called, or its statements before that. `wire f = ..;` follows its operands a \
            step later: where the process that reads it has just written one, or was woken by one, write the expression \
            out",
    },
    Row {
        construct: Construct::ProceduralAssign,
        names_word: false,
        what: b"`assign` as a statement",
        instead: b"it holds the variable until `deassign`: test its condition at each assignment, `if (clear) q <= 0; else q <= \
            d;`, and wait for it, too: `@(posedge clk or posedge clear)`",
    },
    Row {
        construct: Construct::Task,
        names_word: false,
        what: b"tasks",
        instead: b"write the statements where it is called; or a process `always @(go) begin ..; done = 1; end`, called by `done \
            = 0; -> go; wait (done);`, which hears no call while it runs, nor at time 0 before it waits: there write `#1 -> go;`",
    },
];

// Expressions and numbers.
static OF_EXPRESSIONS: [Row; 10] = [
    Row {
        construct: Construct::ChosenString,
        names_word: false,
        what: b"a string that `?` and `:` choose",
        instead: b"write two prints: `if (ok) $display(\"PASS\"); else $display(\"FAIL\");`",
    },
    Row {
        construct: Construct::DelayRange,
        names_word: false,
        what: b"min:typ:max values",
        instead: b"write the one of the three that you simulate",
    },
    Row {
        construct: Construct::IndexedPart,
        names_word: false,
        what: b"indexed part-selects, `+:` and `-:`",
        instead: b"write its bits: `{v[i+3], v[i+2], v[i+1], v[i]}` for `v[i +: 4]`, `{v[i], v[i-1], v[i-2], v[i-3]}` for \
            `v[i -: 4]`. A shift, `(v >> i) & 4'hf`, has as many bits as `v`, and 0 where `v` has no bit",
    },
    Row {
        construct: Construct::IndexedTarget,
        names_word: false,
        what: b"indexed part-selects, `+:` and `-:`, that are written",
        instead: b"write its bits in a loop, with a `k` of that process: `for (k = 0; k < 8; k = k + 1) v[8*i + k] = b[k];`",
    },
    Row {
        construct: Construct::NumberGap,
        names_word: false,
        what: b"a comment inside a number, or a size of 0",
        instead: b"write it in one word, of 1 to 64 bits: `8'hff`",
    },
    Row {
        construct: Construct::Power,
        names_word: false,
        what: b"the operator `**`",
        instead: b"shift for powers of two, `1 << n`, or multiply",
    },
    Row {
        construct: Construct::Real,
        names_word: false,
        what: b"real numbers",
        instead: b"count in the precision: with a timescale of 1ps/1ps, `#1500` in place of `#1.5` of 1ns/1ps; all other delays \
            are then in ps, too, and so is `$time`",
    },
    Row {
        construct: Construct::SelectOfSelect,
        names_word: false,
        what: b"a select of anything but a name",
        instead: b"assign it to a variable just before, `t = {a, b};`, and read `t[0]`. Outside of processes `wire [7:0] w = {a, \
            b};` serves, too; a process that has just written `a` reads the old `w`",
    },
    Row {
        construct: Construct::StringValue,
        names_word: false,
        what: b"strings as values",
        instead: b"give each text a number, or write its letters as one: `8'h41`; a string is an argument of a print task",
    },
    Row {
        construct: Construct::WideNumber,
        names_word: false,
        what: b"numbers of more than 64 bits",
        instead: b"write parts of at most 64 bits, each for a part of a vector that is split",
    },
];

/// The row of the construct, if it is one of these.
pub(crate) fn row_among(rows: &'static [Row], construct: Construct) -> Option<&'static Row> {
    for row in rows {
        if row.construct == construct {
            return Some(row);
        }
    }
    None
}

// The row of a construct of Verilog.
fn row_of_verilog(construct: Construct) -> Option<&'static Row> {
    let tables: [&'static [Row]; 5] = [
        &OF_WORDS,
        &OF_MODULES,
        &OF_DECLARATIONS,
        &OF_STATEMENTS,
        &OF_EXPRESSIONS,
    ];
    for rows in &tables {
        if let Some(row) = row_among(*rows, construct) {
            return Some(row);
        }
    }
    None
}

/// What the construct is called, and what serves in its place.
pub(crate) fn row_of(construct: Construct) -> Option<&'static Row> {
    match row_of_verilog(construct) {
        Some(row) => Some(row),
        None => system_verilog_rows::row_of(construct),
    }
}
