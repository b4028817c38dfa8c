// What SystemVerilog (IEEE 1800) has and Verilog hasn't, in words, and what serves in its place.

use crate::construct::{Construct, Row, row_among};

// What stands between modules and among their items.
static OF_MODULES: [Row; 13] = [
    Row {
        construct: Construct::AlwaysComb,
        names_word: false,
        what: b"`always_comb` and `always_latch` (SystemVerilog, IEEE 1800)",
        instead: b"write `always begin y = a & b; @(a or b); end`; `always @*` doesn't run at time 0 where nothing changes then",
    },
    Row {
        construct: Construct::AlwaysFf,
        names_word: false,
        what: b"`always_ff` (SystemVerilog, IEEE 1800)",
        instead: b"write `always`",
    },
    Row {
        construct: Construct::Assertion,
        names_word: false,
        what: b"assertions (SystemVerilog, IEEE 1800)",
        instead: b"for `assert (a) else ..` in a process write `if (a) ; else ..`; for `assert property` a process, `always \
            @(posedge clk) if (a) ; else $display(\"..\");`, which reads `a` after the edge, where the assertion reads it before",
    },
    Row {
        construct: Construct::Bind,
        names_word: false,
        what: b"`bind` (SystemVerilog, IEEE 1800)",
        instead: b"write the instance into the module that it is bound to",
    },
    Row {
        construct: Construct::Class,
        names_word: false,
        what: b"classes (SystemVerilog, IEEE 1800)",
        instead: b"write variables and processes of a module",
    },
    Row {
        construct: Construct::Final,
        names_word: false,
        what: b"`final` (SystemVerilog, IEEE 1800)",
        instead: b"write its statements before `$finish`",
    },
    Row {
        construct: Construct::Interface,
        names_word: false,
        what: b"interfaces (SystemVerilog, IEEE 1800)",
        instead: b"write each signal as a port",
    },
    Row {
        construct: Construct::Mailbox,
        names_word: false,
        what: b"`mailbox` and `semaphore` (SystemVerilog, IEEE 1800)",
        instead: b"hand a word over by a variable and a flag: `wait (!full); word = a; full = 1;`, and at the other end `wait (full); \
            a = word; full = 0;`. It holds one word; `full` has to be 0 before",
    },
    Row {
        construct: Construct::Package,
        names_word: false,
        what: b"packages, `import` and `::` (SystemVerilog, IEEE 1800)",
        instead: b"write what is used as a `localparam` in each module, or as a macro",
    },
    Row {
        construct: Construct::Program,
        names_word: false,
        what: b"`program` (SystemVerilog, IEEE 1800)",
        instead: b"write `module` and `endmodule`; its statements then run with the others of a slot, not after them",
    },
    Row {
        construct: Construct::Property,
        names_word: false,
        what: b"properties, sequences, clocking blocks and cover groups (SystemVerilog, IEEE 1800)",
        instead: b"test in a process: `always @(posedge clk) if (a) ; else $display(\"..\");`, which reads `a` behind the edge",
    },
    Row {
        construct: Construct::ShortConnection,
        names_word: false,
        what: b"connections by `.a` and `.*` (SystemVerilog, IEEE 1800)",
        instead: b"write each connection: `.a(a), .b(b)`",
    },
    Row {
        construct: Construct::TimeUnit,
        names_word: false,
        what: b"`timeunit` and `timeprecision` (SystemVerilog, IEEE 1800)",
        instead: b"write ``timescale 1ns/1ps` at the start of the text",
    },
];

// Statements.
static OF_STATEMENTS: [Row; 8] = [
    Row {
        construct: Construct::DoWhile,
        names_word: false,
        what: b"`do` and `while` (SystemVerilog, IEEE 1800)",
        instead: b"write `go = 1; while (go) begin ..; go = c; end`",
    },
    Row {
        construct: Construct::Foreach,
        names_word: false,
        what: b"`foreach` (SystemVerilog, IEEE 1800)",
        instead: b"write a `for`",
    },
    Row {
        construct: Construct::Increment,
        names_word: false,
        what: b"`++` and `--` (SystemVerilog, IEEE 1800)",
        instead: b"write `a = a + 1`",
    },
    Row {
        construct: Construct::JoinedAssignment,
        names_word: false,
        what: b"operators joined to `=`, as `+=` (SystemVerilog, IEEE 1800)",
        instead: b"write the right side in parentheses: `a = a * (b + c)` for `a *= b + c`",
    },
    Row {
        construct: Construct::Jump,
        names_word: false,
        what: b"`break`, `continue` and `return` (SystemVerilog, IEEE 1800)",
        instead: b"test a variable in the loop, `while (!done && i < n)`, and `if (!done)` before what is left out",
    },
    Row {
        construct: Construct::LaterTrigger,
        names_word: false,
        what: b"`->>` (SystemVerilog, IEEE 1800)",
        instead: b"toggle a variable, `t <= !t;`, and wait by `@(t)`; it has to be 0 or 1 before",
    },
    Row {
        construct: Construct::Unique,
        names_word: false,
        what: b"`unique` and `priority` (SystemVerilog, IEEE 1800)",
        instead: b"leave the word out",
    },
    Row {
        construct: Construct::WaitFork,
        names_word: false,
        what: b"`wait fork` (SystemVerilog, IEEE 1800)",
        instead: b"write a process for each branch, and wait for their flags: `wait (d1 && d2);`",
    },
];

// Types and expressions.
static OF_EXPRESSIONS: [Row; 12] = [
    Row {
        construct: Construct::Cast,
        names_word: false,
        what: b"casts (SystemVerilog, IEEE 1800)",
        instead: b"write a select, `a[7:0]`, or widen by `{4'b0, a}`; for the sign `$signed(a)` and `$unsigned(a)`",
    },
    Row {
        construct: Construct::Fill,
        names_word: false,
        what: b"`'0`, `'1`, `'x` and `'z` (SystemVerilog, IEEE 1800)",
        instead: b"write `0`, `{8{1'b1}}`, `'bx` and `'bz`",
    },
    Row {
        construct: Construct::Iff,
        names_word: false,
        what: b"`iff` (SystemVerilog, IEEE 1800)",
        instead: b"write `always @(posedge clk) if (en) ..`; between statements `@(posedge clk); while (en !== 1) @(posedge clk);`. Both \
            read `en` behind the edge",
    },
    Row {
        construct: Construct::Inside,
        names_word: false,
        what: b"`inside` (SystemVerilog, IEEE 1800)",
        instead: b"write the comparisons: `(a == 1 || a == 2)`",
    },
    Row {
        construct: Construct::Logic,
        names_word: false,
        what: b"`logic` (SystemVerilog, IEEE 1800)",
        instead: b"write `reg` where statements write it, else `wire`",
    },
    Row {
        construct: Construct::Method,
        names_word: false,
        what: b"methods of events, queues and objects (SystemVerilog, IEEE 1800)",
        instead: b"for `e.triggered` write `at = $time; -> e;` at each trigger, with a `reg [63:0] at`, and `(at === $time)` where it is \
            asked; a queue becomes a variable for each element, and a count",
    },
    Row {
        construct: Construct::NewType,
        names_word: false,
        what: b"`typedef`, `enum`, `struct` and `union` (SystemVerilog, IEEE 1800)",
        instead: b"write the vector, and a `localparam` for each name; for a `struct` a variable for each part",
    },
    Row {
        construct: Construct::Pattern,
        names_word: false,
        what: b"assignment patterns, `'{ }` (SystemVerilog, IEEE 1800)",
        instead: b"write a concatenation: `{a, b}`",
    },
    Row {
        construct: Construct::Queue,
        names_word: false,
        what: b"queues, and `$` as a bound (SystemVerilog, IEEE 1800)",
        instead: b"write a variable for each element that there can be, with a count, and a `case` on the index",
    },
    Row {
        construct: Construct::StringType,
        names_word: false,
        what: b"`string` (SystemVerilog, IEEE 1800)",
        instead: b"keep a number for each text",
    },
    Row {
        construct: Construct::TimeLiteral,
        names_word: false,
        what: b"a time with its unit, as `10ns` (SystemVerilog, IEEE 1800)",
        instead: b"write it in units of the timescale: `#10`",
    },
    Row {
        construct: Construct::TwoValued,
        names_word: false,
        what: b"`int`, `bit` and other types without x and z (SystemVerilog, IEEE 1800)",
        instead: b"write `integer` or `reg`, and give it 0 before it is read: it begins at x",
    },
];

/// What is told of the construct, if it is one of SystemVerilog.
pub(crate) fn row_of(construct: Construct) -> Option<&'static Row> {
    let tables: [&'static [Row]; 3] = [&OF_MODULES, &OF_STATEMENTS, &OF_EXPRESSIONS];
    for rows in &tables {
        if let Some(row) = row_among(*rows, construct) {
            return Some(row);
        }
    }
    None
}
