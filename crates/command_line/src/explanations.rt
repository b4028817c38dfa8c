// What the numbers of faults mean. docs/FAULTS.md has the same table, and `tests/faults` compares the two.

use basis::number_in;
use std::io;

/// A number, what it means, a text that earns it, and what to do.
pub struct Explanation {
    number: u64,
    meaning: &'static str,
    example: &'static str,
    advice: &'static str,
}

static OF_LETTERS: [Explanation; 7] = [
    Explanation {
        number: 101,
        meaning: "a comment or a string that begins here isn't ended",
        example: "/* no end",
        advice: "end it; a string ends on its line",
    },
    Explanation {
        number: 102,
        meaning: "bad character, number or escape",
        example: "8'b2, 1'b0g",
        advice: "write digits of the base, and a blank before a letter; save the file as plain ASCII, without a mark at its start",
    },
    Explanation {
        number: 110,
        meaning: "a directive is ill formed, not first on its line, or without its open conditional",
        example: "x `define A 1; `else alone",
        advice: "write it first on its line, as docs/LANGUAGE.md says; a macro can't have arguments",
    },
    Explanation {
        number: 111,
        meaning: "the name after a backtick has no macro",
        example: "`X without a `define X",
        advice: "define it before its use; in place of an include name the files, in their order; a directive that docs/LANGUAGE.md doesn't list can't be used",
    },
    Explanation {
        number: 112,
        meaning: "macros or conditionals nest deeper than 32, over 1,000,000 macros are used, the text grows past 33,554,432 bytes, or it has over 4,194,304 words",
        example: "`define A `A and a use of A",
        advice: "take the macro out of its own text, make less text by macros, or write loops in place of many statements",
    },
    Explanation {
        number: 113,
        meaning: "a conditional that begins here is left open",
        example: "`ifdef A and no `endif",
        advice: "end it with `endif",
    },
    Explanation {
        number: 114,
        meaning: "a second timescale differs from the first",
        example: "`timescale 1ns/1ns and then `timescale 1ns/1ps",
        advice: "write one timescale for the whole text, and all delays in its unit",
    },
];

static OF_WORDS: [Explanation; 3] = [
    Explanation {
        number: 201,
        meaning: "unexpected word: no text of the grammar goes on with this word after those before it, or the text ends too early",
        example: "a = 1 and no semicolon; else without an if",
        advice: "look at the words of that line, and at the end of the line before it: a semicolon may be missing there; or the construct isn't in the profile, as memories, hierarchical names and SystemVerilog; docs/LANGUAGE.md has the grammar",
    },
    Explanation {
        number: 202,
        meaning: "an unexpected word as with E201, and it is a word, operator or system name of Verilog outside the profile",
        example: "fork, 1 ** 2, $random",
        advice: "write it with what docs/LANGUAGE.md lists",
    },
    Explanation {
        number: 203,
        meaning: "statements and expressions nest deeper than 64: with more levels this word could follow",
        example: "begin 64 times round a statement; a sum of 64 operands in an assignment",
        advice: "take begin and end away where one statement stands between them, write a long chain of else if as a case, or group a long sum by parentheses",
    },
];

static OF_DESIGNS: [Explanation; 10] = [
    Explanation {
        number: 301,
        meaning: "no module is the top, or an instance is of a module that isn't there",
        example: "a text without a module; two modules and no --top; --top of a name that isn't there; b u(); without a module b",
        advice: "name the module: --top NAME; give the file with the instance's module too; for check, which has the top from the report, give the files that the report was made of",
    },
    Explanation {
        number: 302,
        meaning: "a name declared twice: two modules, or two ports, variables, parameters, named events, instances or named blocks of one module, or a port that is declared more often than it may be",
        example: "reg a, a;, output reg q; reg q;",
        advice: "rename one, or take one of the declarations out",
    },
    Explanation {
        number: 303,
        meaning: "a name that isn't declared in its module, a parameter in a constant that stands before it, a port of the list that no item declares, an item for a port that the list hasn't, or a path of $dumpvars to nothing",
        example: "initial b = 1; without a reg b, module m(a, b); input a;, $dumpvars(0, tb.u); without an instance u",
        advice: "declare it; only what a constant uses has to stand before it; a path begins with the top's name",
    },
    Explanation {
        number: 304,
        meaning: "a net with two drivers: two assigns, two outputs of instances, or an assign to an input that is connected outside",
        example: "assign p = q; assign p = 0;",
        advice: "give each driver a net of its own, and join them in one assign",
    },
    Explanation {
        number: 305,
        meaning: "a connection that doesn't fit: of a port that isn't there, too many or one twice, an output to anything but a name; the same of parameters, a local one among them",
        example: "b u(.c(a)); without a port c; b u(p + q); to an output",
        advice: "connect each port at most once, an output to a net of its own; a localparam can't be set from outside",
    },
    Explanation {
        number: 306,
        meaning: "a bound that isn't 0 to 65,535 or has an unknown bit, a part in the other direction than its vector, a count of a replication that isn't 1 to 64, more than 64 bits, or a port that is declared again with another range",
        example: "reg [64:0] a;, {65{1'b1}}, output [3:0] q; reg q;",
        advice: "split the vector, turn the part round, write a count from 1 to 64, or the same range twice",
    },
    Explanation {
        number: 307,
        meaning: "a constant that isn't one: a variable or $time in a bound, in the count of a replication or in the value of a parameter",
        example: "reg a; reg [a:0] b;",
        advice: "write it with numbers and parameters",
    },
    Explanation {
        number: 308,
        meaning: "instances more than 16 levels deep, the top's among them",
        example: "module b; b u(); endmodule and an instance of b",
        advice: "a module can't stand in itself; take levels out",
    },
    Explanation {
        number: 309,
        meaning: "over 256 processes, 1,024 variables, 1,024 instances below the top or 4,294,967,295 named events; connections of ports are processes, and ports are variables; names of variables and instances of over 1,048,576 bytes together; modules of all instances of over 4,194,304 together in size",
        example: "257 initials; reg v0, v1, .. up to v1024",
        advice: "split the testbench, or put several initials into one; shorten names, or write loops in place of many statements: docs/LANGUAGE.md, Limits, has what counts how much",
    },
    Explanation {
        number: 310,
        meaning: "a name of another kind than its use asks for: a net that a statement writes, a variable that an assign or an output drives, a parameter that is written or waited for, a named event or an instance in an expression, a variable's path in $dumpvars, a bit of what has no range, an input that is declared as a variable, a value of a port whose direction doesn't say reg, integer or time; or a format that isn't known or has no argument",
        example: "reg r; assign r = 1;, wire w; initial w = 1;, $display(\"%d\");",
        advice: "declare it as what it is used as; docs/LANGUAGE.md lists the formats under Printed lines",
    },
];

static OF_RUNS: [Explanation; 4] = [
    Explanation {
        number: 401,
        meaning: "ill-formed log",
        example: "5:0, 05:1, 9:",
        advice: "write it as docs/FORMATS.md says under Logs",
    },
    Explanation {
        number: 402,
        meaning: "a step that the log names isn't reached or hasn't that choice",
        example: "99:1 on a run of nine steps",
        advice: "a log is for one text, one grain, one kind of departures, one top and one time limit: was the text changed, or --grain, --hold, --top or --until left out?",
    },
    Explanation {
        number: 403,
        meaning: "the run takes more steps than allowed; tested before E402",
        example: "--steps 2 on three assignments",
        advice: "allow more: --steps N, or let the run end earlier: --until N",
    },
    Explanation {
        number: 404,
        meaning: "a number out of its limit; of races, a word that is no time; of check, in the head of a report: a greater until or more steps than --until and --steps allow",
        example: "--steps 0, --depart 5, --workers 65, --seconds 1000001; of races --until 10x",
        advice: "look at docs/LANGUAGE.md, Limits; write a time as 10us or 1.5ns; a report that asks for more takes longer to check: allow as much, or explore anew with less",
    },
];

static OF_REPORTS: [Explanation; 6] = [
    Explanation {
        number: 501,
        meaning: "a report is ill formed",
        example: "a report that was cut short or edited",
        advice: "have explore write it anew; docs/FORMATS.md has the form under Reports",
    },
    Explanation {
        number: 502,
        meaning: "an end of the report isn't true; at 0 is the first one",
        example: "the text was changed after the report was written",
        advice: "replay the log of that end and compare time, cause, values, lines and dump; then explore anew",
    },
    Explanation {
        number: 503,
        meaning: "a race of the report isn't true; at 0 is the first one",
        example: "the logs of two values exchanged",
        advice: "replay the log of each of its values and look at the time of the race; then explore anew",
    },
    Explanation {
        number: 504,
        meaning: "the head of the report isn't of this text",
        example: "the report of another testbench: other variables",
        advice: "give the files that the report was made of, in their order",
    },
    Explanation {
        number: 505,
        meaning: "the file of --vcd stops being a value change dump; at 3 is the number of the line, from 1, and the words behind say what is wrong there",
        example: "a dump that was cut short; a time that is lower than the one before; a change of a variable that isn't declared",
        advice: "have the other simulator write it anew; docs/FORMATS.md says under Dumps of other simulators what is read",
    },
    Explanation {
        number: 506,
        meaning: "a line of the file of waivers is no waiver; at 3 is the number of that line, from 1",
        example: "tb.v:10 tb.v:12 without a reason behind #",
        advice: "write FILE:LINE FILE:LINE # reason, variable PATTERN # reason or ends TOP CAUSE:TIME CAUSE:TIME # reason; docs/CI.md has the forms under Waivers",
    },
];

static OF_THE_MACHINE: [Explanation; 4] = [
    Explanation {
        number: 901,
        meaning: "a growth of memory was refused",
        example: "a limit of ulimit -v that the text doesn't fit",
        advice: "give the program more memory: a text takes 12 times its length",
    },
    Explanation {
        number: 902,
        meaning: "standard output failed, or a file of waivers, a page or a dump of two runs can't be written",
        example: "a full disk, a closed pipe; a folder that isn't there",
        advice: "what stands on standard output is a prefix of what was asked for, and each file is as it was before or the whole new one, as the words of races say: make room and call again",
    },
    Explanation {
        number: 903,
        meaning: "a file can't be opened, or reading failed",
        example: "a file that isn't there, a folder",
        advice: "look at the name; files are read in the order of the words",
    },
    Explanation {
        number: 904,
        meaning: "a file, or all files together, over 16,777,216 bytes",
        example: "a dump given for a testbench",
        advice: "leave out what isn't simulated",
    },
];

// The digits of a number: behind `E` or `e`, or alone.
fn digits_of(shown: &[u8]) -> &[u8] {
    match shown.split_first() {
        Some((b'E', digits)) | Some((b'e', digits)) => digits,
        _ => shown,
    }
}

// The explanations of the numbers of this hundred.
fn explanations(hundred: u64) -> &'static [Explanation] {
    match hundred {
        1 => &OF_LETTERS,
        2 => &OF_WORDS,
        3 => &OF_DESIGNS,
        4 => &OF_RUNS,
        5 => &OF_REPORTS,
        9 => &OF_THE_MACHINE,
        _ => &[],
    }
}

// The explanation of a number, if there is one.
fn row_of(number: u64) -> Option<&'static Explanation> {
    for row in explanations(number / 100) {
        if row.number == number {
            return Some(row);
        }
    }
    None
}

/// The explanation of a number as it is shown, `E` and three digits, if there is one; a small `e` or none will do.
pub fn explanation_of(shown: &str) -> Option<&'static Explanation> {
    let digits = digits_of(shown.as_bytes());
    if digits.len() != 3 {
        return None;
    }
    row_of(number_in(digits)?)
}

/// Prints what a number means, an example, and what to do.
pub fn show(rt: &impl Print, row: &Explanation) -> io::Result<()> {
    println!(rt; "E{}: {}", row.number, row.meaning)?;
    println!(rt; "Example: {}", row.example)?;
    println!(rt; "What to do: {}", row.advice)
}

/// Says on standard error what a number means, and what to do.
pub fn show_advice(rt: &impl Eprint, number: u16) {
    if let Some(row) = row_of(u64::from(number)) {
        let _ = eprintln!(rt; "{}\n    instead: {}", row.meaning, row.advice);
    }
}

/// Prints each number with what it means.
pub fn show_all(rt: &impl Print) -> io::Result<()> {
    for hundred in 1..10 {
        for row in explanations(hundred) {
            println!(rt; "E{}  {}", row.number, row.meaning)?;
        }
    }
    Ok(())
}
