// Mistakes that the words of a refusal tell, beside the number of its fault (docs/FAULTS.md).

use crate::rules::Rule;

/// What is wrong, where that can be told more closely than by the number of the fault.
#[derive(Clone, Copy, PartialEq, Eq)]
pub(crate) enum Mistake {
    ClosedConditional,
    ClosedKeywords,
    CommaAtEnd,
    ConnectedKind,
    ConnectedPorts,
    ConnectedSize,
    DeclaredPort,
    DoubledBacktick,
    Escape,
    FormatOfString,
    InputReg,
    InputVariable,
    IntegerPort,
    KeywordsVersion,
    LateDirective,
    LaterParameter,
    LineForm,
    LocalInList,
    LongName,
    NamelessDirective,
    NoArgument,
    NoPort,
    OpenArguments,
    OtherRange,
    ParameterWord,
    PullForm,
    SamePort,
    SemicolonInList,
    SizedInteger,
    TimescaleForm,
    TimescaleHalf,
    TimescaleOrder,
    TwoTypes,
    TypedPort,
    UndirectedPort,
    UnlistedPort,
    ValuedPort,
}

// A mistake, and what is told of it.
struct Row {
    mistake: Mistake,
    rule: Rule,
}

// Told of letters and directives.
static OF_LETTERS: [Row; 12] = [
    Row {
        mistake: Mistake::DoubledBacktick,
        rule: Rule {
            number: 110,
            names_word: false,
            what: b"one backtick too many",
            instead: b"write one: a directive begins with one backtick, and so does the use of a macro",
        },
    },
    Row {
        mistake: Mistake::Escape,
        rule: Rule {
            number: 102,
            names_word: true,
            what: b"is no escape of a string",
            instead: b"write `\\\\` for a backslash itself; the escapes are `\\n`, `\\t`, `\\\\`, `\\\"` and octal digits, one to \
                three, up to `\\377`",
        },
    },
    Row {
        mistake: Mistake::LateDirective,
        rule: Rule {
            number: 110,
            names_word: true,
            what: b"isn't the first thing on its line",
            instead: b"begin a line with it: no comment may stand before it, either",
        },
    },
    Row {
        mistake: Mistake::NamelessDirective,
        rule: Rule {
            number: 110,
            names_word: true,
            what: b"has no name behind it",
            instead: b"write the name on the same line",
        },
    },
    Row {
        mistake: Mistake::ClosedConditional,
        rule: Rule {
            number: 110,
            names_word: true,
            what: b"stands in no open conditional, or behind its ``else`",
            instead: b"take it away, or begin the conditional with `ifdef; a conditional has one `else",
        },
    },
    Row {
        mistake: Mistake::ClosedKeywords,
        rule: Rule {
            number: 110,
            names_word: true,
            what: b"ends no ``begin_keywords`",
            instead: b"take it away: it changes nothing",
        },
    },
    Row {
        mistake: Mistake::KeywordsVersion,
        rule: Rule {
            number: 110,
            names_word: true,
            what: b"names no version of Verilog",
            instead: b"write \"1364-2005\", \"1364-2001\", \"1364-2001-noconfig\" or \"1364-1995\"; or take it away with its \
                `end_keywords: it changes nothing",
        },
    },
    Row {
        mistake: Mistake::LineForm,
        rule: Rule {
            number: 110,
            names_word: true,
            what: b"needs a number, a file in quotes, and a level of 0, 1 or 2 behind it",
            instead: b"write all three, as `line 12 \"tb.v\" 0; or take it away: it changes nothing",
        },
    },
    Row {
        mistake: Mistake::PullForm,
        rule: Rule {
            number: 110,
            names_word: true,
            what: b"needs `pull0` or `pull1` behind it",
            instead: b"take it away: an input that isn't connected is z here all the same",
        },
    },
    Row {
        mistake: Mistake::TimescaleForm,
        rule: Rule {
            number: 110,
            names_word: true,
            what: b"has another form than `1ns/100ps`",
            instead: b"write 1, 10 or 100 and one of s, ms, us, ns, ps and fs, before the slash and behind it",
        },
    },
    Row {
        mistake: Mistake::TimescaleHalf,
        rule: Rule {
            number: 110,
            names_word: true,
            what: b"has no precision",
            instead: b"write it behind the unit and a slash: `timescale 1ns/1ns",
        },
    },
    Row {
        mistake: Mistake::TimescaleOrder,
        rule: Rule {
            number: 110,
            names_word: true,
            what: b"has a precision that is longer than its unit",
            instead: b"write the unit first, and behind it a precision that is as long or shorter: `timescale 1ns/1ps",
        },
    },
];

// Told of words.
static OF_WORDS: [Row; 10] = [
    Row {
        mistake: Mistake::LongName,
        rule: Rule {
            number: 201,
            names_word: true,
            what: b"is one name up to the next blank",
            instead: b"write a blank behind an escaped name",
        },
    },
    Row {
        mistake: Mistake::InputReg,
        rule: Rule {
            number: 201,
            names_word: false,
            what: b"an input that is a `reg`",
            instead: b"leave the `reg` away: an input is a net; what the module itself writes is a variable of another name",
        },
    },
    Row {
        mistake: Mistake::TwoTypes,
        rule: Rule {
            number: 201,
            names_word: false,
            what: b"a declaration with two types",
            instead: b"write one of them: `output reg q`, or `output integer q`",
        },
    },
    Row {
        mistake: Mistake::SizedInteger,
        rule: Rule {
            number: 201,
            names_word: false,
            what: b"a range or a sign behind `integer` or `time`",
            instead: b"leave it away: an `integer` has 32 bits and a sign, a `time` 64 bits; a vector of another size is a `reg`",
        },
    },
    Row {
        mistake: Mistake::TypedPort,
        rule: Rule {
            number: 201,
            names_word: false,
            what: b"a port without a direction",
            instead: b"write `input` or `output` before its type",
        },
    },
    Row {
        mistake: Mistake::ParameterWord,
        rule: Rule {
            number: 201,
            names_word: false,
            what: b"a parameter without the word `parameter`",
            instead: b"write the word before it: `#(parameter integer N = 3)`",
        },
    },
    Row {
        mistake: Mistake::LocalInList,
        rule: Rule {
            number: 201,
            names_word: false,
            what: b"a `localparam` in the list of parameters",
            instead: b"declare it behind the head of the module",
        },
    },
    Row {
        mistake: Mistake::SemicolonInList,
        rule: Rule {
            number: 201,
            names_word: false,
            what: b"a semicolon in a list",
            instead: b"write a comma between ports or parameters, and a parenthesis behind the last one",
        },
    },
    Row {
        mistake: Mistake::CommaAtEnd,
        rule: Rule {
            number: 201,
            names_word: false,
            what: b"a comma behind the last one of a list",
            instead: b"take the comma away",
        },
    },
    Row {
        mistake: Mistake::OpenArguments,
        rule: Rule {
            number: 201,
            names_word: false,
            what: b"arguments of a print task without parentheses",
            instead: b"write parentheses round them: `$display(\"x\");`",
        },
    },
];

// Told of designs.
static OF_DESIGNS: [Row; 15] = [
    Row {
        mistake: Mistake::DeclaredPort,
        rule: Rule {
            number: 302,
            names_word: true,
            what: b"is a port that is declared already",
            instead: b"take one of the declarations away; of a port that is a variable one says all: `output reg y`",
        },
    },
    Row {
        mistake: Mistake::IntegerPort,
        rule: Rule {
            number: 302,
            names_word: true,
            what: b"is a port that is declared again as an `integer` or a `time`",
            instead: b"write `output integer y`, or `output time y`, in place of both declarations",
        },
    },
    Row {
        mistake: Mistake::SamePort,
        rule: Rule {
            number: 302,
            names_word: true,
            what: b"stands twice in the list of ports",
            instead: b"give each port a name of its own; two inputs are joined by what the instance connects to both",
        },
    },
    Row {
        mistake: Mistake::LaterParameter,
        rule: Rule {
            number: 303,
            names_word: true,
            what: b"is a parameter that is declared later",
            instead: b"declare it before the constant that uses it: above that item, or in the head, `#(parameter W = 4)`",
        },
    },
    Row {
        mistake: Mistake::UndirectedPort,
        rule: Rule {
            number: 303,
            names_word: true,
            what: b"is a port without a direction",
            instead: b"write an item for it, `input b;` or `output b;`, or take it out of the list",
        },
    },
    Row {
        mistake: Mistake::UnlistedPort,
        rule: Rule {
            number: 303,
            names_word: true,
            what: b"isn't in the list of ports",
            instead: b"put it into the list behind the name of the module; what is no port is declared as `wire` or `reg`",
        },
    },
    Row {
        mistake: Mistake::NoPort,
        rule: Rule {
            number: 305,
            names_word: true,
            what: b"is no port or parameter of the module, or stands twice",
            instead: b"write the names that the head of the module has, each at most once; a `localparam` can't be set from outside",
        },
    },
    Row {
        mistake: Mistake::ConnectedPorts,
        rule: Rule {
            number: 305,
            names_word: true,
            what: b"is connected to more than it has ports, or has an output on an expression",
            instead: b"count the ports; an output is connected to a net, a bit or a part of one, or a concatenation of these, \
                without parentheses round it",
        },
    },
    Row {
        mistake: Mistake::ConnectedSize,
        rule: Rule {
            number: 306,
            names_word: true,
            what: b"has a connection of more than 64 bits, or with a bound out of its limits",
            instead: b"write bounds of a part in the direction of the declaration, from 0 to 65,535, and at most 64 bits",
        },
    },
    Row {
        mistake: Mistake::OtherRange,
        rule: Rule {
            number: 306,
            names_word: true,
            what: b"is declared with two ranges that differ",
            instead: b"write the same range both times: `output [3:0] y; reg [3:0] y;`",
        },
    },
    Row {
        mistake: Mistake::ConnectedKind,
        rule: Rule {
            number: 310,
            names_word: true,
            what: b"has an output on a variable, or a connection with a bit of what has no range",
            instead: b"connect an output to a `wire`; a variable can take its value by `always @* r = w;`",
        },
    },
    Row {
        mistake: Mistake::FormatOfString,
        rule: Rule {
            number: 310,
            names_word: true,
            what: b"is given a string, which `%s` alone shows",
            instead: b"write `%s`, or the text itself in place of the format; a letter as a number is `8'h41`. An argument that \
                is left out counts as a string, too",
        },
    },
    Row {
        mistake: Mistake::InputVariable,
        rule: Rule {
            number: 310,
            names_word: true,
            what: b"is an input, and no input is a variable",
            instead: b"leave the `reg` away; what the module itself writes is a variable of another name",
        },
    },
    Row {
        mistake: Mistake::NoArgument,
        rule: Rule {
            number: 310,
            names_word: true,
            what: b"has no argument left",
            instead: b"write an argument for each format behind its string, in their order; a percent sign is `%%`",
        },
    },
    Row {
        mistake: Mistake::ValuedPort,
        rule: Rule {
            number: 310,
            names_word: true,
            what: b"is given a value, and is no output that is a variable",
            instead: b"write `output reg y = 1`, `output integer` or `output time`; a net is driven by an `assign`, and an input \
                from outside",
        },
    },
];

// What is told of the mistake, if it is one of these.
fn rule_among(rows: &'static [Row], mistake: Mistake) -> Option<&'static Rule> {
    for row in rows {
        if row.mistake == mistake {
            return Some(&row.rule);
        }
    }
    None
}

/// What is told of the mistake.
pub(crate) fn rule_for(mistake: Mistake) -> Option<&'static Rule> {
    let tables: [&'static [Row]; 3] = [&OF_LETTERS, &OF_WORDS, &OF_DESIGNS];
    for rows in &tables {
        if let Some(rule) = rule_among(*rows, mistake) {
            return Some(rule);
        }
    }
    None
}
