// What each number of a fault with a place says in words (docs/FAULTS.md).

/// What is told of a fault of this number: where it names its word, that word stands before the rest.
pub(crate) struct Rule {
    pub(crate) number: u16,
    pub(crate) names_word: bool,
    pub(crate) what: &'static [u8],
    pub(crate) instead: &'static [u8],
}

static RULES: [Rule; 20] = [
    Rule {
        number: 101,
        names_word: false,
        what: b"a comment or a string that begins here isn't ended",
        instead: b"end it; a string ends on its line",
    },
    Rule {
        number: 102,
        names_word: false,
        what: b"a bad character, number or escape",
        instead: b"write digits of the base, and a blank before a letter; behind a backslash some letters of a name, without \
            a dot; no octal escape over `\\377`",
    },
    Rule {
        number: 110,
        names_word: false,
        what: b"this directive is ill formed, isn't first on its line, or has no open conditional",
        instead: b"write it first on its line; a macro can't have arguments",
    },
    Rule {
        number: 111,
        names_word: true,
        what: b"isn't a macro",
        instead: b"define it before its use; in place of an include name the files, in their order",
    },
    Rule {
        number: 112,
        names_word: false,
        what: b"macros or conditionals nest too deep here, or the text grows too large",
        instead: b"take a macro out of its own text, make less text by macros, or write loops in place of many statements",
    },
    Rule {
        number: 113,
        names_word: false,
        what: b"a conditional that begins here is left open",
        instead: b"end it with `endif",
    },
    Rule {
        number: 114,
        names_word: false,
        what: b"a second timescale differs from the first",
        instead: b"write one timescale for the whole text, and all delays in its unit",
    },
    Rule {
        number: 201,
        names_word: true,
        what: b"is unexpected here",
        instead: b"look at the words before it: a semicolon may be missing at the end of the line before; docs/LANGUAGE.md has the grammar",
    },
    Rule {
        number: 202,
        names_word: true,
        what: b"isn't in the profile",
        instead: b"write it with what docs/LANGUAGE.md lists",
    },
    Rule {
        number: 203,
        names_word: true,
        what: b"stands deeper than 64 statements and expressions",
        instead: b"take `begin` and `end` away where one statement stands between them, or group a long sum by parentheses; a long \
            chain of `else if` becomes a `case`",
    },
    Rule {
        number: 301,
        names_word: true,
        what: b"is no module of the text",
        instead: b"give the file with that module, too",
    },
    Rule {
        number: 302,
        names_word: true,
        what: b"is declared twice",
        instead: b"rename one, or take one of the declarations away",
    },
    Rule {
        number: 303,
        names_word: true,
        what: b"isn't declared here",
        instead: b"declare it in this module, a net as `wire w;` (none is declared by its use); what a constant uses has to stand \
            before it",
    },
    Rule {
        number: 304,
        names_word: false,
        what: b"a net, or a bit of one, is driven a second time here",
        instead: b"give each driver a net of its own, and join them in one `assign`: `assign w = en1 ? a : en2 ? b : 1'bz;`. Of a \
            vector each bit may have one driver",
    },
    Rule {
        number: 305,
        names_word: true,
        what: b"doesn't fit what it is connected to",
        instead: b"connect each port at most once, and an output to a net, to a bit or a part of one, or to a concatenation of these",
    },
    Rule {
        number: 306,
        names_word: true,
        what: b"has more than 64 bits, or a bound or a count out of its limits",
        instead: b"split the vector, turn the part round, or write bounds from 0 to 65,535 and a count from 1 to 64",
    },
    Rule {
        number: 307,
        names_word: true,
        what: b"isn't a constant",
        instead: b"write it with numbers and parameters",
    },
    Rule {
        number: 308,
        names_word: true,
        what: b"makes instances more than 16 levels deep",
        instead: b"a module can't stand in itself; take levels out",
    },
    Rule {
        number: 309,
        names_word: true,
        what: b"is one process, variable or instance too many",
        instead: b"split the testbench, or put `initial`s whose order doesn't matter into one; docs/LANGUAGE.md, Limits, has what \
            counts how much",
    },
    Rule {
        number: 310,
        names_word: true,
        what: b"is of another kind than its use asks for",
        instead: b"declare it as what it is used as: a `reg` where statements write it, a `wire` where an `assign` or an output drives it",
    },
];

/// What is told of the number, if it has a place.
pub(crate) fn rule_of(number: u16) -> Option<&'static Rule> {
    for rule in &RULES {
        if rule.number == number {
            return Some(rule);
        }
    }
    None
}
