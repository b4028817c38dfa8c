// Constructs of SystemVerilog (IEEE 1800), told by their words. In Verilog most of them are names, so each is told only by the words round
// it.

use crate::construct::Construct;
use crate::expressions::is_in_statements;
use crate::phrase::{Beside, Keywords, Phrase, told_alone, told_by};
use crate::statements::begins_statement;
use crate::walk::{Level, Opening, TWO_VALUED, Walk, is_final, is_type, passes_over};
use crate::words::{Words, is, is_name, is_one_of};

// Operators that are joined to `=`.
const JOINED: &str = "+ - * / % & | ^ << >> <<<";

// What `do` stands before.
const BODIES: &str = "begin if case casez casex for while repeat # @";

const ASSERTIONS: &str = "assert assume cover";

// Methods, told by their names and the parenthesis behind them.
const METHODS: &str =
    "push_back push_front pop_back pop_front size num exists delete insert len randomize try_get try_put peek";

const TIME_UNITS: &str = "s ms us ns ps fs";

// Before these a number has a unit without being a delay.
const SCALES: &str = "timeunit timeprecision / .";

// What the name of a type tells where it declares.
static TYPE_NAMES: [Keywords; 3] = [
    Keywords {
        words: "logic",
        construct: Construct::Logic,
    },
    Keywords {
        words: TWO_VALUED,
        construct: Construct::TwoValued,
    },
    Keywords {
        words: "string",
        construct: Construct::StringType,
    },
];

// What tells something wherever it stands, by the words round it.
static PHRASES: [Phrase; 4] = [
    Phrase {
        words: "typedef",
        before: Beside::Any,
        next: Beside::One("enum struct union logic bit int byte reg"),
        then: Beside::Any,
        construct: Construct::NewType,
    },
    Phrase {
        words: "enum struct",
        before: Beside::Not("typedef"),
        next: Beside::One("{ packed logic bit int"),
        then: Beside::Any,
        construct: Construct::NewType,
    },
    Phrase {
        words: "import",
        before: Beside::Any,
        next: Beside::Any,
        then: Beside::One(":"),
        construct: Construct::Package,
    },
    Phrase {
        words: "unique priority",
        before: Beside::Any,
        next: Beside::One("case casez casex if"),
        then: Beside::Any,
        construct: Construct::Unique,
    },
];

// What begins between modules.
static UNITS: [Keywords; 5] = [
    Keywords {
        words: "package import",
        construct: Construct::Package,
    },
    Keywords {
        words: "interface",
        construct: Construct::Interface,
    },
    Keywords {
        words: "program",
        construct: Construct::Program,
    },
    Keywords {
        words: "class",
        construct: Construct::Class,
    },
    Keywords {
        words: "typedef",
        construct: Construct::NewType,
    },
];

// What begins an item of a module.
static ITEMS: [Phrase; 4] = [
    Phrase {
        words: "default",
        before: Beside::Any,
        next: Beside::One("clocking disable"),
        then: Beside::Any,
        construct: Construct::Property,
    },
    Phrase {
        // a name is given a value, or there is no list of connections
        words: "mailbox semaphore",
        before: Beside::Any,
        next: Beside::Name,
        then: Beside::One("= ; ,"),
        construct: Construct::Mailbox,
    },
    Phrase {
        words: "always_ff",
        before: Beside::Any,
        next: Beside::Any,
        then: Beside::Any,
        construct: Construct::AlwaysFf,
    },
    Phrase {
        words: "always_comb always_latch",
        before: Beside::Any,
        next: Beside::Any,
        then: Beside::Any,
        construct: Construct::AlwaysComb,
    },
];

// Statements that look like calls of tasks.
static STATEMENTS: [Keywords; 4] = [
    Keywords {
        words: "foreach",
        construct: Construct::Foreach,
    },
    Keywords {
        words: "break continue return",
        construct: Construct::Jump,
    },
    Keywords {
        words: "do",
        construct: Construct::DoWhile,
    },
    Keywords {
        words: ASSERTIONS,
        construct: Construct::Assertion,
    },
];

/// The construct of a statement that looks like the call of a task of this name.
pub(crate) fn by_call(word: &[u8]) -> Option<Construct> {
    told_alone(word, &STATEMENTS)
}

// Whether a value ends with the word before.
fn is_behind_value(words: Words<'_>) -> bool {
    let before = words.before;
    is_name(words.before) || words.is_plain_before(1) || is_one_of(before, ") ]")
}

/// Whether the word is the unit of the number before it.
pub(crate) fn is_unit(words: Words<'_>) -> bool {
    is_one_of(words.word, TIME_UNITS) && words.is_plain_before(1) && words.adjoins()
}

// Whether the word begins an assertion of a property, and no item of which that was told at its name.
fn is_assertion(words: Words<'_>, walk: Walk) -> bool {
    let is_told = walk.level == Level::Items && is(words.before, ":");
    is_one_of(words.word, ASSERTIONS) && is(words.after, "property") && !is_told
}

// The construct of an item that begins here.
fn by_first_word(words: Words<'_>) -> Option<Construct> {
    if let Some(construct) = told_by(words, &ITEMS) {
        return Some(construct);
    }
    if is_final(words) {
        return Some(Construct::Final);
    }
    if passes_over(words) {
        let is_class = is(words.word, "class");
        return Some(if is_class {
            Construct::Class
        } else {
            Construct::Property
        });
    }
    None
}

// The construct of an item, or of what stands between modules.
fn by_item(words: Words<'_>, walk: Walk) -> Option<Construct> {
    if walk.level == Level::Outside {
        return told_alone(words.word, &UNITS);
    }
    if is_assertion(words, walk) {
        return Some(Construct::Assertion);
    }
    if is(words.word, "bind") && is_name(words.after) && is_name(words.second_after) {
        return Some(Construct::Bind);
    }
    if walk.starts {
        by_first_word(words)
    } else {
        None
    }
}

// Whether the word begins a loop that is tested at its end.
fn is_loop(words: Words<'_>, walk: Walk) -> bool {
    is(words.word, "do")
        && walk.open == 0
        && (is_one_of(words.after, BODIES) || is_name(words.after))
        && begins_statement(words, 0)
}

// The construct of a word in a statement.
fn by_statement(words: Words<'_>, walk: Walk) -> Option<Construct> {
    if !is_in_statements(walk) {
        return None;
    }
    if is_loop(words, walk) {
        return Some(Construct::DoWhile);
    }
    if is(words.word, "fork") && is(words.before, "wait") {
        return Some(Construct::WaitFork);
    }
    None
}

// The construct of a word that tells it wherever it stands.
fn by_word(words: Words<'_>) -> Option<Construct> {
    if is_unit(words) && !is_one_of(words.second_before, SCALES) {
        return Some(Construct::TimeLiteral);
    }
    if is_one_of(words.word, "timeunit timeprecision") && words.is_plain_after(1) {
        return Some(Construct::TimeUnit);
    }
    if is_type(words) {
        return told_alone(words.word, &TYPE_NAMES);
    }
    told_by(words, &PHRASES)
}

// The construct of an operator that is a word.
fn by_operator(words: Words<'_>) -> Option<Construct> {
    let (word, next) = (words.word, words.after);
    if !is_behind_value(words) {
        return None;
    }
    if is(word, "inside") && is(next, "{") {
        return Some(Construct::Inside);
    }
    if is(word, "iff") && (is_name(words.after) || is_one_of(next, "( !")) {
        return Some(Construct::Iff);
    }
    None
}

/// The construct that a name tells.
pub(crate) fn by_name(words: Words<'_>, walk: Walk) -> Option<Construct> {
    if let Some(construct) = by_word(words) {
        return Some(construct);
    }
    if let Some(construct) = by_operator(words) {
        return Some(construct);
    }
    match by_item(words, walk) {
        Some(construct) => Some(construct),
        None => by_statement(words, walk),
    }
}

// The construct of a sign in a statement: `a++`, `++a`, `a += b`.
fn by_sign(words: Words<'_>, walk: Walk) -> Option<Construct> {
    let (sign, next, behind) = (words.word, words.after, words.second_after);
    if !is_in_statements(walk) {
        return None;
    }
    if is_one_of(sign, JOINED) && is(next, "=") {
        return Some(Construct::JoinedAssignment);
    }
    let is_double = is_one_of(sign, "+ -") && next == sign;
    let is_last = is_one_of(behind, "; )");
    let begins = (walk.open == 0 && begins_statement(words, 0)) || is(words.before, ";");
    if is_double && (is_last || (begins && !walk.assigned && is_name(words.second_after))) {
        return Some(Construct::Increment);
    }
    None
}

// The construct of a colon: a name of a package, or the name of an assertion.
fn by_colon(words: Words<'_>, walk: Walk) -> Option<Construct> {
    let is_path = is(words.after, ":") && words.next().adjoins() && is_name(words.before);
    let is_known = is(words.second_before, "import");
    if is_path && !is_known && (is_name(words.second_after) || is(words.second_after, "*")) {
        return Some(Construct::Package);
    }
    let is_item = walk.level == Level::Items && walk.open == 0;
    if is_item && is_one_of(words.after, ASSERTIONS) && is(words.second_after, "property") {
        return Some(Construct::Assertion);
    }
    None
}

// Whether a method of an event, a queue or an object stands behind the point.
fn is_method(words: Words<'_>) -> bool {
    let (owner, method) = (words.before, words.after);
    let is_owned = is_name(words.before) || is(owner, "]");
    let is_called = is(words.second_after, "(") && is_one_of(method, METHODS);
    is_owned && (is(method, "triggered") || is_called)
}

// The construct of a point: a method; or a connection without a value of its own.
fn by_point(words: Words<'_>, walk: Walk) -> Option<Construct> {
    if is_method(words) {
        return Some(Construct::Method);
    }
    let is_first = is_one_of(words.before, "( ,");
    let is_short = is_one_of(words.second_after, ", )");
    if is_first && walk.opening == Opening::Instance && (is(words.after, "*") || is_short) {
        return Some(Construct::ShortConnection);
    }
    None
}

/// The construct that a symbol tells.
pub(crate) fn by_symbol(words: Words<'_>, walk: Walk) -> Option<Construct> {
    match words.word {
        b"(" if is(words.before, "new") => Some(Construct::Class),
        b":" => by_colon(words, walk),
        b"." => by_point(words, walk),
        b">" if is(words.before, "->") && words.adjoins() => { Some(Construct::LaterTrigger) }
        _ => by_sign(words, walk),
    }
}
