// Constructs in expressions, told by their form.

use crate::construct::Construct;
use crate::numbers::is_wide;
use crate::undeclared::names_block;
use crate::walk::{Group, IDLES, Level, Opening, PRINTS, TYPES, Walk};
use crate::words::{Words, is, is_name, is_one_of};
use basis::digits_len;

/// Whether the word stands in statements.
pub(crate) fn is_in_statements(walk: Walk) -> bool {
    walk.level == Level::Statement || walk.level == Level::Routine
}

// Whether the word stands in an expression, or among what a statement begins with.
fn is_in_expression(walk: Walk) -> bool {
    walk.open > 0 || walk.assigned
}

// The construct of `[` behind a name that is declared, or of which there are instances.
fn by_range(words: Words<'_>, walk: Walk) -> Option<Construct> {
    let is_type = is_one_of(words.before, "vectored scalared");
    if is_in_expression(walk) || is_type || is_one_of(words.before, TYPES) {
        return None;
    }
    match walk.opening {
        Opening::Variable => Some(Construct::Memory),
        Opening::Net => Some(Construct::Memory),
        Opening::Port => Some(Construct::Memory),
        Opening::Instance if is(words.behind_brackets(), "(") => Some(Construct::InstanceArray),
        _ => None,
    }
}

// The construct of `[`: an array, a select of a select or of an expression, an edge of a bit, or an array of instances.
fn by_bracket(words: Words<'_>, walk: Walk) -> Option<Construct> {
    let before = words.before;
    let has_value = is_in_statements(walk) || is_in_expression(walk);
    if is(before, "}") || (is(before, ")") && has_value) {
        return Some(Construct::SelectOfSelect);
    }
    if is(before, "]") {
        return Some(Construct::Memory);
    }
    if !is_name(words.before) {
        return None;
    }
    if walk.group == Group::Event || is(words.second_before, "@") {
        return if walk.told {
            None
        } else {
            Some(Construct::EventTerm)
        };
    }
    by_range(words, walk)
}

// Whether the point goes on with a path that was told.
fn goes_on(words: Words<'_>) -> bool {
    if is(words.before, "]") {
        is(words.before_brackets(), ".")
    } else {
        is(words.second_before, ".")
    }
}

// The construct of a point: a real number, a hierarchical name, or a port that is an expression.
fn by_point(words: Words<'_>, walk: Walk) -> Option<Construct> {
    let before = words.before;
    if words.is_plain_before(1) {
        return Some(Construct::Real);
    }
    if is_one_of(before, "( ,") {
        let is_port = walk.level == Level::Head;
        return if is_port {
            Some(Construct::PortExpression)
        } else {
            None
        };
    }
    if !(is_name(words.before) || is(before, "]")) || !is_name(words.after) || goes_on(words) {
        return None;
    }
    if walk.group == Group::Dump || walk.opening == Opening::Defparam {
        return None;
    }
    Some(Construct::HierarchicalName)
}

// The construct of `(`: parentheses with nothing inside, or a call of a function.
fn by_parenthesis(words: Words<'_>, walk: Walk) -> Option<Construct> {
    let before = words.before;
    let may_be_empty = is_one_of(before, PRINTS) || is_one_of(before, IDLES);
    if before.starts_with(b"$") && is(words.after, ")") && !may_be_empty {
        return Some(Construct::MissingArgument);
    }
    let follows = is_one_of(words.second_before, ". #") || is(before, "iff");
    if is_name(words.before) && !follows && is_in_expression(walk) {
        return Some(Construct::Function);
    }
    None
}

// The construct of a comma with nothing before it or behind it: a connection that is left out.
fn by_comma(words: Words<'_>, walk: Walk) -> Option<Construct> {
    let next = words.after;
    let is_gap = is_one_of(next, ", )") || is(words.before, "(");
    if !is_gap || walk.open != 1 {
        return None;
    }
    if walk.level == Level::Items && walk.opening == Opening::Instance {
        return Some(Construct::PortGap);
    }
    None
}

// The construct of an indexed part: one that is read, or the target of an assignment.
fn by_indexed_part(walk: Walk) -> Option<Construct> {
    let is_target = is_in_statements(walk) && walk.open == 1 && !walk.assigned;
    if is_target && walk.group == Group::Plain {
        return Some(Construct::IndexedTarget);
    }
    Some(Construct::IndexedPart)
}

// The construct of an attribute.
fn by_attribute(words: Words<'_>) -> Construct {
    if names_block(words.previous()) {
        Construct::AttributeBehindName
    } else {
        Construct::Attribute
    }
}

/// The construct of an expression that this symbol tells.
pub(crate) fn by_symbol(words: Words<'_>, walk: Walk) -> Option<Construct> {
    match words.word {
        _ if walk.begins_attribute(words) => Some(by_attribute(words)),
        b"[" => by_bracket(words, walk),
        b"." => by_point(words, walk),
        b"(" => by_parenthesis(words, walk),
        b"," => by_comma(words, walk),
        word if is_one_of(word, "+: -:") => by_indexed_part(walk),
        b";" if is(words.before, "$monitor") => { Some(Construct::MissingArgument) }
        _ => None,
    }
}

// Whether the word is the exponent of a real number that has no point: `1e3`.
fn is_exponent(words: Words<'_>) -> bool {
    let Some((first, rest)) = words.word.split_first() else {
        return false;
    };
    let is_letter = *first == b'e' || *first == b'E';
    let has_digits = digits_len(rest) == rest.len();
    is_letter && has_digits && words.is_plain_before(1) && words.adjoins()
}

/// The construct that a name tells in an expression: a real number.
pub(crate) fn by_name(words: Words<'_>) -> Option<Construct> {
    if is_exponent(words) && !is(words.second_before, ".") {
        return Some(Construct::Real);
    }
    None
}

/// The construct of a number with a base: something behind its size, or a size that there isn't.
pub(crate) fn by_based_number(words: Words<'_>) -> Option<Construct> {
    let is_delay = is(words.second_before, "#");
    if words.word.starts_with(b"'") && words.is_plain_before(1) && !is_delay {
        return Some(if is_wide(words.before) {
            Construct::WideNumber
        } else {
            Construct::NumberGap
        });
    }
    None
}

/// Whether the word is an argument of a task that prints.
pub(crate) fn is_printed(words: Words<'_>, walk: Walk) -> bool {
    walk.group == Group::Print && walk.open == 1 && is_one_of(words.before, "( ,")
}

// Whether the word stands in a system call that isn't one of those.
fn is_in_other_call(walk: Walk) -> bool {
    let is_call = walk.group == Group::System || walk.group == Group::Idle;
    let is_other = is_call || walk.group == Group::Dump;
    (is_other && walk.open == 1) || (walk.call > 1 && walk.open == walk.call)
}

/// The construct that a string tells: a value, or what a print task chooses. Formats are told by themselves, and parentheses that a task
/// lacks.
pub(crate) fn by_string(words: Words<'_>, walk: Walk) -> Option<Construct> {
    let is_argument = is_printed(words, walk) || is_in_other_call(walk);
    if is_argument || is_one_of(words.before, PRINTS) {
        return None;
    }
    if walk.group == Group::Print && is_one_of(words.before, "? :") {
        return Some(Construct::ChosenString);
    }
    Some(Construct::StringValue)
}
