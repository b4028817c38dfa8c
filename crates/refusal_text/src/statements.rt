// Constructs of statements, told by their form.

use crate::construct::Construct;
use crate::expressions::is_in_statements;
use crate::system_verilog::{self, is_unit};
use crate::walk::{ALWAYS, Group, Opening, Walk};
use crate::words::{Words, is, is_name, is_one_of};

// Behind these a statement begins.
const FRONTS: &str =
    "begin end else ; initial always final forever fork join ) endcase default endtask";

// Blocks that may have a name.
const NAMED_BLOCKS: &str = "begin fork";

const EDGES: &str = "posedge negedge";

const ASSIGNING: &str = "= <=";

/// Whether a statement begins at the word so many places earlier.
pub(crate) fn begins_statement(words: Words<'_>, fewer: usize) -> bool {
    let front = words.word_before(fewer.saturating_add(1));
    let second = words.word_before(fewer.saturating_add(2));
    let third = words.word_before(fewer.saturating_add(3));
    if is_one_of(front, FRONTS) {
        return true;
    }
    if is(front, ":") {
        return !is_one_of(second, NAMED_BLOCKS);
    }
    if is(second, ":") {
        return is_one_of(third, NAMED_BLOCKS);
    }
    is_one_of(second, "# @") && !is_one_of(front, EDGES)
}

// The construct of a call of a task, at the word behind its name.
fn by_call(words: Words<'_>, walk: Walk) -> Option<Construct> {
    let stands_alone = is_in_statements(walk) && walk.open == 0 && !walk.assigned;
    if !stands_alone || walk.opening != Opening::Other || !is_name(words.before) {
        return None;
    }
    let is_other = is_one_of(words.before, ALWAYS) || is_unit(words.previous());
    if !begins_statement(words, 1) || is_other {
        return None;
    }
    match system_verilog::by_call(words.before) {
        Some(construct) => Some(construct),
        None => Some(Construct::Task),
    }
}

// The construct of `:`: a name that stands nowhere here, or a value of three.
fn by_colon(words: Words<'_>, walk: Walk) -> Option<Construct> {
    if is_one_of(words.before, "fork end join") {
        return Some(Construct::BlockName);
    }
    let is_delay = walk.group == Group::Delay && walk.open == 1;
    let is_parameter = walk.opening == Opening::Parameter && walk.open == 0 && walk.assigned;
    if (is_delay || is_parameter) && walk.chosen == 0 && !walk.told {
        return Some(Construct::DelayRange);
    }
    None
}

// The construct of `@`: an event inside an assignment, or an edge without parentheses.
fn by_at(words: Words<'_>) -> Option<Construct> {
    if is_one_of(words.before, ASSIGNING) {
        return Some(Construct::EventInAssignment);
    }
    if is_one_of(words.after, EDGES) {
        return Some(Construct::EventTerm);
    }
    None
}

// The construct of a symbol inside `@( )`: an expression is waited for. The one of `@(*)` is none.
fn by_event_term(words: Words<'_>, walk: Walk) -> Option<Construct> {
    let is_all = is(words.word, "*") && is(words.before, "(") && is(words.after, ")");
    if walk.told || is_all || is_one_of(words.word, ", ) ] }") {
        return None;
    }
    Some(Construct::EventTerm)
}

/// The construct of a statement that this symbol tells.
pub(crate) fn by_symbol(words: Words<'_>, walk: Walk) -> Option<Construct> {
    match words.word {
        b":" => by_colon(words, walk),
        b"@" => by_at(words),
        b"(" if walk.open == 0 => by_call(words, walk),
        b";" => by_call(words, walk),
        _ if walk.group == Group::Event && walk.open > 0 => by_event_term(words, walk),
        _ => None,
    }
}

/// The construct that a keyword tells by where it stands.
pub(crate) fn by_name(words: Words<'_>, walk: Walk) -> Option<Construct> {
    let (word, before) = (words.word, words.before);
    if is(word, "fork") && !is_one_of(before, "wait disable") {
        return Some(Construct::Fork);
    }
    if is(word, "assign") && is_in_statements(walk) {
        return Some(Construct::ProceduralAssign);
    }
    if is(word, "repeat") && is_one_of(before, ASSIGNING) {
        return Some(Construct::EventInAssignment);
    }
    None
}
