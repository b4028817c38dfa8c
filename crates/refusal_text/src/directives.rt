// Directives that are refused, and what is wrong with them (docs/LANGUAGE.md, "Directives").

use crate::letters::{Letters, len_of};
use crate::lines::{from, front};
use crate::mistakes::Mistake;
use crate::words::{is, is_one_of};
use basis::digits_len;

// The directives that there are, by their words.
const DIRECTIVES: &str =
    "define undef ifdef ifndef elsif else endif timescale default_nettype celldefine endcelldefine resetall \
    begin_keywords end_keywords line pragma unconnected_drive nounconnected_drive";

// Those that have a name behind them.
const NAMING: &str = "define undef ifdef ifndef elsif default_nettype";

// Those that stand in a conditional.
const CONDITIONAL: &str = "elsif else endif";

// Directives of other simulators, and of annexes of the standard: those that stand alone, and those that have the rest of their line.
const OTHERS: &str =
    "accelerate noaccelerate autoexpand_vectornets expand_vectornets noexpand_vectornets delay_mode_distributed \
    delay_mode_path delay_mode_unit delay_mode_zero disable_portfaults enable_portfaults nosuppress_faults \
    suppress_faults protect endprotect protected endprotected remove_gatenames noremove_gatenames remove_netnames \
    noremove_netnames signed unsigned";

const WITH_LINE: &str =
    "default_decay_time default_rswitch_strength default_switch_strength default_trireg_strength uselib";

// The units of a timescale, each with its power of ten in femtoseconds.
struct Unit {
    word: &'static str,
    power: usize,
}

const UNITS: [Unit; 6] = [
    Unit {
        word: "s",
        power: 15,
    },
    Unit {
        word: "ms",
        power: 12,
    },
    Unit {
        word: "us",
        power: 9,
    },
    Unit {
        word: "ns",
        power: 6,
    },
    Unit {
        word: "ps",
        power: 3,
    },
    Unit {
        word: "fs",
        power: 0,
    },
];

// A length of time, as a power of ten in femtoseconds, and what stands behind it.
#[derive(Clone, Copy)]
struct Span<'a> {
    power: usize,
    behind: &'a [u8],
}

// What stands behind blanks.
fn without_blanks(rest: &[u8]) -> &[u8] {
    from(rest, len_of(Letters::Blanks, rest))
}

// The power of ten that these digits write: 1, 10 or 100.
fn count_of(digits: &[u8]) -> Option<usize> {
    match digits {
        digits if is(digits, "1") => Some(0),
        digits if is(digits, "10") => Some(1),
        digits if is(digits, "100") => Some(2),
        _ => None,
    }
}

fn power_of(word: &[u8]) -> Option<usize> {
    for unit in &UNITS {
        if is(word, unit.word) {
            return Some(unit.power);
        }
    }
    None
}

// The length of time behind blanks.
fn span_behind(rest: &[u8]) -> Option<Span<'_>> {
    let number = without_blanks(rest);
    let digits = digits_len(number);
    let count = count_of(front(number, digits))?;
    let unit = without_blanks(from(number, digits));
    let len = len_of(Letters::OfName, unit);
    let power = power_of(front(unit, len))?;
    Some(Span {
        power: power.saturating_add(count),
        behind: from(unit, len),
    })
}

// What is wrong with a timescale.
fn of_timescale(behind: &[u8]) -> Option<Mistake> {
    let Some(unit) = span_behind(behind) else {
        return Some(Mistake::TimescaleForm);
    };
    let Some(precision) = without_blanks(unit.behind).strip_prefix(b"/") else {
        return Some(Mistake::TimescaleHalf);
    };
    match span_behind(precision) {
        None => Some(Mistake::TimescaleForm),
        Some(precision) if precision.power > unit.power => Some(Mistake::TimescaleOrder),
        Some(_) => None,
    }
}

// What is wrong with a directive that is first on its line, where its word tells it.
fn of_form(name: &[u8], behind: &[u8]) -> Option<Mistake> {
    let next = without_blanks(behind);
    match name {
        name if is(name, "timescale") => of_timescale(behind),
        name if is(name, "line") => Some(Mistake::LineForm),
        name if is(name, "begin_keywords") => Some(Mistake::KeywordsVersion),
        name if is(name, "end_keywords") => Some(Mistake::ClosedKeywords),
        name if is(name, "unconnected_drive") => Some(Mistake::PullForm),
        name if is_one_of(name, NAMING) && len_of(Letters::OfName, next) == 0 => {
            Some(Mistake::NamelessDirective)
        }
        name if is_one_of(name, CONDITIONAL) => Some(Mistake::ClosedConditional),
        _ => None,
    }
}

/// What is wrong with the directive of this name, with what stands behind it on its line, or before it.
pub(crate) fn mistake_of(name: &[u8], behind: &[u8], is_first: bool) -> Option<Mistake> {
    if !is_one_of(name, DIRECTIVES) {
        return None;
    }
    if !is_first {
        return Some(Mistake::LateDirective);
    }
    of_form(name, behind)
}

/// Whether the name is that of a directive that the profile leaves out.
pub(crate) fn is_other(name: &[u8]) -> bool {
    is_one_of(name, OTHERS) || takes_line(name)
}

/// Whether such a directive has the rest of its line.
pub(crate) fn takes_line(name: &[u8]) -> bool {
    is_one_of(name, WITH_LINE)
}
