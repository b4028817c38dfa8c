// Constructs that one word tells: keywords, names of system tasks, operators.

use crate::construct::Construct;
use crate::phrase::{Keywords, told_alone};
use crate::walk::IDLES;
use crate::words::{Words, is, is_one_of};
use vlex::TokenKind;

static KEYWORDS: [Keywords; 22] = [
    Keywords {
        words: "disable",
        construct: Construct::Disable,
    },
    Keywords {
        words: "function",
        construct: Construct::Function,
    },
    Keywords {
        words: "task",
        construct: Construct::Task,
    },
    Keywords {
        words: "generate genvar",
        construct: Construct::Generate,
    },
    Keywords {
        words: "real realtime",
        construct: Construct::Real,
    },
    Keywords {
        words: "tri uwire supply0 supply1",
        construct: Construct::NetKind,
    },
    Keywords {
        words: "tri0 tri1",
        construct: Construct::PulledNet,
    },
    Keywords {
        words: "wand wor triand trior",
        construct: Construct::WiredNet,
    },
    Keywords {
        words: "trireg",
        construct: Construct::ChargedNet,
    },
    Keywords {
        words: "force release deassign",
        construct: Construct::Force,
    },
    Keywords {
        words: "and nand nor xor xnor not buf",
        construct: Construct::Gate,
    },
    Keywords {
        words: "bufif0 bufif1 notif0 notif1 nmos pmos cmos",
        construct: Construct::ThreeState,
    },
    Keywords {
        words: "pullup pulldown",
        construct: Construct::Pull,
    },
    Keywords {
        words: "defparam",
        construct: Construct::Defparam,
    },
    Keywords {
        words: "primitive specify specparam config library macromodule",
        construct: Construct::Primitive,
    },
    Keywords {
        words: "inout",
        construct: Construct::Inout,
    },
    Keywords {
        words: "**",
        construct: Construct::Power,
    },
    Keywords {
        words: "$random $urandom $urandom_range",
        construct: Construct::Random,
    },
    Keywords {
        words: "$monitoron $monitoroff",
        construct: Construct::MonitorSwitch,
    },
    Keywords {
        words: "$readmemb $readmemh",
        construct: Construct::ReadMemory,
    },
    Keywords {
        words: "$test$plusargs $value$plusargs",
        construct: Construct::Plusargs,
    },
    Keywords {
        words: "$fgetc $fgets $fscanf $fread $fseek $ftell $rewind $feof $ferror $ungetc",
        construct: Construct::FileTask,
    },
];

// A value follows these.
const VALUED: &str = "= <= ( , { !";

// The system names that the profile has, but for those of `IDLES`.
const SYSTEM_NAMES: &str =
    "$display $displayb $displayo $displayh $write $writeb $writeo $writeh $strobe $strobeb $strobeo $strobeh $monitor \
    $monitorb $monitoro $monitorh $dumpfile $dumpvars $dumpon $dumpoff $dumpall $dumpflush $finish $stop $time $signed \
    $unsigned";

/// The construct that the word begins, whatever stands round it.
pub(crate) fn by_keyword(words: Words<'_>) -> Option<Construct> {
    let word = words.word;
    if is(word, "disable") && is(words.after, "iff") {
        return None;
    }
    if let Some(construct) = told_alone(word, &KEYWORDS) {
        return Some(construct);
    }
    if is(word, "$fopen") && is_one_of(words.before, VALUED) {
        return Some(Construct::FileTask);
    }
    let is_known = is_one_of(word, SYSTEM_NAMES) || is_one_of(word, IDLES);
    if words.is(TokenKind::System) && !is_known {
        return Some(Construct::SystemTask);
    }
    None
}
