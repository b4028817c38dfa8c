// Which words the profile leaves out.

ghost use Rattle.std.specs.Prelude.{◌≡◌};
ghost use Rattle.vparse.specs.Profile.{keywords, system_names, left_out, is_among as is_among_texts, is_system as is_system_text, is_outside as is_outside_text};

use vwords::words::{is_among, is_reserved};

static KEYWORDS: [&[u8]; 32] = [
    b"always",
    b"assign",
    b"begin",
    b"case",
    b"casex",
    b"casez",
    b"default",
    b"else",
    b"end",
    b"endcase",
    b"endmodule",
    b"event",
    b"for",
    b"forever",
    b"if",
    b"initial",
    b"input",
    b"integer",
    b"localparam",
    b"module",
    b"negedge",
    b"or",
    b"output",
    b"parameter",
    b"posedge",
    b"reg",
    b"repeat",
    b"signed",
    b"time",
    b"wait",
    b"while",
    b"wire",
];

static SYSTEM_NAMES: [&[u8]; 48] = [
    b"$display",
    b"$displayb",
    b"$displayo",
    b"$displayh",
    b"$write",
    b"$writeb",
    b"$writeo",
    b"$writeh",
    b"$strobe",
    b"$strobeb",
    b"$strobeo",
    b"$strobeh",
    b"$monitor",
    b"$monitorb",
    b"$monitoro",
    b"$monitorh",
    b"$fdisplay",
    b"$fdisplayb",
    b"$fdisplayo",
    b"$fdisplayh",
    b"$fwrite",
    b"$fwriteb",
    b"$fwriteo",
    b"$fwriteh",
    b"$fstrobe",
    b"$fstrobeb",
    b"$fstrobeo",
    b"$fstrobeh",
    b"$fmonitor",
    b"$fmonitorb",
    b"$fmonitoro",
    b"$fmonitorh",
    b"$fopen",
    b"$fclose",
    b"$fflush",
    b"$timeformat",
    b"$printtimescale",
    b"$dumpfile",
    b"$dumpvars",
    b"$dumpon",
    b"$dumpoff",
    b"$dumpall",
    b"$dumpflush",
    b"$finish",
    b"$stop",
    b"$time",
    b"$signed",
    b"$unsigned",
];

static LEFT_OUT: [&[u8]; 3] = [b"**", b"+:", b"-:"];

/// Whether a word stands outside the profile: a reserved word, a system name or an operator that no rule of the
/// grammar names (docs/LANGUAGE.md, "Words" and "Grammar").
pub fn is_outside(word: &[u8]) -> bool
    ensures { result ≡ is_outside_text word.now }
{
    (is_reserved(word) && !is_keyword(word))
        || (is_system(word) && !is_system_name(word))
        || is_left_out(word)
}

fn is_keyword(word: &[u8]) -> bool
    ensures { result ≡ is_among_texts keywords word.now }
{
    is_among(word, &KEYWORDS)
}

fn is_system_name(word: &[u8]) -> bool
    ensures { result ≡ is_among_texts system_names word.now }
{
    is_among(word, &SYSTEM_NAMES)
}

fn is_left_out(word: &[u8]) -> bool
    ensures { result ≡ is_among_texts left_out word.now }
{
    is_among(word, &LEFT_OUT)
}

fn is_system(word: &[u8]) -> bool
    ensures { result ≡ is_system_text word.now }
{
    match word.first() {
        None => false,
        Some(first) => *first == b'$',
    }
}
