// Words: which bytes may stand for a name or a number (IEEE 1364-2005, 3.7 and 3.5.1).

ghost use Rattle.std.specs.Prelude.{◌≡◌};
ghost use Rattle.std.specs.List.{list_any, list_all};
ghost use Rattle.std.specs.Str.{bytes_eq};
ghost use Rattle.vwords.specs.Words.{is_reserved as is_reserved_word, is_name as is_name_text, is_simple_name as is_simple_name_text, is_escaped_name as is_escaped_name_text, is_printable as is_printable_code, are_printable as are_printable_codes, without_backslash as unescaped_text, is_number as is_number_text, is_string as is_string_text, is_time as is_time_text};
ghost use Rattle.basis.specs.Letters.{is_in_name as is_in_name_code};

use basis::{begins_name, is_in_name};

static RESERVED: [&[u8]; 96] = [
    b"always",
    b"and",
    b"assign",
    b"automatic",
    b"begin",
    b"buf",
    b"bufif0",
    b"bufif1",
    b"case",
    b"casex",
    b"casez",
    b"cell",
    b"cmos",
    b"config",
    b"deassign",
    b"default",
    b"defparam",
    b"design",
    b"disable",
    b"edge",
    b"else",
    b"end",
    b"endcase",
    b"endconfig",
    b"endfunction",
    b"endgenerate",
    b"endmodule",
    b"endprimitive",
    b"endspecify",
    b"endtable",
    b"endtask",
    b"event",
    b"for",
    b"force",
    b"forever",
    b"fork",
    b"function",
    b"generate",
    b"genvar",
    b"if",
    b"ifnone",
    b"initial",
    b"inout",
    b"input",
    b"instance",
    b"integer",
    b"join",
    b"liblist",
    b"library",
    b"localparam",
    b"macromodule",
    b"module",
    b"nand",
    b"negedge",
    b"nmos",
    b"nor",
    b"not",
    b"notif0",
    b"notif1",
    b"or",
    b"output",
    b"parameter",
    b"pmos",
    b"posedge",
    b"primitive",
    b"pulldown",
    b"pullup",
    b"real",
    b"realtime",
    b"reg",
    b"release",
    b"repeat",
    b"signed",
    b"specify",
    b"specparam",
    b"supply0",
    b"supply1",
    b"table",
    b"task",
    b"time",
    b"tri",
    b"tri0",
    b"tri1",
    b"triand",
    b"trior",
    b"trireg",
    b"unsigned",
    b"use",
    b"uwire",
    b"wait",
    b"wand",
    b"while",
    b"wire",
    b"wor",
    b"xnor",
    b"xor",
];

/// Whether the text is one of these words.
pub fn is_among(text: &[u8], words: &[&[u8]]) -> bool
    ensures { result ≡ list_any (λ word. bytes_eq word.now text.now) words.now }
{
    words.iter().any(|word| *word == text)
}

/// Whether the word is reserved (docs/LANGUAGE.md, "Words").
pub fn is_reserved(text: &[u8]) -> bool
    ensures { result ≡ is_reserved_word text.now }
{
    is_among(text, &RESERVED)
}

/// Whether the text is a name: a simple or an escaped one (3.7).
pub fn is_name(text: &[u8]) -> bool
    ensures { result ≡ is_name_text text.now }
{
    is_simple_name(text) || is_escaped_name(text)
}

// A letter or `_`, then letters, digits, `_` and `$`, and no reserved word (3.7).
fn is_simple_name(text: &[u8]) -> bool
    ensures { result ≡ is_simple_name_text text.now }
{
    match text.split_first() {
        None => false,
        Some((first, rest)) => begins_name(*first) && are_in_name(rest) && !is_reserved(text),
    }
}

fn are_in_name(bytes: &[u8]) -> bool
    ensures { result ≡ list_all is_in_name_code bytes.now }
{
    bytes.iter().all(|c| is_in_name(*c))
}

// A backslash and some printable characters (3.7.1).
fn is_escaped_name(text: &[u8]) -> bool
    ensures { result ≡ is_escaped_name_text text.now }
{
    match text.split_first() {
        None => false,
        Some((first, rest)) => *first == b'\\' && are_printable(rest),
    }
}

/// Whether these are some printable characters (3.7.1).
pub fn are_printable(bytes: &[u8]) -> bool
    ensures { result ≡ are_printable_codes bytes.now }
{
    match bytes.split_first() {
        None => false,
        Some((first, rest)) => is_printable(*first) && are_all_printable(rest),
    }
}

fn are_all_printable(bytes: &[u8]) -> bool
    ensures { result ≡ list_all is_printable_code bytes.now }
{
    bytes.iter().all(|c| is_printable(*c))
}

fn is_printable(byte: u8) -> bool
    ensures { result ≡ is_printable_code byte }
{
    b'!' <= byte && byte <= b'~'
}

/// What the word of a name names: the backslash of an escaped one isn't part of it (3.7.1).
pub fn without_backslash(text: &[u8]) -> &[u8]
    ensures { result.now ≡ unescaped_text text.now }
{
    match text.split_first() {
        None => text,
        Some((first, rest)) => { if *first == b'\\' { rest } else { text } }
    }
}

/// Whether a token is a number: it begins with a digit or an apostrophe (3.5.1).
pub fn is_number(text: &[u8]) -> bool
    ensures { result ≡ is_number_text text.now }
{
    match text.first() {
        None => false,
        Some(first) => first.is_ascii_digit() || *first == b'\'',
    }
}

/// Whether a token is a string: it begins with a quote (3.6).
pub fn is_string(text: &[u8]) -> bool
    ensures { result ≡ is_string_text text.now }
{
    match text.first() {
        None => false,
        Some(first) => *first == b'"',
    }
}

/// Whether a token is `$time` (17.7.1).
pub fn is_time(text: &[u8]) -> bool
    ensures { result ≡ is_time_text text.now }
{
    b"$time".as_slice() == text
}
