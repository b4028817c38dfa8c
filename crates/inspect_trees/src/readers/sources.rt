// Source texts: directives and macros, places, tokens.

use crate::refusal::{Refusal, source_of, tokens_of};
use crate::text::Text;
use basis::OrMemory;
use std::alloc::Global;
use vlex::TokenKind;

/// `timescale UNIT / PRECISION` and the expanded text after it.
pub fn expansion(alloc: Global, files: &[Vec<u8>]) -> Result<Vec<u8>, OrMemory<Refusal>> {
    let source = source_of(alloc, files)?;
    let mut text = Text::new(alloc);
    text.put_span(b"timescale ", source.timescale().unit);
    text.put_span(b" / ", source.timescale().precision);
    text.put_all(&[b"\n", source.text()]);
    Ok(text.finish()?)
}

/// The place of each byte of the expanded text, and that of its end, a line each.
pub fn places(alloc: Global, files: &[Vec<u8>]) -> Result<Vec<u8>, OrMemory<Refusal>> {
    let source = source_of(alloc, files)?;
    let mut text = Text::new(alloc);
    for at in 0..source.text().len() {
        text.put_place(source.place(at), b"\n");
    }
    text.put_place(source.place(source.text().len()), b"\n");
    Ok(text.finish()?)
}

fn kind_word(kind: TokenKind) -> &'static [u8] {
    match kind {
        TokenKind::Name => b"name ",
        TokenKind::System => b"system ",
        TokenKind::Plain => b"plain ",
        TokenKind::Based => b"based ",
        TokenKind::Text => b"string ",
        TokenKind::Symbol => b"symbol ",
    }
}

/// The tokens of the files, a line for each: its kind, its place and its bytes.
pub fn words(alloc: Global, files: &[Vec<u8>]) -> Result<Vec<u8>, OrMemory<Refusal>> {
    let source = source_of(alloc, files)?;
    let tokens = tokens_of(alloc, &source)?;
    let mut text = Text::new(alloc);
    for index in 0..tokens.len() {
        text.put(kind_word(tokens.kind(index)));
        text.put_place(tokens.place(index), b" ");
        text.put_all(&[tokens.text(index), b"\n"]);
    }
    Ok(text.finish()?)
}
