// What is printed, and the tokens whose letters it shows.

use crate::text::Text;
use basis::NoMemory;
use std::alloc::Global;
use vast::token::Token;
use vlex::Tokens;

/// The line that is being made, and the tokens of the text.
#[derive(Drop)]
pub struct Page<'t> {
    tokens: &'t Tokens<'t>,
    pub line: Text,
}

impl<'t> Page<'t> {
    /// An empty line.
    pub fn new(alloc: Global, tokens: &'t Tokens<'t>) -> Page<'t> {
        Page {
            tokens,
            line: Text::new(alloc),
        }
    }

    /// The line with its end, unless a growth was refused.
    pub fn finish(mut self) -> Result<Vec<u8>, NoMemory> {
        self.line.put(b"\n");
        self.line.finish()
    }

    /// A word, behind a blank.
    pub fn word(&mut self, word: &[u8]) {
        self.line.put_all(&[b" ", word]);
    }

    /// The letters of a token, behind a blank.
    pub fn token(&mut self, token: Token) {
        let letters = letters(self.tokens, token);
        self.word(letters);
    }

    /// The letters of a token if there is one, else a dash.
    pub fn optional(&mut self, token: &Option<Token>) {
        match token {
            None => self.word(b"-"),
            Some(token) => self.token(*token),
        }
    }

    /// The letters of each of these tokens.
    pub fn tokens(&mut self, list: &[Token]) {
        for token in list {
            self.token(*token);
        }
    }

    /// The head of a node of this kind, behind a blank.
    pub fn open(&mut self, kind: &[u8]) {
        self.line.put_all(&[b" (", kind]);
    }

    /// The head of a node of this kind with a token first in it.
    pub fn open_with(&mut self, kind: &[u8], token: Token) {
        self.open(kind);
        self.token(token);
    }

    /// The end of a node.
    pub fn close(&mut self) {
        self.line.put(b")");
    }

    /// A node of this kind with nothing in it.
    pub fn empty(&mut self, kind: &[u8]) {
        self.line.put_all(&[b" (", kind, b")"]);
    }

    /// A node of this kind with a token in it.
    pub fn leaf(&mut self, kind: &[u8], token: Token) {
        self.open_with(kind, token);
        self.close();
    }

    /// This word where it holds, else a dash.
    pub fn mark(&mut self, holds: bool, word: &[u8]) {
        self.word(if holds { word } else { b"-" });
    }
}

// The letters of a token, none where there are fewer tokens.
fn letters<'t>(tokens: &Tokens<'t>, token: Token) -> &'t [u8] {
    if (token.number as usize) < tokens.len() {
        tokens.text(token.number as usize)
    } else {
        b""
    }
}
