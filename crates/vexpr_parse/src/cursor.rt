// A place between two tokens, and what stands at it.

ghost use Rattle.std.specs.Prelude.{◌≡◌, ◌++◌, [], true, false, length, drop, codes, MatchOption, OnOk};
ghost use Rattle.vwords.specs.Words.{is_leaf};
ghost use Rattle.vlex.specs.Tokenized.{Tokenized};
ghost use Rattle.vexpr_parse.specs.Texts.{words_of};
ghost use Rattle.vexpr_parse.specs.Readers.{front, is_front};
ghost use Rattle.vexpr_parse.specs.Words.{is_asked as is_asked_word};
ghost use Rattle.vexpr_parse.specs.Answers.{ahead, leaves_ahead, leaf_here, leaf_of, Heads, PassesAt, EntersAt, joining};

use crate::stop::Stop;
use crate::words::{binary_of, is};
use basis::OrMemory;
use vast::operators::rank;
use vast::token::Token;
use vlex::Tokens;
use vwords::operators::BinaryOperator;

/// A place between two tokens, and the words that are left after it.
#[derive(Clone, Copy)]
pub struct Cursor {
    at: u32,
}

/// A word at a place: its letters, and its token, which a tree keeps.
#[derive(Clone, Copy)]
pub struct Word<'t> {
    pub text: &'t [u8],
    pub token: Token,
}

impl Cursor {
    /// The place before the first token.
    pub fn start() -> Cursor
        ensures { (tokens : Tokenized) → ahead tokens result ≡ words_of tokens }
    {
        Cursor { at: 0 }
    }

    /// The place before the token of this number, or after the last token where there are no more than so many.
    pub fn at(tokens: &Tokens<'_>, number: usize) -> Cursor
        ensures { ahead tokens.now result ≡ drop number (words_of tokens.now) }
    {
        let len = tokens.len();
        if number < len {
            Cursor { at: number as u32 }
        } else {
            Cursor { at: len as u32 }
        }
    }

    /// How many words are left.
    pub fn left(&self, tokens: &Tokens<'_>) -> usize
        ensures { result ≡ length (ahead tokens.now self.now) }
    {
        tokens.len().saturating_sub(self.at as usize)
    }

    /// The word here, if there is one.
    pub fn word<'t>(&self, tokens: &Tokens<'t>) -> Option<Word<'t>>
        ensures word { MatchOption result (ahead tokens.now self.now ≡ [])
            (Heads tokens.now self.now) }
        ensures leaf { MatchOption result (leaf_here tokens.now self.now ≡ [])
            (λ word. leaf_here tokens.now self.now ≡ leaf_of word) }
    {
        if (self.at as usize) < tokens.len() {
            Some(Word {
                text: tokens.text(self.at as usize),
                token: Token { number: self.at },
            })
        } else {
            None
        }
    }

    /// Passes the word here, if there is one.
    pub fn pass(&mut self, tokens: &Tokens<'_>)
        ensures left { ahead tokens.now self.new ≡ drop 1 (ahead tokens.now self.old) }
        ensures kept { leaves_ahead tokens.now self.old ≡
            leaf_here tokens.now self.old ++ leaves_ahead tokens.now self.new }
    {
        if (self.at as usize) < tokens.len() {
            self.at += 1;
        }
    }

    /// Whether this very word stands here.
    pub fn begins(&self, tokens: &Tokens<'_>, text: &[u8]) -> bool
        ensures front { result ≡ is_front text.now (front (ahead tokens.now self.now)) }
        ensures kept { result ≡ true → is_leaf text.now ≡ false → leaf_here tokens.now self.now ≡
            [] }
    {
        match self.word(tokens) {
            None => false,
            Some(word) => is(word.text, text),
        }
    }

    /// The binary operator here, if one of this rank at least stands here.
    pub fn operator(&self, tokens: &Tokens<'_>, least: u32) -> Option<BinaryOperator>
        ensures { result ≡ joining least (front (ahead tokens.now self.now)) }
    {
        match self.word(tokens) {
            None => None,
            Some(word) => match binary_of(word.text) {
                None => None,
                Some(operator) => {
                    if least <= rank(operator) {
                        Some(operator)
                    } else {
                        None
                    }
                }
            },
        }
    }

    /// Whether a conditional goes on here, where its rank, 0, is high enough.
    pub fn is_asked(&self, tokens: &Tokens<'_>, least: u32) -> bool
        ensures { result ≡ is_asked_word least (front (ahead tokens.now self.now)) }
    {
        least == 0 && self.begins(tokens, b"?")
    }

    /// Passes this very word.
    pub fn symbol(&mut self, tokens: &Tokens<'_>, text: &[u8]) -> Result<(), OrMemory<Stop>>
        ensures passes { PassesAt tokens.now text.now self.old self.new result }
        ensures kept { is_leaf text.now ≡ false → OnOk result
            (leaves_ahead tokens.now self.old ≡ leaves_ahead tokens.now self.new) }
    {
        if self.begins(tokens, text) {
            self.pass(tokens);
            Ok(())
        } else {
            Err(OrMemory::Fault(Stop::NoTree))
        }
    }

    /// Passes the word here, which stands round so many levels, where so many are left below.
    pub fn enter(
        &mut self,
        tokens: &Tokens<'_>,
        below: u32,
        levels: u64,
    ) -> Result<(), OrMemory<Stop>>
        ensures enters { EntersAt tokens.now below levels self.old self.new result }
        ensures kept { OnOk result (leaves_ahead tokens.now self.old ≡
            leaf_here tokens.now self.old ++ leaves_ahead tokens.now self.new) }
    {
        if levels <= below as u64 {
            self.pass(tokens);
            Ok(())
        } else {
            Err(OrMemory::Fault(Stop::TooDeep))
        }
    }
}
