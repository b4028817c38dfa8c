// The tokens of a text: where each stands in it.

ghost use Rattle.std.specs.Prelude.{◌≡◌, ◌<◌, ◌≤◌, length, slice_get, Some};
ghost use Rattle.std.specs.Option.{option_map};

use crate::kind::TokenKind;
use std::marker::Model;
use vsrc::{Expanded, Place};

/// Where a token stands in the text, and its kind.
#[derive(Clone, Copy, PartialEq, Eq)]
pub struct Span {
    pub start: u32,
    pub len: u32,
    pub kind: TokenKind,
}

/// The tokens of a text, in order. Each takes 12 bytes; their bytes stand in the text.
#[derive(Drop)]
pub struct Tokens<'a> {
    source: &'a Expanded,
    spans: Vec<Span>,
}

impl<'a> Model for Tokens<'a> {
    ghost use Rattle.vlex.specs.Tokenized.{Tokenized};
    ghost use Rattle.vlex.specs.Inner.{AreKept};

    ghost Value = { Tokenized };

    ghost view = { λ t. record { source = t.source.now; spans = t.spans.items } };

    ghost invariant = { λ t. AreKept t.source.now.text t.spans.items };
}

impl<'a> Tokens<'a> {
    ghost use Rattle.vlex.specs.Tokenized.{pieces_of, kind_at, text_at, start_of};
    ghost use Rattle.vlex.specs.Inner.{AreKept};
    ghost use Rattle.vsrc.specs.Source.{place_of, text_limit};

    pub(crate) fn new(source: &'a Expanded, spans: Vec<Span>) -> Tokens<'a>
        requires { AreKept source.now.text spans.items }
        ensures { result ≡ record { source = source.now; spans = spans.items } }
    {
        Tokens { source, spans }
    }

    /// How many tokens there are, at most as many as a text may have bytes.
    pub fn len(&self) -> usize
        ensures value { result ≡ length (pieces_of self.now) }
        ensures few { result ≤ text_limit }
    {
        self.spans.len()
    }

    /// The kind of the token at `index`, from 0.
    pub fn kind(&self, index: usize) -> TokenKind
        requires { index < length (pieces_of self.now) }
        ensures { kind_at self.now index ≡ Some result }
    {
        self.spans[index].kind
    }

    /// Where the token at `index` stands, from 0.
    pub(crate) fn span(&self, index: usize) -> Span
        requires { index < length (pieces_of self.now) }
        ensures { slice_get self.now.spans index ≡ Some result }
    {
        self.spans[index]
    }

    /// The bytes of the token at `index`, from 0.
    pub fn text(&self, index: usize) -> &'a [u8]
        requires { index < length (pieces_of self.now) }
        ensures { text_at self.now index ≡ Some result.now }
    {
        let span = self.spans[index];
        let rest = self.source.text().split_at(span.start as usize).1;
        rest.split_at(span.len as usize).0
    }

    /// The place where the token at `index` begins; of the text's end where `index` is the length.
    pub fn place(&self, index: usize) -> Place
        requires { index ≤ length (pieces_of self.now) }
        ensures { result ≡ place_of self.now.source (start_of self.now index) }
    {
        let at = if index < self.spans.len() {
            self.spans[index].start as usize
        } else {
            self.source.text().len()
        };
        self.source.place(at)
    }
}
