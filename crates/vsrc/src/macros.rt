// The macros that are defined, and what their uses make (IEEE 1364-2005, 19.3).

ghost use Rattle.std.specs.Prelude.{◌≡◌, ◌≤◌, ◌<◌, length, OnOk, Ok, Err};
ghost use Rattle.basis.specs.Reasons.{IfFault};
ghost use Rattle.vsrc.specs.Source.{text_limit};
ghost use Rattle.vsrc.specs.Macros.{make_use, piece};
ghost use Rattle.vsrc.specs.Pieces.{by_name, names_of, macros_of, of_text, AreCut, IsCut, IsPiece};

use crate::output::Output;
use crate::pieces::{
    Kind, Macro, Piece, Texts, cut, head_of, macro_at, macro_by, may_be_macro, set, used_name,
    why_unknown,
};
use crate::refusal::{Refusal, Why, refuse};
use basis::{NoMemory, OrMemory};
use indexmap::IndexMap;
use std::alloc::Global;
use std::marker::Model;

/// The macros that are defined, by the bytes of their names.
#[derive(Drop)]
pub struct Table {
    texts: Texts,
}

impl Model for Table {
    ghost use Rattle.vsrc.specs.Pieces.{Texts, texts_of, AreCut};

    ghost Value = { Texts };

    ghost view = { λ t. texts_of t.texts.entries };

    ghost invariant = { λ t. AreCut t.texts.entries };
}

impl Table {
    ghost use Rattle.std.specs.Prelude.{None, Some, is_some};
    ghost use Rattle.vsrc.specs.Macros.{no_macros, redefine};

    /// No macros.
    pub fn new(alloc: Global) -> Self
        ensures { by_name result ≡ no_macros }
    {
        Table {
            texts: IndexMap::new(alloc),
        }
    }

    /// Gives the name a text, in place of the one that it may have.
    pub fn define(&mut self, alloc: Global, name: &[u8], text: Vec<u8>) -> Result<(), NoMemory>
        ensures { OnOk result
            (by_name self.new ≡ redefine name.now (Some text.items) (by_name self.old)) }
    {
        let uses = cut(alloc, &mut self.texts, &text)?;
        set(alloc, &mut self.texts, name, Some(Macro { text, uses }))
    }

    /// Takes the name's text away, if it has one.
    pub fn undefine(&mut self, alloc: Global, name: &[u8]) -> Result<(), NoMemory>
        ensures { OnOk result
            (by_name self.new ≡ redefine name.now None (by_name self.old)) }
    {
        set(alloc, &mut self.texts, name, None)
    }

    /// Whether the name has a text.
    pub fn has(&self, name: &[u8]) -> bool
        ensures { result ≡ is_some (by_name self.now name.now) }
    {
        macro_by(&self.texts, name).is_some()
    }
}

/// Puts what a use of the name makes, for a use at `at` with so many levels left: its text, with each use in it
/// expanded in turn. E110 where the name is none, or a directive's; E111 where it has no macro; E112 where macros
/// nest too deep, or uses or text get too many.
pub fn put_use(
    table: &Table,
    name: &[u8],
    at: usize,
    levels: u32,
    made: &mut Output,
) -> Result<(), OrMemory<Refusal>>
    requires { at ≤ text_limit }
    ensures ok { OnOk result (make_use levels (by_name table.now) at name.now made.old ≡ Ok made.new) }
    ensures err { IfFault result (λ refusal.
        make_use levels (by_name table.now) at name.now made.old ≡ Err refusal) }
{
    if !may_be_macro(name) {
        return Err(refuse(Why::Directive, at));
    }
    let Some(found) = macro_by(&table.texts, name) else {
        return Err(refuse(why_unknown(name), at));
    };
    put_macro(&table.texts, found, at, levels, made)
}

// Puts what a use of the macro makes.
#[cycle(uses)]
fn put_macro(
    texts: &Texts,
    found: &Macro,
    at: usize,
    levels: u32,
    made: &mut Output,
) -> Result<(), OrMemory<Refusal>>
    requires place { at ≤ text_limit }
    requires texts { AreCut texts.now.entries }
    requires found { IsCut (names_of texts.now.entries) found.now }
    ensures ok { OnOk result
        (of_text levels (macros_of texts.now.entries) at found.now.text.items made.old ≡ Ok
        made.new) }
    ensures err { IfFault result (λ refusal.
        of_text levels (macros_of texts.now.entries) at found.now.text.items made.old ≡ Err
        refusal) }
{
    if levels == 0 {
        return Err(refuse(Why::Limit, at));
    }
    if made.is_used_up() {
        return Err(refuse(Why::Limit, at));
    }
    made.count();
    let text = found.text.as_slice();
    let uses = found.uses.as_slice();
    let mut from = 0;
    let mut next = 0;
    while from < text.len() {
        let rest = text.split_at(from).1;
        let (head, after) = head_of(rest, uses, next);
        put_piece(texts, head, rest, at, levels - 1, made)?;
        from += head.len;
        next = after;
    }
    Ok(())
}

// Puts what the piece makes that stands at the head of what is left of a macro's text.
#[cycle(uses)]
fn put_piece(
    texts: &Texts,
    head: Piece,
    rest: &[u8],
    at: usize,
    levels: u32,
    made: &mut Output,
) -> Result<(), OrMemory<Refusal>>
    requires place { at ≤ text_limit }
    requires texts { AreCut texts.now.entries }
    requires head { IsPiece (names_of texts.now.entries) rest.now head }
    ensures ok { OnOk result
        (piece (make_use levels (macros_of texts.now.entries) at) at rest.now made.old ≡ Ok
        made.new) }
    ensures err { IfFault result (λ refusal.
        piece (make_use levels (macros_of texts.now.entries) at) at rest.now made.old ≡ Err
        refusal) }
{
    match head.kind {
        Kind::Kept => made.put_given(rest.split_at(head.len).0, at),
        Kind::Refused => Err(refuse(Why::Directive, at)),
        Kind::Use(index) => match macro_at(texts, index) {
            None => Err(refuse(why_unknown(used_name(rest)), at)),
            Some(found) => put_macro(texts, found, at, levels, made),
        },
    }
}
