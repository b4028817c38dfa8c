// The uses in the texts of macros, found where those are defined, so that no use looks at a name in a text again.

ghost use Rattle.std.specs.Prelude.{◌≡◌, ◌<◌, ◌++◌, ◌∷◌, ℕ, List, true, length, is_some, slice_get, [], None, Some, IfOk, OnOk, IfSome};
ghost use Rattle.vsrc.specs.Macros.{may_be_macro, why_unknown, redefine};
ghost use Rattle.vsrc.specs.Pieces.{names_of, macros_of, text_of, found_text, begins_use, head_of, is_use, next_of, used_name, uses_in, AreCut, AreUses, IsCut, IsCutIfAny, IsPiece, IsUse, Keeps};

use crate::outside::stretch_len;
use crate::refusal::Why;
use crate::words::{directive_of, ignored_of, name_len};
use basis::NoMemory;
use indexmap::IndexMap;
use std::alloc::Global;

/// What a piece of a macro's text is.
#[derive(Clone, Copy)]
pub enum Kind {
    /// Bytes that stay.
    Kept,
    /// A backtick and the name of this index.
    Use(usize),
    /// A backtick and a name that no macro can have.
    Refused,
}

/// A piece of a macro's text.
#[derive(Clone, Copy)]
pub struct Piece {
    pub len: usize,
    pub kind: Kind,
}

/// A macro: its text, and the uses in that.
#[derive(Drop)]
pub struct Macro {
    pub text: Vec<u8>,
    pub uses: Vec<Piece>,
}

/// The macros by their names. A name keeps its index, also where it has no macro.
pub type Texts = IndexMap<Vec<u8>, Option<Macro>>;

/// Whether the name after a backtick may be a macro's.
pub fn may_be_macro(name: &[u8]) -> bool
    ensures { result ≡ may_be_macro name.now }
{
    if name.is_empty() {
        return false;
    }
    directive_of(name).is_none()
}

/// Why a name without a macro can't be used.
pub fn why_unknown(name: &[u8]) -> Why
    ensures { result ≡ why_unknown name.now }
{
    if ignored_of(name).is_some() {
        Why::Directive
    } else {
        Why::Macro
    }
}

/// The macro of a name, if it has one.
pub fn macro_by<'s>(texts: &'s Texts, name: &[u8]) -> Option<&'s Macro>
    requires { AreCut texts.now.entries }
    ensures text { found_text result ≡ macros_of texts.now.entries name.now }
    ensures cut { IfSome result (λ found. IsCut (names_of texts.now.entries) found.now) }
{
    match texts.get_index_of(name) {
        None => None,
        Some(index) => macro_at(texts, index),
    }
}

/// The macro of the name at an index, if it has one.
pub fn macro_at(texts: &Texts, index: usize) -> Option<&Macro>
    requires { AreCut texts.now.entries }
    ensures text { (name : List ℕ) → slice_get (names_of texts.now.entries) index ≡ Some name →
        found_text result ≡ macros_of texts.now.entries name }
    ensures cut { IfSome result (λ found. IsCut (names_of texts.now.entries) found.now) }
{
    match texts.get_index(index) {
        None => None,
        Some((_, found)) => found.as_ref(),
    }
}

/// Gives the name a macro, or none, in place of the one that it may have.
pub fn set(
    alloc: Global,
    texts: &mut Texts,
    name: &[u8],
    found: Option<Macro>,
) -> Result<(), NoMemory>
    requires old { AreCut texts.old.entries }
    requires found { IsCutIfAny (names_of texts.old.entries) found }
    ensures cut { AreCut texts.new.entries }
    ensures ok { OnOk result
        (macros_of texts.new.entries ≡ redefine name.now (text_of found)
        (macros_of texts.old.entries)) }
{
    let mut key = Vec::new(alloc);
    key.extend_from_slice(name)?;
    texts.insert(key, found)?;
    Ok(())
}

/// The piece at the head of what is left of a text, and the index of the next of the uses that are left.
pub fn head_of(rest: &[u8], uses: &[Piece], next: usize) -> (Piece, usize)
    requires some { 0 < length rest.now }
    requires within { begins_use rest.now ≡ true → next < length uses.now }
    ensures head { result.0 ≡ head_of rest.now uses.now next }
    ensures next { result.1 ≡ next_of rest.now next }
{
    if begins_use(rest) {
        return (uses[next], next + 1);
    }
    let head = Piece {
        len: stretch_len(rest),
        kind: Kind::Kept,
    };
    (head, next)
}

/// The name behind the backtick at the head.
pub fn used_name(rest: &[u8]) -> &[u8]
    ensures { result.now ≡ used_name rest.now }
{
    if rest.is_empty() {
        return rest;
    }
    let behind = rest.split_at(1).1;
    behind.split_at(name_len(behind)).0
}

// Whether a backtick stands at the head.
fn begins_use(rest: &[u8]) -> bool
    ensures { result ≡ begins_use rest.now }
{
    if rest.is_empty() {
        return false;
    }
    rest[0] == b'`'
}

/// The uses in a macro's text.
#[tactic(auto, using(crate::proofs::Cutting::keeps_on))]
pub fn cut(alloc: Global, texts: &mut Texts, text: &[u8]) -> Result<Vec<Piece>, NoMemory>
    ensures keeps { Keeps texts.old.entries texts.new.entries }
    ensures cut { IfOk result (λ uses. AreUses (names_of texts.new.entries) text.now uses.items []) }
{
    let mut uses = Vec::new(alloc);
    let mut from = 0;
    while from < text.len() {
        let piece = piece_of(alloc, texts, text.split_at(from).1)?;
        add(&mut uses, piece)?;
        from += piece.len;
    }
    Ok(uses)
}

// Adds a piece to the uses where it is one.
fn add(uses: &mut Vec<Piece>, piece: Piece) -> Result<(), NoMemory>
    ensures { OnOk result (uses.new.items ≡ uses.old.items ++ uses_in (piece ∷ [])) }
{
    if !is_use(piece.kind) {
        return Ok(());
    }
    uses.push(piece)?;
    Ok(())
}

fn is_use(kind: Kind) -> bool
    ensures { result ≡ is_use kind }
{
    match kind {
        Kind::Kept => false,
        Kind::Use(_) => true,
        Kind::Refused => true,
    }
}

// The piece at the head of what is left of a text.
fn piece_of(alloc: Global, texts: &mut Texts, rest: &[u8]) -> Result<Piece, NoMemory>
    requires { 0 < length rest.now }
    ensures keeps { Keeps texts.old.entries texts.new.entries }
    ensures piece { IfOk result (IsPiece (names_of texts.new.entries) rest.now) }
{
    if rest[0] != b'`' {
        return Ok(Piece {
            len: stretch_len(rest),
            kind: Kind::Kept,
        });
    }
    let behind = rest.split_at(1).1;
    let len = name_len(behind);
    let kind = kind_of(alloc, texts, behind.split_at(len).0)?;
    Ok(Piece { len: 1 + len, kind })
}

// What the name behind a backtick is.
fn kind_of(alloc: Global, texts: &mut Texts, name: &[u8]) -> Result<Kind, NoMemory>
    ensures keeps { Keeps texts.old.entries texts.new.entries }
    ensures kind { IfOk result (IsUse (names_of texts.new.entries) name.now) }
{
    if !may_be_macro(name) {
        return Ok(Kind::Refused);
    }
    let index = index_of(alloc, texts, name)?;
    Ok(Kind::Use(index))
}

// The index of a name, which gets one where it had none.
fn index_of(alloc: Global, texts: &mut Texts, name: &[u8]) -> Result<usize, NoMemory>
    ensures keeps { Keeps texts.old.entries texts.new.entries }
    ensures index { IfOk result (λ index.
        slice_get (names_of texts.new.entries) index ≡ Some name.now) }
{
    if let Some(index) = texts.get_index_of(name) {
        return Ok(index);
    }
    let mut key = Vec::new(alloc);
    key.extend_from_slice(name)?;
    let (index, _) = texts.insert_full(key, None)?;
    Ok(index)
}
