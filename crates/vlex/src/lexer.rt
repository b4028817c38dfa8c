// Text to tokens, piece by piece.

ghost use Rattle.std.specs.Prelude.{◌≡◌, ◌+◌, ◌++◌, ◌≤◌, length, IfOk, OnOk};
ghost use Rattle.basis.specs.Reasons.{IfFault};
ghost use Rattle.vsrc.specs.Source.{text_limit};
ghost use Rattle.vlex.specs.Lexed.{Lexed, IsOnlyLexed, IsTokenReason, HasNoCut, HasNoTokens};
ghost use Rattle.vlex.specs.Tokenized.{pieces_of, AreTokenSpans, AreWordSpans};
ghost use Rattle.vlex.specs.Inner.{spans_of};

use crate::attributes::{has_begin, words};
use crate::delay::{is_delay, readable};
use crate::fault::LexFault;
use crate::form::{Form, Front};
use crate::front::front;
use crate::list::{Span, Tokens};
use basis::{NoMemory, OrMemory};
use std::alloc::Global;
use vsrc::Expanded;

/// The tokens of the text less attributes: the one list that meets `Lexed`. E101 where a comment or a
/// string isn't ended and E102 where no token stands, each only where no list meets it; E901 where a
/// growth was refused.
pub fn tokens<'a>(alloc: Global, source: &'a Expanded) -> Result<Tokens<'a>, OrMemory<LexFault>>
    ensures source { IfOk result (λ tokens. tokens.source ≡ source.now) }
    ensures lexed { IfOk result (λ tokens. Lexed source.now.text (pieces_of tokens)) }
    ensures words { IfOk result (λ tokens. AreWordSpans source.now.text tokens.spans) }
    ensures only { IfOk result (λ tokens. IsOnlyLexed source.now.text (pieces_of tokens)) }
    ensures none { IfFault result (λ fault. HasNoTokens source.now.text) }
    ensures reason { IfFault result (λ fault. IsTokenReason source.now fault) }
{
    let cut = cut(alloc, source)?;
    if !has_begin(&cut) {
        return Ok(cut);
    }
    let spans = words(alloc, &cut)?;
    Ok(Tokens::new(source, spans))
}

// All tokens of the text, in order.
fn cut<'a>(alloc: Global, source: &'a Expanded) -> Result<Tokens<'a>, OrMemory<LexFault>>
    ensures source { IfOk result (λ tokens. tokens.source ≡ source.now) }
    ensures spans { IfOk result (λ tokens. AreTokenSpans source.now.text tokens.spans) }
    ensures few { IfOk result (λ tokens. length tokens.spans ≤ text_limit) }
    ensures none { IfFault result (λ fault. HasNoCut source.now.text) }
    ensures reason { IfFault result (λ fault. IsTokenReason source.now fault) }
{
    let text = source.text();
    let mut spans = Vec::new(alloc);
    let mut at = 0;
    let mut delay = false;
    while at < text.len() {
        let rest = text.split_at(at).1;
        match front(readable(delay, rest)) {
            Front::Piece(form, len) => {
                push_piece(&mut spans, form, at, len)?;
                delay = is_delay(delay, form, rest.split_at(len).0);
                at += len;
            }
            Front::NotEnded => {
                return Err(OrMemory::Fault(LexFault::NotEnded {
                    place: source.place(at),
                }));
            }
            Front::Bad => {
                return Err(OrMemory::Fault(LexFault::BadToken {
                    place: source.place(at),
                }));
            }
        }
    }
    Ok(Tokens::new(source, spans))
}

// Adds the piece, if it is a token.
fn push_piece(spans: &mut Vec<Span>, form: Form, at: usize, len: usize) -> Result<(), NoMemory>
    requires { at + len ≤ text_limit }
    ensures { OnOk result (spans.new.items ≡ spans.old.items ++ spans_of form at len) }
{
    match form {
        Form::Token(kind) => spans.push(Span {
            start: at as u32,
            len: len as u32,
            kind,
        })?,
        Form::Blank => {}
        Form::Comment => {}
    }
    Ok(())
}
