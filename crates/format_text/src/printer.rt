// The pieces of a printed text, put together argument by argument (17.1.1).

ghost use Rattle.std.specs.Prelude.{◌≡◌, ◌++◌, [], ◌∷◌, unwrap_or, drop, OnOk, IfOk};
ghost use Rattle.format_text.specs.Formats.{letters_in as letters_in_width};
ghost use Rattle.format_text.specs.Pieces as spec;
ghost use Rattle.format_text.specs.Pieces.{TakesArgument, string as string_argument, value as value_argument};
ghost use Rattle.format_text.specs.Reading.{Adds, IsEndOf};

use crate::form::put_in;
use crate::front::{FormatFront, front_of};
use crate::letters::letters_of;
use basis::NoMemory;
use std::alloc::Global;
use std::marker::Model;
use vdesign::expression::Expression;
use vdesign::print::{Form, Notation, Piece, Pieces, Text, Width};

/// The pieces of a printed text so far; the path of the last string's scope, and what is left of that string, whose forms take the
/// arguments that come; and how a value is shown that no form takes. A clause sees it as the record `PrintedText` of specs/Pieces.antt.
#[derive(Drop)]
pub struct Printer {
    pieces: Vec<Piece>,
    path: Vec<u8>,
    format: Vec<u8>,
    at: usize,
    default: Form,
}

impl Model for Printer {
    ghost use Rattle.std.specs.Prelude.{drop};
    ghost use Rattle.format_text.specs.Pieces as printing;
    ghost use Rattle.vdesign.specs.contracts.expression.Expression as expression;
    ghost use Rattle.std.specs.Coded.{codes};

    ghost Value = { printing.PrintedText };

    ghost coded = { Prim.hlevel (codes, expression.the_row.coded) };

    ghost view = { λ p. record { pieces = p.pieces.items; path = p.path.items; format = drop p.at p.format.items; default = p.default } };
}

// What is left of a format from a place on.
fn left_of(format: &[u8], at: usize) -> &[u8]
    ensures { result.now ≡ drop at format.now }
{
    format.get(at..).unwrap_or(&[])
}

// The place where what is left of a format begins.
fn place_of(format: &[u8], left: &[u8]) -> usize
    requires { IsEndOf left.now format.now }
    ensures { drop result format.now ≡ left.now }
{
    format.len().saturating_sub(left.len())
}

// Puts letters that are printed last, if there are any.
fn put_text(pieces: &mut Vec<Piece>, letters: Vec<u8>) -> Result<(), NoMemory>
    ensures { OnOk result (pieces.new.items ≡ pieces.old.items ++ spec.text_piece letters.items) }
{
    if letters.is_empty() {
        return Ok(());
    }
    pieces.push(Piece::Text(Text::new(letters)))?;
    Ok(())
}

// Puts the letters of a front last, where it has no form.
fn put_last(pieces: &mut Vec<Piece>, front: Option<FormatFront<'_>>) -> Result<bool, NoMemory>
    ensures { IfOk result (λ is_done. Adds pieces.old.items (spec.last_pieces front.entry) is_done
        pieces.new.items) }
{
    let Some(front) = front else {
        return Ok(false);
    };
    if front.form.is_some() {
        return Ok(false);
    }
    put_text(pieces, front.letters)?;
    Ok(true)
}

// Puts letters last, and an expression in its form.
fn put_value(
    pieces: &mut Vec<Piece>,
    letters: Vec<u8>,
    form: Form,
    watched: bool,
    value: Expression,
) -> Result<(), NoMemory>
    ensures { OnOk result (pieces.new.items ≡ pieces.old.items ++ (spec.text_piece letters.items
        ++ Piece.Value form watched value ∷ [])) }
{
    put_text(pieces, letters)?;
    pieces.push(Piece::Value {
        form,
        watched,
        value,
    })?;
    Ok(())
}

// Letters in a width.
fn letters_in(alloc: Global, width: Width, letters: &[u8]) -> Result<Vec<u8>, NoMemory>
    ensures { IfOk result (λ text. text.items ≡ letters_in_width width letters.now) }
{
    let mut text = Vec::new(alloc);
    put_in(&mut text, width, letters)?;
    Ok(text)
}

impl Printer {
    /// A text of which no argument has come yet, and the form of values that no format takes.
    pub fn new(alloc: Global, default: Form) -> Printer
        ensures { result ≡ record { pieces = []; path = []; format = []; default = default } }
    {
        Printer {
            pieces: Vec::new(alloc),
            path: Vec::new(alloc),
            format: Vec::new(alloc),
            at: 0,
            default,
        }
    }

    /// Takes a string, of which what stands between its quotes is given: it is shown by a form that waits for it, or else a format, in
    /// which `%m` shows the path. False where what is left of the one before isn't well formed, or has a form that shows no string. E901
    /// is the only refusal.
    pub fn string(&mut self, path: &[u8], string: &[u8]) -> Result<bool, NoMemory>
        ensures { IfOk result (λ is_done.
            TakesArgument self.old (string_argument path.now string.now) is_done self.new) }
    {
        let alloc = *self.format.allocator();
        let format = self.format.as_slice();
        let Some(front) = front_of(alloc, &self.path, left_of(format, self.at))? else {
            return Ok(false);
        };
        let at = place_of(format, front.rest);
        let FormatFront { letters, form, .. } = front;
        let string = letters_of(alloc, string)?;
        match form {
            None => {
                put_text(&mut self.pieces, letters)?;
                self.path = Vec::from_slice(alloc, path)?;
                self.format = string;
                self.at = 0;
                Ok(true)
            }
            Some(form) => {
                if form.notation != Notation::Letters {
                    return Ok(false);
                }
                put_text(&mut self.pieces, letters)?;
                put_text(&mut self.pieces, letters_in(alloc, form.width, &string)?)?;
                self.at = at;
                Ok(true)
            }
        }
    }

    /// Takes an expression. False where what is left of the string before isn't well formed. E901 is the only refusal.
    pub fn value(&mut self, watched: bool, value: Expression) -> Result<bool, NoMemory>
        ensures { IfOk result (λ is_done.
            TakesArgument self.old (value_argument watched value) is_done self.new) }
    {
        let alloc = *self.format.allocator();
        let format = self.format.as_slice();
        let Some(front) = front_of(alloc, &self.path, left_of(format, self.at))? else {
            return Ok(false);
        };
        let at = place_of(format, front.rest);
        let form = front.form.unwrap_or(self.default);
        put_value(&mut self.pieces, front.letters, form, watched, value)?;
        self.at = at;
        Ok(true)
    }

    /// The pieces of the text, with a line feed at its end, or without; none where what is left of the last string isn't well formed, or
    /// has a form without its argument. E901 is the only refusal.
    pub fn finish(self, ends_line: bool) -> Result<Option<Pieces>, NoMemory>
        ensures { IfOk result (λ pieces.
            pieces ≡ spec.with_line_end ends_line (spec.pieces_with self [])) }
    {
        let Printer {
            pieces,
            path,
            format,
            at,
            ..
        } = self;
        let mut pieces = pieces;
        let alloc = *format.allocator();
        let front = front_of(alloc, &path, left_of(&format, at))?;
        if !put_last(&mut pieces, front)? {
            return Ok(None);
        }
        if ends_line {
            put_text(&mut pieces, Vec::from_slice(alloc, b"\n")?)?;
        }
        Ok(Some(Pieces::new(pieces)))
    }
}
