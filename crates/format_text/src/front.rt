// A format, read up to its first form (17.1.1.1, 17.1.1.2).

ghost use Rattle.std.specs.Prelude.{◌≡◌, IfOk};
ghost use Rattle.format_text.specs.Formats as spec;

use crate::form::{form_by, is_letter, notation_of, put_in, width_of};
use basis::{NoMemory, digits_len};
use std::alloc::Global;
use std::marker::Model;
use vdesign::print::Form;

/// The front of a format: the letters before its first form that takes an argument, that form, if there is one, and what stands after
/// it. A clause sees it as the record `FormatFront` of specs/Formats.antt.
#[derive(Drop)]
pub(crate) struct FormatFront<'a> {
    pub(crate) letters: Vec<u8>,
    pub(crate) form: Option<Form>,
    pub(crate) rest: &'a [u8],
}

impl<'a> Model for FormatFront<'a> {
    ghost use Rattle.format_text.specs.Formats as format;

    ghost Value = { format.FormatFront };

    ghost view = { λ r. record { letters = r.letters.items; form = r.form; rest = r.rest.now } };
}

// A front that a form ends, if it is one.
fn front_with_form<'a>(
    letters: Vec<u8>,
    form: Option<Form>,
    rest: &'a [u8],
) -> Option<FormatFront<'a>>
    ensures { result ≡ spec.front_with_form letters.items form rest.now }
{
    match form {
        None => None,
        Some(form) => Some(FormatFront {
            letters,
            form: Some(form),
            rest,
        }),
    }
}

// Whether it is the `%` of `%%`.
fn is_percent(digits: &[u8], letter: u8) -> bool
    ensures { result ≡ spec.is_percent digits.now letter }
{
    digits.is_empty() && letter == b'%'
}

/// The front of a format up to its first form that takes an argument and with it, or all of it; `%m` shows the path. None where a `%`
/// stands in it at its end, or before what is no form. E901 is the only refusal.
pub(crate) fn front_of<'a>(
    alloc: Global,
    path: &[u8],
    format: &'a [u8],
) -> Result<Option<FormatFront<'a>>, NoMemory>
    ensures { IfOk result (λ front. front ≡ spec.front_of path.now format.now) }
{
    let mut letters = Vec::new(alloc);
    let mut rest = format;
    'letters: loop {
        let Some((first, behind)) = rest.split_first() else {
            return Ok(Some(FormatFront {
                letters,
                form: None,
                rest: &[],
            }));
        };
        if *first != b'%' {
            letters.push(*first)?;
            rest = behind;
            continue 'letters;
        }
        let (digits, end) = behind.split_at(digits_len(behind));
        let Some((letter, after)) = end.split_first() else {
            return Ok(None);
        };
        rest = after;
        if is_letter(*letter, b'm', b'M') {
            let Some(width) = width_of(digits) else {
                return Ok(None);
            };
            put_in(&mut letters, width, path)?;
            continue 'letters;
        }
        if !is_percent(digits, *letter) {
            let form = form_by(width_of(digits), notation_of(*letter));
            return Ok(front_with_form(letters, form, after));
        }
        letters.push(*letter)?;
    }
}
