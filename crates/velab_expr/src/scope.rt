// What a module's names stand for (IEEE 1364-2005, 4.10, 12.1.2, 12.7).

ghost use Rattle.std.specs.Prelude.{◌≡◌, ◌≤◌, List, Some, None, IfOk, OnOk};
ghost use Rattle.vast.specs.NumberedWords.{word_of};
ghost use Rattle.vwords.specs.Words.{Text};
ghost use Rattle.vexpr_parse.specs.Texts.{words_of};
ghost use Rattle.velab_expr.specs.Answers.{Gives};
ghost use Rattle.velab_expr.specs.Scopes as spec;

use crate::fault::{ElabFault, Rule};
use crate::refusal::refusal;
use basis::OrMemory;
use std::marker::Model;
use vast::token::Token;
use vbits::Vec4;
use vdesign::expression::Bounds;
use vlex::Tokens;
use vmodules::letters::letters;
use vmodules::names::Names;

/// What a name stands for.
#[derive(Clone, Copy)]
pub enum Meaning {
    /// The variable of this number (4.2).
    Variable(u32),
    /// A parameter (4.10): its value, the bounds that it is declared with, and how many parameters stand before it.
    Parameter {
        value: Vec4,
        bounds: Option<Bounds>,
        before: usize,
    },
    /// The named event of this number (9.7.3).
    Event(usize),
    /// An instance (12.1.2).
    Instance,
}

/// What a name in an expression stands for (5.2).
#[derive(Clone, Copy)]
pub enum Operand {
    /// The variable of this number (4.2).
    Variable(u32),
    /// A parameter (4.10): its value and its bounds.
    Parameter { value: Vec4, bounds: Bounds },
}

/// What is known of names at a place of an instance: its names, of which so many that stand first are those of its variables, what the
/// others stand for, and how many of the others stand before the place. `first` is the number of its first variable, and `events` that
/// of the next named event. `top` is the name of the top. A design has at most 1,024 variables.
#[derive(Drop)]
pub struct Scope<'s, 't> {
    pub top: &'s [u8],
    pub names: &'s Names<'t>,
    pub first: usize,
    pub variables: usize,
    pub events: usize,
    pub others: &'s [Meaning],
    pub known: usize,
}

impl<'s, 't> Model for Scope<'s, 't> {
    ghost use Rattle.std.specs.Prelude.{◌≤◌, ◌+◌};
    ghost use Rattle.velab_expr.specs.Scopes as scopes;

    ghost Value = { scopes.Scope };

    ghost view = { λ s. record {
      top = s.top.now;
      names = s.names.now;
      first = s.first;
      variables = s.variables;
      events = s.events;
      others = s.others.now;
      known = s.known;
    } };

    ghost invariant = { λ s. s.first + s.variables ≤ 1024 };
}

impl<'s, 't> Scope<'s, 't> {
    /// The same where so many others stand before.
    pub fn at(&self, known: usize) -> Scope<'s, 't>
        ensures { result ≡ spec.at self.now known }
    {
        Scope {
            top: self.top,
            names: self.names,
            first: self.first,
            variables: self.variables,
            events: self.events,
            others: self.others,
            known,
        }
    }
}

// What the name at this place stands for.
fn meaning_at(scope: &Scope<'_, '_>, place: usize) -> Option<Meaning>
    ensures { result ≡ spec.meaning_at scope.now place }
{
    if place < scope.variables {
        Some(Meaning::Variable((scope.first + place) as u32))
    } else {
        scope.others.get(place - scope.variables).copied()
    }
}

/// What a name stands for, where it is declared.
pub fn meaning_of(scope: &Scope<'_, '_>, tokens: &Tokens<'_>, token: Token) -> Option<Meaning>
    ensures { result ≡ spec.meaning_of scope.now (word_of (words_of tokens.now) token) }
{
    match scope.names.place(letters(tokens, token)) {
        Some(place) => meaning_at(scope, place),
        None => None,
    }
}

// The bounds of a parameter: as declared, or from its size.
fn bounds_for(value: Vec4, bounds: Option<Bounds>) -> Bounds
    ensures { result ≡ spec.bounds_for value bounds }
{
    bounds.unwrap_or(Bounds {
        left: value.len() - 1,
        right: 0,
    })
}

// The operand that such a name is. E303, E307 or E310 where it may not stand there.
fn operand_in(
    scope: &Scope<'_, '_>,
    fixed: bool,
    meaning: Meaning,
    token: Token,
) -> Result<Operand, OrMemory<ElabFault>>
    ensures { (words : List Text) → Gives result
        (spec.operand_by fixed scope.now.known (word_of words token) (Some meaning)) }
{
    match meaning {
        Meaning::Variable(number) => {
            if fixed {
                return Err(refusal(Rule::Constant, Some(token.number)));
            }
            Ok(Operand::Variable(number))
        }
        Meaning::Parameter {
            value,
            bounds,
            before,
        } => {
            if fixed && before >= scope.known {
                return Err(refusal(Rule::Unknown, Some(token.number)));
            }
            Ok(Operand::Parameter {
                value,
                bounds: bounds_for(value, bounds),
            })
        }
        Meaning::Event(_) | Meaning::Instance => Err(refusal(Rule::Kind, Some(token.number))),
    }
}

/// What a name in an expression stands for. E303 where it stands for nothing, E310 where it stands for an event or an instance, E303 or E307
/// where it may not stand in a constant.
pub fn operand_of(
    scope: &Scope<'_, '_>,
    fixed: bool,
    tokens: &Tokens<'_>,
    token: Token,
) -> Result<Operand, OrMemory<ElabFault>>
    ensures { Gives result
        (spec.lower_name fixed scope.now (word_of (words_of tokens.now) token)) }
{
    match meaning_of(scope, tokens, token) {
        None => Err(refusal(Rule::Unknown, Some(token.number))),
        Some(meaning) => operand_in(scope, fixed, meaning, token),
    }
}

/// The number of a variable. E303 where there is nothing of that name, E310 where it is no variable.
pub fn number_of(
    scope: &Scope<'_, '_>,
    tokens: &Tokens<'_>,
    token: Token,
) -> Result<u32, OrMemory<ElabFault>>
    ensures gives { Gives result
        (spec.lower_variable scope.now (word_of (words_of tokens.now) token)) }
{
    match meaning_of(scope, tokens, token) {
        None => Err(refusal(Rule::Unknown, Some(token.number))),
        Some(Meaning::Variable(number)) => Ok(number),
        Some(Meaning::Parameter { .. }) => Err(refusal(Rule::Kind, Some(token.number))),
        Some(Meaning::Event(_)) => Err(refusal(Rule::Kind, Some(token.number))),
        Some(Meaning::Instance) => Err(refusal(Rule::Kind, Some(token.number))),
    }
}

/// The number of a named event. E303 where there is nothing of that name, E310 where it is no event (9.7.3).
pub fn event_of(
    scope: &Scope<'_, '_>,
    tokens: &Tokens<'_>,
    token: Token,
) -> Result<usize, OrMemory<ElabFault>>
    ensures gives { Gives result
        (spec.lower_event scope.now (word_of (words_of tokens.now) token)) }
{
    match meaning_of(scope, tokens, token) {
        None => Err(refusal(Rule::Unknown, Some(token.number))),
        Some(Meaning::Event(number)) => Ok(number),
        Some(Meaning::Variable(_)) => Err(refusal(Rule::Kind, Some(token.number))),
        Some(Meaning::Parameter { .. }) => Err(refusal(Rule::Kind, Some(token.number))),
        Some(Meaning::Instance) => Err(refusal(Rule::Kind, Some(token.number))),
    }
}
