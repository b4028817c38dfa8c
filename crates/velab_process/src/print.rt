// Print tasks (IEEE 1364-2005, 17.1): their names resolved, and their formats read.

ghost use Rattle.std.specs.Prelude.{◌≡◌, ◌≤◌, [], List, map, true};
ghost use Rattle.vast.specs.NumberedTrees.{tree_of as text_tree};
ghost use Rattle.vast.specs.NumberedTrees.{argument_tree};
ghost use Rattle.vwords.specs.Words.{Text};
ghost use Rattle.vexpr_parse.specs.Texts.{words_of};
ghost use Rattle.format_text.specs.Pieces.{TakesArgument};
ghost use Rattle.velab_expr.specs.Answers.{Gives};
ghost use Rattle.velab_process.specs.Inner.{Prints, TakesAnswer, argument_at, arguments_at, right_pieces as only_right};
ghost use Rattle.velab_process.specs.Prints.{lower_argument, lower_arguments, lower_line};
ghost use Rattle.velab_process.specs.Prints as spec;

use crate::elaborator::Elaborator;
use basis::OrMemory;
use format_text::Printer;
use vast::expression::Expression as Value;
use vast::statement::{Argument, Base, Printing};
use vdesign::print::{Form, Notation, Pieces, When, Width};
use velab_expr::fault::{ElabFault, Rule};
use velab_expr::first::first_argument;
use velab_expr::refusal::refusal;
use vmodules::letters::letters;

/// When a print task prints (17.1.1, 17.1.2, 17.1.3).
pub fn when_of(kind: Printing) -> When
    ensures { result ≡ spec.when_of kind }
{
    match kind {
        Printing::Display(_) => When::Now,
        Printing::Write(_) => When::Now,
        Printing::Strobe(_) => When::AtSlotEnd,
        Printing::Monitor(_) => When::AtChange,
    }
}

// Whether it ends a line.
fn ends_line(kind: Printing) -> bool
    ensures { result ≡ spec.ends_line kind }
{
    match kind {
        Printing::Display(_) => true,
        Printing::Write(_) => false,
        Printing::Strobe(_) => true,
        Printing::Monitor(_) => true,
    }
}

fn notation_of(base: Base) -> Notation
    ensures { result ≡ spec.notation_of base }
{
    match base {
        Base::Decimal => Notation::Decimal,
        Base::Binary => Notation::Binary,
        Base::Octal => Notation::Octal,
        Base::Hexadecimal => Notation::Hexadecimal,
    }
}

fn base_of(kind: Printing) -> Base
    ensures { result ≡ spec.base_of kind }
{
    match kind {
        Printing::Display(base) => base,
        Printing::Write(base) => base,
        Printing::Strobe(base) => base,
        Printing::Monitor(base) => base,
    }
}

// How a value is shown that no format takes.
fn default_form(kind: Printing) -> Form
    ensures { result ≡ spec.default_form kind }
{
    Form {
        notation: notation_of(base_of(kind)),
        width: Width::Natural,
    }
}

// What stands between the quotes of a string.
fn between_quotes(string: &[u8]) -> &[u8]
    ensures { result.now ≡ spec.between_quotes string.now }
{
    let Some((_, behind)) = string.split_first() else {
        return b"";
    };
    match behind.split_last() {
        None => b"",
        Some((_, inner)) => inner,
    }
}

// Whether a monitor watches an argument.
fn is_watched(value: &Value) -> bool
    ensures { (words : List Text) → result ≡ spec.is_watched (text_tree words value.now) }
{
    match value {
        Value::Time(_) => false,
        _ => true,
    }
}

fn is_left_out(argument: &Argument) -> bool
    ensures { (words : List Text) → result ≡ spec.is_left_out (argument_tree words argument.now) }
{
    match argument {
        Argument::Text(_) => false,
        Argument::Value(_) => false,
        Argument::LeftOut => true,
    }
}

// The arguments, where there are some: none stands in empty parentheses.
fn without_empty_parentheses(arguments: &[Argument]) -> &[Argument]
    ensures { (words : List Text) → map (argument_tree words) result.now
        ≡ spec.arguments_given (map (argument_tree words) arguments.now) }
{
    let Some((first, rest)) = arguments.split_first() else {
        return arguments;
    };
    if rest.is_empty() && is_left_out(first) {
        rest
    } else {
        arguments
    }
}

// What there is, where it is right.
fn right_pieces(is_right: bool, pieces: Option<Pieces>) -> Option<Pieces>
    ensures { result ≡ only_right is_right pieces }
{
    if is_right { pieces } else { None }
}

impl<'a> Elaborator<'a> {
    // An argument more. False where the format before it isn't right.
    fn put_argument(
        &self,
        printer: &mut Printer,
        argument: &Argument,
    ) -> Result<bool, OrMemory<ElabFault>>
        ensures { TakesAnswer result (lower_argument self.now.scope.now
            (argument_at (words_of self.now.tokens.now) self.now.path.now argument.now))
            (λ argument is_right. TakesArgument printer.old argument is_right printer.new) }
    {
        match argument {
            Argument::Text(word) => {
                let string = between_quotes(letters(self.tokens, *word));
                Ok(printer.string(self.path, string)?)
            }
            Argument::Value(value) => {
                let shown = self.expression(value)?;
                Ok(printer.value(is_watched(value), shown)?)
            }
            Argument::LeftOut => Ok(printer.string(b"", b" ")?),
        }
    }

    // The arguments of a line. False where a format among them, but for the last, isn't right.
    fn put_arguments(
        &self,
        printer: &mut Printer,
        arguments: &[Argument],
    ) -> Result<bool, OrMemory<ElabFault>>
        ensures { TakesAnswer result (lower_arguments self.now.scope.now
            (arguments_at (words_of self.now.tokens.now) self.now.path.now arguments.now))
            (λ all is_right. Prints printer.old all is_right printer.new) }
    {
        let mut is_right = true;
        for one in arguments {
            let taken = self.put_argument(printer, one)?;
            is_right = is_right & taken;
        }
        Ok(is_right)
    }

    /// The pieces that a task prints (17.1.1). E310 where a format isn't right; E303, E306 and E307 as its expressions have them.
    pub(crate) fn pieces(
        &self,
        kind: Printing,
        arguments: &[Argument],
    ) -> Result<Pieces, OrMemory<ElabFault>>
        ensures { Gives result (lower_line self.now.scope.now kind
            (arguments_at (words_of self.now.tokens.now) self.now.path.now arguments.now)) }
    {
        let mut printer = Printer::new(self.alloc, default_form(kind));
        let is_right = self.put_arguments(&mut printer, without_empty_parentheses(arguments))?;
        let pieces = printer.finish(ends_line(kind))?;
        match right_pieces(is_right, pieces) {
            Some(line) => Ok(line),
            None => Err(refusal(Rule::Kind, first_argument(arguments))),
        }
    }
}
