// What every step of the elaboration of an instance's processes is told.

ghost use Rattle.std.specs.Prelude.{◌≡◌, Some, option_map, IfOk};
ghost use Rattle.vast.specs.NumberedTrees.{tree_of as text_tree, delay_tree, event_tree};
ghost use Rattle.vast.specs.NumberedWords.{word_of};
ghost use Rattle.vmodules.specs.Placed.{inside};
ghost use Rattle.vexpr_parse.specs.Texts.{words_of};
ghost use Rattle.velab_expr.specs.Answers.{Gives};
ghost use Rattle.velab_expr.specs.Resolved.{lower_expression};
ghost use Rattle.velab_process.specs.Inner.{statement_at};
ghost use Rattle.velab_process.specs.Statements.{lower_amount, lower_own_amount};
ghost use Rattle.velab_process.specs.Waits.{lower_control};

use crate::wait::event_terms;
use basis::{NoMemory, OrMemory};
use std::alloc::Global;
use vast::expression::Expression as Value;
use vast::statement::{Delay, Event, Statement};
use vast::token::Token;
use vdesign::action::Terms;
use vdesign::expression::Expression;
use velab_expr::expression::{expression_of, expression_of_name};
use velab_expr::fault::ElabFault;
use velab_expr::scope::Scope;
use vlex::Tokens;
use vmodules::letters::letters;

/// Lowers what stands at a place of an instance: `scope` is what is known of names there, `tokens` the text, and `path` that of the instance,
/// or of the named block in it.
#[derive(Drop)]
pub(crate) struct Elaborator<'a> {
    pub(crate) alloc: Global,
    pub(crate) scope: &'a Scope<'a, 'a>,
    pub(crate) tokens: &'a Tokens<'a>,
    pub(crate) path: &'a [u8],
}

impl<'a> Elaborator<'a> {
    /// An expression.
    pub(crate) fn expression(&self, value: &Value) -> Result<Expression, OrMemory<ElabFault>>
        ensures { Gives result (lower_expression self.now.scope.now
            (text_tree (words_of self.now.tokens.now) value.now)) }
    {
        expression_of(self.alloc, self.scope, self.tokens, value)
    }

    /// For how long a delay waits.
    pub(crate) fn amount(&self, amount: &Delay) -> Result<Expression, OrMemory<ElabFault>>
        ensures { Gives result (lower_amount self.now.scope.now
            (delay_tree (words_of self.now.tokens.now) amount.now)) }
    {
        match amount {
            Delay::Number(word) => self.expression(&Value::Number(*word)),
            Delay::Name(word) => { expression_of_name(self.alloc, self.scope, self.tokens, *word) }
            Delay::Value(value) => self.expression(value),
        }
    }

    /// The amount of an assignment's own delay, if it has one.
    pub(crate) fn own_amount(
        &self,
        amount: &Option<Delay>,
    ) -> Result<Option<Expression>, OrMemory<ElabFault>>
        ensures { Gives result (lower_own_amount self.now.scope.now
            (option_map (delay_tree (words_of self.now.tokens.now)) amount.now)) }
    {
        match amount {
            None => Ok(None),
            Some(amount) => {
                let amount = self.amount(amount)?;
                Ok(Some(amount))
            }
        }
    }

    /// The path of a block of this name (9.8.3, 12.5).
    pub(crate) fn path_inside(&self, name: Token) -> Result<Vec<u8>, NoMemory>
        ensures { IfOk result (λ path. path.items ≡
            inside self.now.path.now (Some (word_of (words_of self.now.tokens.now) name))) }
    {
        let mut path = Vec::from_slice(self.alloc, self.path)?;
        path.push(b'.')?;
        path.extend_from_slice(letters(self.tokens, name))?;
        Ok(path)
    }

    /// What `@control body` listens to.
    pub(crate) fn terms(
        &self,
        control: &Event,
        body: &Statement,
    ) -> Result<Terms, OrMemory<ElabFault>>
        ensures { Gives result (lower_control self.now.scope.now
            (event_tree (words_of self.now.tokens.now) control.now)
            (statement_at (words_of self.now.tokens.now) self.now.path.now body.now)) }
    {
        event_terms(self.alloc, self.scope, self.tokens, control, body)
    }
}
