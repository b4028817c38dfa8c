// Processes: what statements have to do, their names resolved (clause 9).
ghost use Rattle.std.specs.Prelude.{None, Some, ◌≡◌, ◌<◌, ◌≤◌, ◌+◌, ◌^◌, [], ◌++◌, ◌∷◌, Ok, true, false, length, map, option_map, List, OnOk};
ghost use Rattle.velab_expr.specs.Answers.{Makes, behind};
ghost use Rattle.velab_expr.specs.Inner.{symbols_in};
ghost use Rattle.velab_process.specs.Prints.{when_of};
ghost use Rattle.velab_process.specs.Statements as spec;
ghost use Rattle.velab_process.specs.Statements.{at_next, with_places_before, with_branches_before, lower_label, lower_labels, lower_statement};
ghost use Rattle.velab_process.specs.Processes as processes;
ghost use Rattle.velab_process.specs.Processes.{procedural, continuous, with_begins_before, lower_processes};
ghost use Rattle.vmodules.specs.Placed.{inside};
ghost use Rattle.velab_process.specs.Inner.{Begins, statement_at, statements_at, branch_at, branches_at, task_at, arguments_at, lower_loop as spec_loop, is_control_flow, starts_in, values_in, drives_in, processes_of_item, processes_of, values_of};
ghost use Rattle.vwords.specs.Words.{Text};
ghost use Rattle.vast.specs.NumberedTrees.{tree_of as text_tree, trees_of};
ghost use Rattle.vast.specs.NumberedTrees.{target_tree, delay_tree, event_tree};
ghost use Rattle.vast.specs.NumberedWords.{word_of};
ghost use Rattle.vexpr_parse.specs.Texts.{words_of};
ghost use Rattle.vast.specs.NumberedStatements.{case_of, assign, whole, print};
ghost use Rattle.vast.specs.NumberedStatements as written;

use crate::elaborator::Elaborator;
use crate::print::when_of;
use crate::wait::condition_terms;
use basis::OrMemory;
use std::alloc::Global;
use std::marker::Model;
use vast::expression::Expression as Value;
use vast::module::{DeclarationKind, Declared, ModuleItem, NetAssignment, NetKind, Port};
use vast::statement::{
    Argument, Branch, Delay, Dumping, Event, Printing, Statement, Target as Written, Task,
};
use vast::token::Token;
use vdesign::action::{Action, Branch as Choice, Branches, Places, Targets, Terms};
use vdesign::dump::DumpSwitch;
use vdesign::expression::Expression;
use vdesign::print::Pieces;
use velab_expr::fault::ElabFault;
use velab_expr::first::{first_argument, first_delay, first_in, first_target};
use velab_expr::scope::{Scope, event_of};
use velab_expr::select::{levels_of, selection_of};
use velab_expr::symbol::symbol_count;
use velab_expr::target::{net_targets_of, targets_of};
use vlex::Tokens;
use vwords::cases::CaseKind;

/// Actions in the order in which they are come to, and for each the number of a token, if it has one, by which a fault of it is told.
#[derive(Drop)]
pub struct Table {
    pub actions: Vec<Action>,
    pub words: Vec<Option<u32>>,
}

impl Model for Table {
    ghost use Rattle.std.specs.Coded.{codes};
    ghost use Rattle.vdesign.specs.contracts.expression.Expression as expression;
    ghost use Rattle.velab_process.specs.Statements as elaborate;

    ghost Value = { elaborate.Table };

    ghost coded = { Prim.hlevel (codes, expression.the_row.coded) };

    ghost view = { λ t. record { actions = t.actions.items; words = t.words.items } };
}

/// One action more, at the next place; `word` is the number of the token, if it has one, by which a fault of it is told.
pub fn put(
    table: &mut Table,
    into: &mut Vec<usize>,
    word: Option<u32>,
    action: Action,
) -> Result<(), OrMemory<ElabFault>>
    ensures { Makes result (record { table = table.new; places = into.new.items })
        (with_places_before into.old.items (Ok (at_next table.old word action))) }
{
    into.push(table.actions.len())?;
    table.words.push(word)?;
    table.actions.push(action)?;
    Ok(())
}

// What an assignment without a delay of its own does.
fn immediate_assignment(blocking: bool, targets: Targets, value: Expression) -> Action
    ensures { result ≡ spec.assignment_action blocking None targets value }
{
    if blocking {
        Action::Assign { targets, value }
    } else {
        Action::Nonblocking { targets, value }
    }
}

// What an assignment with a delay of its own does.
fn delayed_assignment(
    blocking: bool,
    amount: Expression,
    targets: Targets,
    value: Expression,
) -> Action
    ensures { result ≡ spec.assignment_action blocking (Some amount) targets value }
{
    if blocking {
        Action::AssignDelayed {
            amount,
            targets,
            value,
        }
    } else {
        Action::NonblockingDelayed {
            amount,
            targets,
            value,
        }
    }
}

// What an assignment of either kind does.
fn assignment_action(
    blocking: bool,
    amount: Option<Expression>,
    targets: Targets,
    value: Expression,
) -> Action
    ensures { result ≡ spec.assignment_action blocking amount targets value }
{
    match amount {
        None => immediate_assignment(blocking, targets, value),
        Some(amount) => delayed_assignment(blocking, amount, targets, value),
    }
}

// What an `if` does.
fn test_action(condition: Expression, when_true: Vec<usize>, otherwise: Vec<usize>) -> Action
    ensures { result ≡ Action.Test condition when_true.items otherwise.items }
{
    Action::Test {
        condition,
        when_true: Places::new(when_true),
        otherwise: Places::new(otherwise),
    }
}

// What a `case` does.
fn case_action(
    kind: CaseKind,
    value: Expression,
    branches: Vec<Choice>,
    otherwise: Vec<usize>,
) -> Action
    ensures { result ≡ Action.Case kind value branches.items otherwise.items }
{
    Action::Case {
        kind,
        value,
        branches: Branches::new(branches),
        otherwise: Places::new(otherwise),
    }
}

// What a loop with a condition does.
fn while_action(condition: Expression, body: Vec<usize>) -> Action
    ensures { result ≡ Action.While condition body.items }
{
    Action::While {
        condition,
        body: Places::new(body),
    }
}

// What a `wait` does.
fn wait_action(condition: Expression, terms: Terms, body: Vec<usize>) -> Action
    ensures { result ≡ Action.Wait condition terms body.items }
{
    Action::Wait {
        condition,
        terms,
        body: Places::new(body),
    }
}

fn end_action(stops: bool) -> Action
    ensures { result ≡ spec.end_action stops }
{
    if stops { Action::Stop } else { Action::Finish }
}

// What a command to a dump that was started does.
fn dump_action(dumping: Dumping) -> Action
    ensures { result ≡ spec.dump_action dumping }
{
    match dumping {
        Dumping::On => Action::Dump(DumpSwitch::On),
        Dumping::Off => Action::Dump(DumpSwitch::Off),
        Dumping::All => Action::Dump(DumpSwitch::All),
        Dumping::Flush => Action::NoOperation,
    }
}

// What a print task does.
fn print_action(kind: Printing, pieces: Pieces) -> Action
    ensures { result ≡ Action.Print (when_of kind) pieces }
{
    Action::Print {
        when: when_of(kind),
        pieces,
    }
}

impl<'a> Elaborator<'a> {
    // An assignment of either kind.
    fn lower_assignment(
        &self,
        blocking: bool,
        target: &Written,
        amount: &Option<Delay>,
        value: &Value,
        table: &mut Table,
        into: &mut Vec<usize>,
    ) -> Result<(), OrMemory<ElabFault>>
        ensures { Makes result (record { table = table.new; places = into.new.items })
            (with_places_before into.old.items (spec.lower_assignment blocking self.now.scope.now table.old
            (target_tree (words_of self.now.tokens.now) target.now)
            (option_map (delay_tree (words_of self.now.tokens.now)) amount.now)
            (text_tree (words_of self.now.tokens.now) value.now))) }
    {
        let targets = targets_of(self.alloc, self.scope, self.tokens, target)?;
        let amount = self.own_amount(amount)?;
        let value = self.expression(value)?;
        let action = assignment_action(blocking, amount, targets, value);
        put(table, into, first_target(target), action)
    }

    // A branch of an item, with a copy of the places.
    fn put_label(
        &self,
        label: &Value,
        body: &[usize],
        into: &mut Vec<Choice>,
    ) -> Result<(), OrMemory<ElabFault>>
        ensures { Makes result into.new.items (behind into.old.items
            (lower_label self.now.scope.now body.now (text_tree (words_of self.now.tokens.now) label.now))) }
    {
        let item = self.expression(label)?;
        let places = Vec::from_slice(self.alloc, body)?;
        let body = Places::new(places);
        into.push(Choice { item, body })?;
        Ok(())
    }

    // A branch of each item in front of a statement, all with the same places.
    fn put_labels(
        &self,
        labels: &[Value],
        body: &[usize],
        into: &mut Vec<Choice>,
    ) -> Result<(), OrMemory<ElabFault>>
        ensures { Makes result into.new.items (behind into.old.items
            (lower_labels self.now.scope.now body.now (trees_of (words_of self.now.tokens.now) labels.now))) }
    {
        for label in labels {
            self.put_label(label, body, into)?;
        }
        Ok(())
    }

    // A print task.
    fn lower_print(
        &self,
        kind: Printing,
        arguments: &[Argument],
        table: &mut Table,
        into: &mut Vec<usize>,
    ) -> Result<(), OrMemory<ElabFault>>
        ensures { Makes result (record { table = table.new; places = into.new.items })
            (with_places_before into.old.items (spec.lower_task self.now.scope.now table.old
            (print kind (arguments_at (words_of self.now.tokens.now) self.now.path.now arguments.now)))) }
    {
        let pieces = self.pieces(kind, arguments)?;
        let action = print_action(kind, pieces);
        put(table, into, first_argument(arguments), action)
    }

    // A system task.
    fn lower_task(
        &self,
        task: &Task,
        table: &mut Table,
        into: &mut Vec<usize>,
    ) -> Result<(), OrMemory<ElabFault>>
        ensures { Makes result (record { table = table.new; places = into.new.items })
            (with_places_before into.old.items (spec.lower_task self.now.scope.now table.old
            (task_at (words_of self.now.tokens.now) self.now.path.now task.now))) }
    {
        match task {
            Task::Print { kind, arguments } => self.lower_print(*kind, arguments, table, into),
            Task::Idle { .. } => put(table, into, None, Action::NoOperation),
            Task::DumpFile(_) => put(table, into, None, Action::NoOperation),
            Task::DumpVars(selection) => {
                let word = levels_of(selection);
                let selection = selection_of(self.alloc, self.scope, self.tokens, selection)?;
                put(table, into, word, Action::DumpVars(selection))
            }
            Task::Dump(dumping) => put(table, into, None, dump_action(*dumping)),
            Task::End { stops, .. } => put(table, into, None, end_action(*stops)),
        }
    }

    // What triggers an event.
    fn lower_trigger(
        &self,
        name: Token,
        table: &mut Table,
        into: &mut Vec<usize>,
    ) -> Result<(), OrMemory<ElabFault>>
        ensures { Makes result (record { table = table.new; places = into.new.items })
            (with_places_before into.old.items (lower_statement self.now.scope.now table.old
            (written.trigger (word_of (words_of self.now.tokens.now) name)))) }
    {
        let event = event_of(self.scope, self.tokens, name)?;
        put(table, into, None, Action::Trigger(event))
    }

    // Lays a statement on the table, and puts the places at which it begins behind others.
    #[cycle(statements)]
    fn lower(
        &self,
        statement: &Statement,
        table: &mut Table,
        into: &mut Vec<usize>,
    ) -> Result<(), OrMemory<ElabFault>>
        ensures { Makes result (record { table = table.new; places = into.new.items })
            (with_places_before into.old.items (lower_statement self.now.scope.now table.old
            (statement_at (words_of self.now.tokens.now) self.now.path.now statement.now))) }
    {
        match statement {
            Statement::Empty => Ok(()),
            Statement::Block { name, statements } => {
                self.lower_block(statements, *name, table, into)
            }
            Statement::Assign {
                target,
                delay,
                value,
                ..
            } => self.lower_assignment(true, target, delay, value, table, into),
            Statement::Nonblocking {
                target,
                delay,
                value,
                ..
            } => self.lower_assignment(false, target, delay, value, table, into),
            Statement::Delayed { delay, body, .. } => self.lower_delayed(body, delay, table, into),
            Statement::Task { task, .. } => self.lower_task(task, table, into),
            Statement::Trigger { name, .. } => self.lower_trigger(*name, table, into),
            Statement::Wait {
                condition,
                body,
                ..
            } => self.lower_wait(body, condition, table, into),
            Statement::OnEvent { event, body, .. } => self.lower_event_control(
                body, event, table, into,
            ),
            Statement::If { .. }
            | Statement::IfElse { .. }
            | Statement::Case { .. }
            | Statement::While { .. }
            | Statement::Repeat { .. }
            | Statement::Forever { .. }
            | Statement::For { .. } => self.lower_control_flow(statement, table, into),
        }
    }

    // An `if`, a `case` or a loop (9.4 to 9.6).
    #[cycle(statements)]
    fn lower_control_flow(
        &self,
        statement: &Statement,
        table: &mut Table,
        into: &mut Vec<usize>,
    ) -> Result<(), OrMemory<ElabFault>>
        requires { is_control_flow
            (statement_at (words_of self.now.tokens.now) self.now.path.now statement.now) ≡ true }
        ensures { Makes result (record { table = table.new; places = into.new.items })
            (with_places_before into.old.items (lower_statement self.now.scope.now table.old
            (statement_at (words_of self.now.tokens.now) self.now.path.now statement.now))) }
    {
        match statement {
            Statement::If {
                condition,
                body,
                ..
            } => self.lower_if(body, condition, table, into),
            Statement::IfElse {
                condition,
                body,
                other,
                ..
            } => {
                let tested = self.expression(condition)?;
                let inner = self.lower_body(body, table)?;
                let outer = self.lower_body(other, table)?;
                let action = test_action(tested, inner, outer);
                put(table, into, first_in(condition), action)
            }
            Statement::Case {
                kind,
                value,
                branches,
                ..
            } => self.lower_case(*kind, branches, value, table, into),
            Statement::While {
                condition,
                body,
                ..
            } => self.lower_while(body, condition, table, into),
            Statement::Repeat { count, body, .. } => self.lower_repeat(body, count, table, into),
            Statement::Forever { body, .. } => self.lower_forever(body, table, into),
            Statement::For {
                target,
                value,
                condition,
                next_target,
                next_value,
                body,
                ..
            } => {
                self.lower_assignment(true, target, &None, value, table, into)?;
                self.lower_loop(body, condition, next_target, next_value, table, into)
            }
            _ => unreachable!(),
        }
    }

    // The places at which a statement begins that stands inside another.
    #[cycle(statements)]
    fn lower_body(
        &self,
        statement: &Statement,
        table: &mut Table,
    ) -> Result<Vec<usize>, OrMemory<ElabFault>>
        ensures { Begins result table.new (lower_statement self.now.scope.now table.old
            (statement_at (words_of self.now.tokens.now) self.now.path.now statement.now)) }
    {
        let mut places = Vec::new(self.alloc);
        self.lower(statement, table, &mut places)?;
        Ok(places)
    }

    // A statement behind a delay (9.7.1).
    #[cycle(statements)]
    fn lower_delayed(
        &self,
        body: &Statement,
        amount: &Delay,
        table: &mut Table,
        into: &mut Vec<usize>,
    ) -> Result<(), OrMemory<ElabFault>>
        ensures { Makes result (record { table = table.new; places = into.new.items })
            (with_places_before into.old.items (lower_statement self.now.scope.now table.old
            (written.delay (delay_tree (words_of self.now.tokens.now) amount.now)
            (statement_at (words_of self.now.tokens.now) self.now.path.now body.now)))) }
    {
        let word = first_delay(amount);
        let amount = self.amount(amount)?;
        let inner = self.lower_body(body, table)?;
        let body = Places::new(inner);
        put(table, into, word, Action::Delay { amount, body })
    }

    // An `if` without an `else` (9.4).
    #[cycle(statements)]
    fn lower_if(
        &self,
        body: &Statement,
        condition: &Value,
        table: &mut Table,
        into: &mut Vec<usize>,
    ) -> Result<(), OrMemory<ElabFault>>
        ensures { Makes result (record { table = table.new; places = into.new.items })
            (with_places_before into.old.items (lower_statement self.now.scope.now table.old
            (written.if_true (text_tree (words_of self.now.tokens.now) condition.now)
            (statement_at (words_of self.now.tokens.now) self.now.path.now body.now)))) }
    {
        let tested = self.expression(condition)?;
        let inner = self.lower_body(body, table)?;
        let action = test_action(tested, inner, Vec::new(self.alloc));
        put(table, into, first_in(condition), action)
    }

    // A `while` (9.6).
    #[cycle(statements)]
    fn lower_while(
        &self,
        body: &Statement,
        condition: &Value,
        table: &mut Table,
        into: &mut Vec<usize>,
    ) -> Result<(), OrMemory<ElabFault>>
        ensures { Makes result (record { table = table.new; places = into.new.items })
            (with_places_before into.old.items (lower_statement self.now.scope.now table.old
            (written.while_true (text_tree (words_of self.now.tokens.now) condition.now)
            (statement_at (words_of self.now.tokens.now) self.now.path.now body.now)))) }
    {
        let tested = self.expression(condition)?;
        let inner = self.lower_body(body, table)?;
        put(
            table,
            into,
            first_in(condition),
            while_action(tested, inner),
        )
    }

    // A `repeat` (9.6).
    #[cycle(statements)]
    fn lower_repeat(
        &self,
        body: &Statement,
        count: &Value,
        table: &mut Table,
        into: &mut Vec<usize>,
    ) -> Result<(), OrMemory<ElabFault>>
        ensures { Makes result (record { table = table.new; places = into.new.items })
            (with_places_before into.old.items (lower_statement self.now.scope.now table.old
            (written.repeat_times (text_tree (words_of self.now.tokens.now) count.now)
            (statement_at (words_of self.now.tokens.now) self.now.path.now body.now)))) }
    {
        let word = first_in(count);
        let count = self.expression(count)?;
        let inner = self.lower_body(body, table)?;
        let body = Places::new(inner);
        put(table, into, word, Action::Repeat { count, body })
    }

    // A statement that comes again and again (9.6, 9.9.2).
    #[cycle(statements)]
    fn lower_forever(
        &self,
        body: &Statement,
        table: &mut Table,
        into: &mut Vec<usize>,
    ) -> Result<(), OrMemory<ElabFault>>
        ensures { Makes result (record { table = table.new; places = into.new.items })
            (with_places_before into.old.items (lower_statement self.now.scope.now table.old
            (written.forever (statement_at (words_of self.now.tokens.now) self.now.path.now body.now)))) }
    {
        let inner = self.lower_body(body, table)?;
        let body = Places::new(inner);
        put(table, into, None, Action::Forever { body })
    }

    // A `wait` (9.7.6).
    #[cycle(statements)]
    fn lower_wait(
        &self,
        body: &Statement,
        condition: &Value,
        table: &mut Table,
        into: &mut Vec<usize>,
    ) -> Result<(), OrMemory<ElabFault>>
        ensures { Makes result (record { table = table.new; places = into.new.items })
            (with_places_before into.old.items (lower_statement self.now.scope.now table.old
            (written.wait_for (text_tree (words_of self.now.tokens.now) condition.now)
            (statement_at (words_of self.now.tokens.now) self.now.path.now body.now)))) }
    {
        let awaited = self.expression(condition)?;
        let terms = condition_terms(self.alloc, self.scope, self.tokens, condition)?;
        let inner = self.lower_body(body, table)?;
        put(
            table,
            into,
            first_in(condition),
            wait_action(awaited, terms, inner),
        )
    }

    // A statement behind an event control (9.7.2).
    #[cycle(statements)]
    fn lower_event_control(
        &self,
        body: &Statement,
        control: &Event,
        table: &mut Table,
        into: &mut Vec<usize>,
    ) -> Result<(), OrMemory<ElabFault>>
        ensures { Makes result (record { table = table.new; places = into.new.items })
            (with_places_before into.old.items (lower_statement self.now.scope.now table.old
            (written.event (event_tree (words_of self.now.tokens.now) control.now)
            (statement_at (words_of self.now.tokens.now) self.now.path.now body.now)))) }
    {
        let terms = self.terms(control, body)?;
        let inner = self.lower_body(body, table)?;
        let body = Places::new(inner);
        put(table, into, None, Action::EventControl { terms, body })
    }

    // A `for` behind its first assignment.
    #[cycle(statements)]
    fn lower_loop(
        &self,
        body: &Statement,
        condition: &Value,
        next_target: &Written,
        next_value: &Value,
        table: &mut Table,
        into: &mut Vec<usize>,
    ) -> Result<(), OrMemory<ElabFault>>
        ensures { Makes result (record { table = table.new; places = into.new.items })
            (with_places_before into.old.items (spec_loop self.now.scope.now table.old
            (text_tree (words_of self.now.tokens.now) condition.now)
            (statement_at (words_of self.now.tokens.now) self.now.path.now body.now)
            (target_tree (words_of self.now.tokens.now) next_target.now)
            (text_tree (words_of self.now.tokens.now) next_value.now))) }
    {
        let tested = self.expression(condition)?;
        let mut inner = self.lower_body(body, table)?;
        self.lower_assignment(true, next_target, &None, next_value, table, &mut inner)?;
        put(
            table,
            into,
            first_in(condition),
            while_action(tested, inner),
        )
    }

    // The statements of a block, which is a scope of its own where it has a name (9.8.1, 9.8.3).
    #[cycle(statements)]
    fn lower_block(
        &self,
        statements: &[Statement],
        name: Option<Token>,
        table: &mut Table,
        into: &mut Vec<usize>,
    ) -> Result<(), OrMemory<ElabFault>>
        ensures { Makes result (record { table = table.new; places = into.new.items })
            (with_places_before into.old.items (spec.lower_all self.now.scope.now table.old
            (statements_at (words_of self.now.tokens.now)
            (inside self.now.path.now (option_map (word_of (words_of self.now.tokens.now)) name)) statements.now))) }
    {
        let Some(name) = name else {
            return self.lower_all(statements, table, into);
        };
        let path = self.path_inside(name)?;
        let inner = Elaborator {
            alloc: self.alloc,
            scope: self.scope,
            tokens: self.tokens,
            path: &path,
        };
        inner.lower_all(statements, table, into)
    }

    // Statements, one after the other.
    #[cycle(statements)]
    fn lower_all(
        &self,
        statements: &[Statement],
        table: &mut Table,
        into: &mut Vec<usize>,
    ) -> Result<(), OrMemory<ElabFault>>
        ensures { Makes result (record { table = table.new; places = into.new.items })
            (with_places_before into.old.items (spec.lower_all self.now.scope.now table.old
            (statements_at (words_of self.now.tokens.now) self.now.path.now statements.now))) }
    {
        for statement in statements {
            self.lower(statement, table, into)?;
        }
        Ok(())
    }

    // A `case` (9.5).
    #[cycle(statements)]
    fn lower_case(
        &self,
        kind: CaseKind,
        branches: &[Branch],
        value: &Value,
        table: &mut Table,
        into: &mut Vec<usize>,
    ) -> Result<(), OrMemory<ElabFault>>
        ensures { Makes result (record { table = table.new; places = into.new.items })
            (with_places_before into.old.items (lower_statement self.now.scope.now table.old
            (case_of kind (text_tree (words_of self.now.tokens.now) value.now)
            (branches_at (words_of self.now.tokens.now) self.now.path.now branches.now)))) }
    {
        let chosen_of = self.expression(value)?;
        let mut choices = Vec::new(self.alloc);
        let mut otherwise = Vec::new(self.alloc);
        self.lower_branches(branches, table, &mut choices, &mut otherwise)?;
        put(
            table,
            into,
            first_in(value),
            case_action(kind, chosen_of, choices, otherwise),
        )
    }

    // The branches of a `case`, and the places of its `default`.
    #[cycle(statements)]
    fn lower_branches(
        &self,
        branches: &[Branch],
        table: &mut Table,
        into: &mut Vec<Choice>,
        otherwise: &mut Vec<usize>,
    ) -> Result<(), OrMemory<ElabFault>>
        ensures { Makes result (record {
          table = table.new;
          branches = into.new.items;
          otherwise = otherwise.new.items;
        }) (with_branches_before into.old.items otherwise.old.items
            (spec.lower_branches self.now.scope.now table.old
            (branches_at (words_of self.now.tokens.now) self.now.path.now branches.now))) }
    {
        for branch in branches {
            self.lower_branch(branch, table, into, otherwise)?;
        }
        Ok(())
    }

    // A branch of a `case`.
    #[cycle(statements)]
    fn lower_branch(
        &self,
        branch: &Branch,
        table: &mut Table,
        into: &mut Vec<Choice>,
        otherwise: &mut Vec<usize>,
    ) -> Result<(), OrMemory<ElabFault>>
        ensures { Makes result (record {
          table = table.new;
          branches = into.new.items;
          otherwise = otherwise.new.items;
        }) (with_branches_before into.old.items otherwise.old.items
            (spec.lower_branch self.now.scope.now table.old
            (branch_at (words_of self.now.tokens.now) self.now.path.now branch.now))) }
    {
        match branch {
            Branch::Labelled { labels, body } => {
                let places = self.lower_body(body, table)?;
                self.put_labels(labels, &places, into)
            }
            Branch::Default { body, .. } => self.lower(body, table, otherwise),
        }
    }

    // What drives nets.
    fn lower_drive(
        &self,
        target: &Written,
        value: &Value,
        table: &mut Table,
        into: &mut Vec<usize>,
    ) -> Result<(), OrMemory<ElabFault>>
        ensures { Makes result (record { table = table.new; places = into.new.items })
            (with_places_before into.old.items (processes.lower_drive self.now.scope.now table.old
            (target_tree (words_of self.now.tokens.now) target.now) (text_tree (words_of self.now.tokens.now) value.now))) }
    {
        let word = first_target(target);
        let targets = net_targets_of(self.alloc, self.scope, self.tokens, target)?;
        let terms = condition_terms(self.alloc, self.scope, self.tokens, value)?;
        let value = self.expression(value)?;
        put(
            table,
            into,
            word,
            Action::ContinuousAssign {
                targets,
                value,
                terms,
            },
        )
    }

    // The process that drives nets.
    fn lower_net(
        &self,
        target: &Written,
        value: &Value,
        table: &mut Table,
        into: &mut Vec<Places>,
    ) -> Result<(), OrMemory<ElabFault>>
        ensures { Makes result (record { table = table.new; begins = into.new.items })
            (with_begins_before into.old.items (lower_processes self.now.scope.now table.old (continuous
            (target_tree (words_of self.now.tokens.now) target.now) (text_tree (words_of self.now.tokens.now) value.now) ∷ []))) }
    {
        let mut begins = Vec::new(self.alloc);
        self.lower_drive(target, value, table, &mut begins)?;
        into.push(Places::new(begins))?;
        Ok(())
    }

    // The process of a variable that is declared with a value.
    fn lower_variable(
        &self,
        name: Token,
        value: &Value,
        table: &mut Table,
        into: &mut Vec<Places>,
    ) -> Result<(), OrMemory<ElabFault>>
        ensures { Makes result (record { table = table.new; begins = into.new.items })
            (with_begins_before into.old.items (lower_processes self.now.scope.now table.old (procedural (assign
            (whole (word_of (words_of self.now.tokens.now) name)) None
            (text_tree (words_of self.now.tokens.now) value.now)) ∷ []))) }
    {
        let target = Written::Whole(name);
        let mut begins = Vec::new(self.alloc);
        self.lower_assignment(true, &target, &None, value, table, &mut begins)?;
        into.push(Places::new(begins))?;
        Ok(())
    }

    // The process of a name that is declared with a value, if it is.
    fn lower_start(
        &self,
        word: NetKind,
        one: &Declared,
        table: &mut Table,
        into: &mut Vec<Places>,
    ) -> Result<(), OrMemory<ElabFault>>
        ensures { Makes result (record { table = table.new; begins = into.new.items })
            (with_begins_before into.old.items (lower_processes self.now.scope.now table.old
            (starts_in (words_of self.now.tokens.now) word (one.now ∷ [])))) }
    {
        match &one.value {
            None => Ok(()),
            Some(value) => match word {
                NetKind::Wire => self.lower_net(&Written::Whole(one.name), value, table, into),
                NetKind::Reg => self.lower_variable(one.name, value, table, into),
            },
        }
    }

    // The processes of names that are declared together.
    fn lower_starts(
        &self,
        word: NetKind,
        list: &[Declared],
        table: &mut Table,
        into: &mut Vec<Places>,
    ) -> Result<(), OrMemory<ElabFault>>
        ensures { Makes result (record { table = table.new; begins = into.new.items })
            (with_begins_before into.old.items (lower_processes self.now.scope.now table.old
            (starts_in (words_of self.now.tokens.now) word list.now))) }
    {
        for one in list {
            self.lower_start(word, one, table, into)?;
        }
        Ok(())
    }

    // The process of a port with a value, if it has one.
    fn lower_port(
        &self,
        port: &Port,
        table: &mut Table,
        into: &mut Vec<Places>,
    ) -> Result<(), OrMemory<ElabFault>>
        ensures { Makes result (record { table = table.new; begins = into.new.items })
            (with_begins_before into.old.items (lower_processes self.now.scope.now table.old
            (values_in (words_of self.now.tokens.now) (port.now ∷ [])))) }
    {
        match &port.value {
            None => Ok(()),
            Some(value) => self.lower_variable(port.name, value, table, into),
        }
    }

    // The processes of the values of ports.
    fn lower_ports(
        &self,
        list: &[Port],
        table: &mut Table,
        into: &mut Vec<Places>,
    ) -> Result<(), OrMemory<ElabFault>>
        ensures { Makes result (record { table = table.new; begins = into.new.items })
            (with_begins_before into.old.items (lower_processes self.now.scope.now table.old
            (values_in (words_of self.now.tokens.now) list.now))) }
    {
        for one in list {
            self.lower_port(one, table, into)?;
        }
        Ok(())
    }

    // The process of one part of an `assign`.
    fn lower_net_assignment(
        &self,
        one: &NetAssignment,
        table: &mut Table,
        into: &mut Vec<Places>,
    ) -> Result<(), OrMemory<ElabFault>>
        ensures { Makes result (record { table = table.new; begins = into.new.items })
            (with_begins_before into.old.items (lower_processes self.now.scope.now table.old
            (drives_in (words_of self.now.tokens.now) (one.now ∷ [])))) }
    {
        self.lower_net(&one.target, &one.value, table, into)
    }

    // The processes of an `assign`.
    fn lower_drives(
        &self,
        list: &[NetAssignment],
        table: &mut Table,
        into: &mut Vec<Places>,
    ) -> Result<(), OrMemory<ElabFault>>
        ensures { Makes result (record { table = table.new; begins = into.new.items })
            (with_begins_before into.old.items (lower_processes self.now.scope.now table.old
            (drives_in (words_of self.now.tokens.now) list.now))) }
    {
        for one in list {
            self.lower_net_assignment(one, table, into)?;
        }
        Ok(())
    }

    // The processes of an item.
    fn lower_item(
        &self,
        item: &ModuleItem,
        table: &mut Table,
        into: &mut Vec<Places>,
    ) -> Result<(), OrMemory<ElabFault>>
        ensures { Makes result (record { table = table.new; begins = into.new.items })
            (with_begins_before into.old.items (processes_of_item (words_of self.now.tokens.now)
            self.now.path.now self.now.scope.now table.old item.now)) }
    {
        match item {
            ModuleItem::Initial { statement, .. } => {
                let begins = self.lower_body(statement, table)?;
                into.push(Places::new(begins))?;
                Ok(())
            }
            ModuleItem::Parameters { .. } => Ok(()),
            ModuleItem::Declaration { kind, declared, .. } => match kind {
                DeclarationKind::Variables { net, .. } => {
                    self.lower_starts(*net, declared, table, into)
                }
                DeclarationKind::Integers { .. } => {
                    self.lower_starts(NetKind::Reg, declared, table, into)
                }
                DeclarationKind::Directed { .. } => {
                    self.lower_starts(NetKind::Reg, declared, table, into)
                }
            },
            ModuleItem::Events { .. } => Ok(()),
            ModuleItem::Assignments { list, .. } => self.lower_drives(list, table, into),
            ModuleItem::Always { statement, .. } => {
                let mut begins = Vec::new(self.alloc);
                self.lower_forever(statement, table, &mut begins)?;
                into.push(Places::new(begins))?;
                Ok(())
            }
            ModuleItem::Instances { .. } => Ok(()),
        }
    }
}

// The processes of items, each in the scope of its place.
fn lower_items(
    alloc: Global,
    tokens: &Tokens<'_>,
    path: &[u8],
    scope: &Scope<'_, '_>,
    items: &[ModuleItem],
    table: &mut Table,
    into: &mut Vec<Places>,
) -> Result<(), OrMemory<ElabFault>>
    requires small { scope.now.known + length (symbols_in (words_of tokens.now) items.now) < 2 ^ 64 }
    ensures { Makes result (record { table = table.new; begins = into.new.items })
        (with_begins_before into.old.items
        (processes_of (words_of tokens.now) path.now scope.now table.old items.now)) }
{
    let mut known = scope.known;
    for item in items {
        let here = scope.at(known);
        let elaborator = Elaborator {
            alloc,
            scope: &here,
            tokens: &*tokens,
            path,
        };
        elaborator.lower_item(item, table, into)?;
        known += symbol_count(item);
    }
    Ok(())
}

/// An `initial` for each port of a module's list that has a value, in their order, after the processes that there are. `scope` is that of the
/// first item. Errors: E303, E306, E307, E310, E901.
pub fn put_port_values(
    alloc: Global,
    tokens: &Tokens<'_>,
    scope: &Scope<'_, '_>,
    ports: &Option<Vec<Port>>,
    table: &mut Table,
    into: &mut Vec<Places>,
) -> Result<(), OrMemory<ElabFault>>
    ensures makes { Makes result (record { table = table.new; begins = into.new.items })
        (with_begins_before into.old.items
        (values_of (words_of tokens.now) scope.now table.old ports.now)) }
{
    match ports {
        None => Ok(()),
        Some(list) => {
            let elaborator = Elaborator {
                alloc,
                scope: &*scope,
                tokens: &*tokens,
                path: b"",
            };
            elaborator.lower_ports(list, table, into)
        }
    }
}

/// A process for each `initial`, each `always`, each net that an `assign` drives and each name that is declared with a value, in the order of the
/// text, after those that there are. `path` is that of the instance, `scope` that of the first item. Errors: E303, E306, E307, E310, E901.
pub fn put_processes(
    alloc: Global,
    tokens: &Tokens<'_>,
    path: &[u8],
    scope: &Scope<'_, '_>,
    items: &[ModuleItem],
    table: &mut Table,
    into: &mut Vec<Places>,
) -> Result<(), OrMemory<ElabFault>>
    requires small { scope.now.known + length (symbols_in (words_of tokens.now) items.now) < 2 ^ 64 }
    ensures makes { Makes result (record { table = table.new; begins = into.new.items })
        (with_begins_before into.old.items
        (processes_of (words_of tokens.now) path.now scope.now table.old items.now)) }
{
    lower_items(alloc, tokens, path, scope, items, table, into)
}
