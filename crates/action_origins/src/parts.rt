// Parts of statements: targets, delays, event controls, and what system tasks are given (IEEE 1364-2005, clauses 9, 17 and 18).

ghost use Rattle.std.specs.Prelude.{◌≡◌, ◌-◌, ◌+◌, List, map, option_map};
ghost use Rattle.vast.specs.NumberedTrees.{argument_tree, delay_tree, event_tree, further_term, path_tree, selection_tree, target_tree, target_trees, task_tree, term_tree, tree_of};
ghost use Rattle.vast.specs.NumberedWords.{word_of};
ghost use Rattle.vwords.specs.Words.{Text};
ghost use Rattle.action_origins.specs.Lengths.{argument_length, arguments_length, assignment_length, delay_length, each_target, event_length, for_length, further_length, head_length, length_if, length_of_each, pair_length, path_length, paths_length, selection_length, target_length, targets_length, task_length, term_length, turn_length, word_if};

use crate::expressions::{past_end, past_expression};
use vast::expression::Expression;
use vast::statement::{
    Argument, Delay, Edge, Event, FurtherTerm, Path, Selection, Target, Task, Term,
};
use vast::token::Token;

/// What is left behind a target.
#[cycle(targets)]
pub fn past_target(target: &Target, left: usize) -> usize
    ensures { (words : List Text) → result ≡ left - target_length (target_tree words target.now) }
{
    match target {
        Target::Whole(_) => left.saturating_sub(1),
        Target::Bit { index, .. } => past_expression(index, left.saturating_sub(3)),
        Target::Part {
            left: first,
            right,
            ..
        } => past_expression(right, past_expression(first, left.saturating_sub(4))),
        Target::Joined { targets, .. } => past_targets(targets, left.saturating_sub(1)),
    }
}

// What is left behind targets and the word that ends them.
#[cycle(targets)]
fn past_targets(targets: &[Target], left: usize) -> usize
    ensures { (words : List Text) → result ≡ left - targets_length (target_trees words targets.now) }
{
    past_each_target(targets, past_end(targets.is_empty(), left))
}

#[cycle(targets)]
fn past_each_target(targets: &[Target], mut left: usize) -> usize
    ensures { (words : List Text) → result ≡ left - each_target (target_trees words targets.now) }
{
    for one in targets {
        left = past_target(one, left).saturating_sub(1);
    }
    left
}

/// What is left behind a delay.
pub fn past_delay(delay: &Delay, left: usize) -> usize
    ensures { (words : List Text) → result ≡ left - delay_length (delay_tree words delay.now) }
{
    match delay {
        Delay::Number(_) => left.saturating_sub(2),
        Delay::Name(_) => left.saturating_sub(2),
        Delay::Value(value) => past_expression(value, left.saturating_sub(3)),
    }
}

fn past_amount(amount: &Option<Delay>, left: usize) -> usize
    ensures { (words : List Text) →
        result ≡ left - length_if delay_length (option_map (delay_tree words) amount.now) }
{
    match amount {
        None => left,
        Some(amount) => past_delay(amount, left),
    }
}

/// What is left behind an assignment.
pub fn past_assignment(
    target: &Target,
    amount: &Option<Delay>,
    value: &Expression,
    left: usize,
) -> usize
    ensures { (words : List Text) → result ≡ left - assignment_length (target_tree words target.now)
        (option_map (delay_tree words) amount.now) (tree_of words value.now) }
{
    let left = past_target(target, left.saturating_sub(2));
    past_expression(value, past_amount(amount, left))
}

// What is left behind `target = value`.
pub fn past_pair(target: &Target, value: &Expression, left: usize) -> usize
    ensures { (words : List Text) → result ≡
        left - pair_length (target_tree words target.now) (tree_of words value.now) }
{
    past_expression(value, past_target(target, left.saturating_sub(1)))
}

/// What is left behind `for (target = value; condition;`.
pub fn past_for(target: &Target, value: &Expression, condition: &Expression, left: usize) -> usize
    ensures { (words : List Text) → result ≡ left - for_length (target_tree words target.now)
        (tree_of words value.now) (tree_of words condition.now) }
{
    past_expression(condition, past_pair(target, value, left.saturating_sub(4)))
}

/// What is left behind `target = value)`.
pub fn past_turn(target: &Target, value: &Expression, left: usize) -> usize
    ensures { (words : List Text) → result ≡
        left - turn_length (target_tree words target.now) (tree_of words value.now) }
{
    past_pair(target, value, left).saturating_sub(1)
}

/// What is left behind a keyword and a condition in parentheses.
pub fn past_head(condition: &Expression, left: usize) -> usize
    ensures { (words : List Text) → result ≡ left - head_length (tree_of words condition.now) }
{
    past_expression(condition, left.saturating_sub(3))
}

fn past_edge(edge: Option<Edge>, left: usize) -> usize
    ensures { result ≡ left - word_if edge }
{
    match edge {
        None => left,
        Some(_) => left.saturating_sub(1),
    }
}

fn past_term(term: &Term, left: usize) -> usize
    ensures { (words : List Text) → result ≡ left - term_length (term_tree words term.now) }
{
    past_edge(term.edge, left).saturating_sub(1)
}

fn past_further_term(further: &FurtherTerm, left: usize) -> usize
    ensures { (words : List Text) → result ≡
        left - (1 + term_length (further_term words further.now).term) }
{
    past_term(&further.term, left.saturating_sub(1))
}

fn past_further(list: &[FurtherTerm], mut left: usize) -> usize
    ensures { (words : List Text) → result ≡
        left - further_length (map (further_term words) list.now) }
{
    let mut rest = list;
    while let Some((one, behind)) = rest.split_first() {
        left = past_further_term(one, left);
        rest = behind;
    }
    left
}

/// What is left behind an event control.
pub fn past_event(event: &Event, left: usize) -> usize
    ensures { (words : List Text) → result ≡ left - event_length (event_tree words event.now) }
{
    match event {
        Event::Named(_) => left.saturating_sub(2),
        Event::Any => left.saturating_sub(2),
        Event::AnyEnclosed => left.saturating_sub(4),
        Event::Terms { term, further } => {
            past_further(further, past_term(term, left.saturating_sub(3)))
        }
    }
}

fn past_argument(argument: &Argument, left: usize) -> usize
    ensures { (words : List Text) → result ≡
        left - argument_length (argument_tree words argument.now) }
{
    match argument {
        Argument::Text(_) => left.saturating_sub(1),
        Argument::Value(value) => past_expression(value, left),
        Argument::LeftOut => left,
    }
}

fn past_each_argument(arguments: &[Argument], mut left: usize) -> usize
    ensures { (words : List Text) → result ≡
        left - length_of_each argument_length (map (argument_tree words) arguments.now) }
{
    for one in arguments {
        left = past_argument(one, left).saturating_sub(1);
    }
    left
}

fn past_arguments(arguments: &[Argument], left: usize) -> usize
    ensures { (words : List Text) → result ≡
        left - arguments_length (map (argument_tree words) arguments.now) }
{
    if arguments.is_empty() {
        return left;
    }
    past_each_argument(arguments, left.saturating_sub(1))
}

fn past_path(names: &[Token], left: usize) -> usize
    ensures { (words : List Text) → result ≡ left - path_length (map (word_of words) names.now) }
{
    let len = names.len();
    left.saturating_sub(len)
        .saturating_sub(len.saturating_sub(1))
}

fn past_paths(paths: &[Path], mut left: usize) -> usize
    ensures { (words : List Text) → result ≡
        left - paths_length (map (path_tree words) paths.now) }
{
    for one in paths {
        left = past_path(&one.names, left.saturating_sub(1));
    }
    left
}

fn past_selection(selection: &Option<Selection>, left: usize) -> usize
    ensures { (words : List Text) → result ≡ left - length_if selection_length
        (option_map (selection_tree words) selection.now) }
{
    match selection {
        None => left,
        Some(selection) => past_paths(&selection.paths, left.saturating_sub(3)),
    }
}

fn past_number(number: Option<Token>, left: usize) -> usize
    ensures { (words : List Text) → result ≡ left - length_if (λ word. 3)
        (option_map (word_of words) number) }
{
    match number {
        None => left,
        Some(_) => left.saturating_sub(3),
    }
}

/// What is left behind a system task.
pub fn past_task(task: &Task, left: usize) -> usize
    ensures { (words : List Text) → result ≡ left - task_length (task_tree words task.now) }
{
    match task {
        Task::Print { arguments, .. } => past_arguments(arguments, left.saturating_sub(1)),
        Task::Idle { arguments, .. } => past_arguments(arguments, left.saturating_sub(1)),
        Task::DumpFile(_) => left.saturating_sub(4),
        Task::DumpVars(selection) => past_selection(selection, left.saturating_sub(1)),
        Task::Dump(_) => left.saturating_sub(1),
        Task::End { number, .. } => past_number(*number, left.saturating_sub(1)),
    }
}
