// Parts of statements: targets, delays, event controls, and what system tasks are given (IEEE 1364-2005, clauses 9, 17 and 18).

ghost use Rattle.std.specs.Prelude.{◌≡◌, ◌-◌, List, map, option_map};
ghost use Rattle.vast.specs.NumberedTrees.{argument_tree, delay_tree, event_tree, path_tree, selection_tree, target_tree, target_trees, task_tree, tree_of};
ghost use Rattle.vast.specs.NumberedWords.{word_of};
ghost use Rattle.vwords.specs.Words.{Text};
ghost use Rattle.vexpr_parse.specs.Texts.{words_of};
ghost use Rattle.module_size.specs.Sizes.{argument_size, assignment_size, delay_size, event_size, letter_size, pair_size, path_size, selection_size, size_if, size_of, string_size, target_size, targets_size, task_size, word_size};

use crate::expressions::take_expression;
use vast::expression::Expression;
use vast::statement::{Argument, Delay, Event, Path, Selection, Target, Task};
use vast::token::Token;
use vlex::Tokens;
use vmodules::letters::letters;

/// What is left behind a target.
#[cycle(targets)]
pub fn take_target(target: &Target, left: usize) -> usize
    ensures { (words : List Text) → result ≡ left - target_size (target_tree words target.now) }
{
    let left = left.saturating_sub(1);
    match target {
        Target::Whole(_) => left,
        Target::Bit { index, .. } => take_expression(index, left),
        Target::Part {
            left: first,
            right,
            ..
        } => take_expression(right, take_expression(first, left)),
        Target::Joined { targets, .. } => take_targets(targets, left),
    }
}

#[cycle(targets)]
fn take_targets(targets: &[Target], mut left: usize) -> usize
    ensures { (words : List Text) → result ≡ left - targets_size (target_trees words targets.now) }
{
    for one in targets {
        left = take_target(one, left);
    }
    left
}

/// What is left behind a delay.
pub fn take_delay(delay: &Delay, left: usize) -> usize
    ensures { (words : List Text) → result ≡ left - delay_size (delay_tree words delay.now) }
{
    match delay {
        Delay::Number(_) => left.saturating_sub(1),
        Delay::Name(_) => left.saturating_sub(1),
        Delay::Value(value) => take_expression(value, left),
    }
}

fn take_amount(amount: &Option<Delay>, left: usize) -> usize
    ensures { (words : List Text) →
        result ≡ left - size_if delay_size (option_map (delay_tree words) amount.now) }
{
    match amount {
        None => left,
        Some(amount) => take_delay(amount, left),
    }
}

/// What is left behind an assignment.
pub fn take_assignment(
    target: &Target,
    amount: &Option<Delay>,
    value: &Expression,
    left: usize,
) -> usize
    ensures { (words : List Text) → result ≡ left - assignment_size (target_tree words target.now)
        (option_map (delay_tree words) amount.now) (tree_of words value.now) }
{
    let left = take_target(target, left);
    take_expression(value, take_amount(amount, left))
}

/// What is left behind `target = value`.
pub fn take_pair(target: &Target, value: &Expression, left: usize) -> usize
    ensures { (words : List Text) → result ≡
        left - pair_size (target_tree words target.now) (tree_of words value.now) }
{
    take_expression(value, take_target(target, left))
}

/// What is left behind an event control.
pub fn take_event(event: &Event, left: usize) -> usize
    ensures { (words : List Text) → result ≡ left - event_size (event_tree words event.now) }
{
    let left = left.saturating_sub(1);
    match event {
        Event::Named(_) => left,
        Event::Any => left,
        Event::AnyEnclosed => left,
        Event::Terms { further, .. } => left.saturating_sub(further.len()),
    }
}

fn take_word(tokens: &Tokens<'_>, word: Token, left: usize) -> usize
    ensures { result ≡ left - word_size (word_of (words_of tokens.now) word) }
{
    left.saturating_sub(1)
        .saturating_sub(letters(tokens, word).len())
}

fn take_letter(letter: u8, path: usize, left: usize) -> usize
    ensures { result ≡ left - letter_size path letter }
{
    let left = left.saturating_sub(1);
    if letter == b'%' || letter == b'\\' {
        left.saturating_sub(path)
    } else {
        left
    }
}

fn take_letters(string: &[u8], path: usize, mut left: usize) -> usize
    ensures { result ≡ left - size_of (letter_size path) string.now }
{
    for one in string {
        left = take_letter(*one, path, left);
    }
    left
}

fn take_string(tokens: &Tokens<'_>, word: Token, path: usize, left: usize) -> usize
    ensures { result ≡ left - string_size path (word_of (words_of tokens.now) word) }
{
    take_letters(letters(tokens, word), path, left.saturating_sub(1))
}

fn take_argument(tokens: &Tokens<'_>, argument: &Argument, path: usize, left: usize) -> usize
    ensures { result ≡
        left - argument_size path (argument_tree (words_of tokens.now) argument.now) }
{
    match argument {
        Argument::Text(word) => take_string(tokens, *word, path, left),
        Argument::Value(value) => take_expression(value, left),
        Argument::LeftOut => left.saturating_sub(2),
    }
}

fn take_arguments(
    tokens: &Tokens<'_>,
    arguments: &[Argument],
    path: usize,
    mut left: usize,
) -> usize
    ensures { result ≡ left - size_of (argument_size path)
        (map (argument_tree (words_of tokens.now)) arguments.now) }
{
    for one in arguments {
        left = take_argument(tokens, one, path, left);
    }
    left
}

fn take_path(tokens: &Tokens<'_>, names: &[Token], mut left: usize) -> usize
    ensures { result ≡ left - path_size (map (word_of (words_of tokens.now)) names.now) }
{
    for one in names {
        left = take_word(tokens, *one, left);
    }
    left
}

fn take_paths(tokens: &Tokens<'_>, paths: &[Path], mut left: usize) -> usize
    ensures { result ≡
        left - size_of path_size (map (path_tree (words_of tokens.now)) paths.now) }
{
    for one in paths {
        left = take_path(tokens, &one.names, left);
    }
    left
}

fn take_selection(tokens: &Tokens<'_>, selection: &Option<Selection>, left: usize) -> usize
    ensures { result ≡ left - size_if selection_size
        (option_map (selection_tree (words_of tokens.now)) selection.now) }
{
    match selection {
        None => left,
        Some(selection) => take_paths(tokens, &selection.paths, left),
    }
}

/// What is left behind a system task in a scope whose path has so many letters.
pub fn take_task(tokens: &Tokens<'_>, task: &Task, path: usize, left: usize) -> usize
    ensures { result ≡ left - task_size path (task_tree (words_of tokens.now) task.now) }
{
    match task {
        Task::Print { arguments, .. } => take_arguments(tokens, arguments, path, left),
        Task::Idle { .. } => left,
        Task::DumpFile(_) => left,
        Task::DumpVars(selection) => take_selection(tokens, selection, left),
        Task::Dump(_) => left,
        Task::End { .. } => left,
    }
}
