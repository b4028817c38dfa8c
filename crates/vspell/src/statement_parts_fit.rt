// Whether what stands in a statement beside expressions and statements stands as the grammar lets it: targets, delays, events,
// calls of system tasks.

ghost use Rattle.std.specs.Prelude.{◌≡◌, List, map, option_map};
ghost use Rattle.std.specs.List.{list_all};
ghost use Rattle.vwords.specs.Words.{Text, is_name as is_name_text};
ghost use Rattle.vast.specs.TokenTexts.{token_text, texts};
ghost use Rattle.vast.specs.ExpressionTrees.{tree_of};
ghost use Rattle.vast.specs.Statements.{is_some_target as is_some_tree, fits_further_term, fits_print, fits_path, fits_selection, fits_optional_number, fits_block_name};
ghost use Rattle.vast.specs.StatementTrees.{target_tree, target_trees, delay_tree, further_term, event_tree, argument_tree, path_tree, selection_tree, task_tree};
ghost use Rattle.vspell.specs.Within.{target_stands as target_tree_stands, targets_stand as target_trees_stand, target_within, delay_within, optional_delay_within, setting_within, assignment_within, event_within, argument_within, task_within};

use crate::expression_fits::expression_fits;
use vast::expression::Expression;
use vast::statement::{
    Argument, Delay, Event, FurtherTerm, Path, Printing, Selection, Target, Task,
};
use vast::token::{Token, letters};
use vwords::words::{is_name, is_number, is_string};

// Whether there is a target.
fn is_some_target(targets: &[Target]) -> bool
    ensures { (words : List Text) → result ≡ is_some_tree (target_trees words targets.now) }
{
    !targets.is_empty()
}

// Whether the target fits, and has so many levels at most.
#[cycle(targets)]
#[tactic(auto, using(crate::proofs::StatementFitLemmas::target_nowhere))]
fn target_stands(words: &[&[u8]], target: &Target, levels: u32) -> bool
    ensures { result ≡ target_tree_stands levels (target_tree (texts words.now) target.now) }
{
    if levels == 0 {
        return false;
    }
    let below = levels - 1;
    match target {
        Target::Whole(name) => is_name(letters(words, *name)),
        Target::Bit { name, index } => {
            is_name(letters(words, *name)) && expression_fits(words, index, below)
        }
        Target::Part { name, left, right } => {
            is_name(letters(words, *name))
                && (expression_fits(words, left, below) && expression_fits(words, right, below))
        }
        Target::Joined { targets, .. } => {
            is_some_target(targets) && targets_stand(words, targets, below)
        }
    }
}

#[cycle(targets)]
fn targets_stand(words: &[&[u8]], targets: &[Target], levels: u32) -> bool
    ensures { result ≡ target_trees_stand levels (target_trees (texts words.now) targets.now) }
{
    for target in targets {
        if !target_stands(words, target, levels) {
            return false;
        }
    }
    true
}

/// Whether the target stands as the grammar lets it, and has so many levels at most.
#[tactic(auto, using(crate::proofs::StatementFitLemmas::target_stands_is))]
pub fn target_fits(words: &[&[u8]], target: &Target, levels: u32) -> bool
    ensures { result ≡ target_within levels (target_tree (texts words.now) target.now) }
{
    target_stands(words, target, levels)
}

/// Whether the delay stands so.
pub fn delay_fits(words: &[&[u8]], delay: &Delay, levels: u32) -> bool
    ensures { result ≡ delay_within levels (delay_tree (texts words.now) delay.now) }
{
    match delay {
        Delay::Number(word) => levels > 0 && is_number(letters(words, *word)),
        Delay::Name(word) => levels > 0 && is_name(letters(words, *word)),
        Delay::Value(value) => expression_fits(words, value, levels),
    }
}

fn optional_delay_fits(words: &[&[u8]], delay: &Option<Delay>, levels: u32) -> bool
    ensures { result ≡ optional_delay_within levels
        (option_map (delay_tree (texts words.now)) delay.now) }
{
    match delay {
        None => true,
        Some(delay) => delay_fits(words, delay, levels),
    }
}

/// Whether `target = value` stands so.
pub fn setting_fits(words: &[&[u8]], target: &Target, value: &Expression, levels: u32) -> bool
    ensures { result ≡ setting_within levels
        (target_tree (texts words.now) target.now) (tree_of (texts words.now) value.now) }
{
    target_fits(words, target, levels) && expression_fits(words, value, levels)
}

/// Whether `target = #delay value` stands so.
pub fn assignment_fits(
    words: &[&[u8]],
    target: &Target,
    delay: &Option<Delay>,
    value: &Expression,
    levels: u32,
) -> bool
    ensures { result ≡ assignment_within levels
        (target_tree (texts words.now) target.now)
        (option_map (delay_tree (texts words.now)) delay.now)
        (tree_of (texts words.now) value.now) }
{
    target_fits(words, target, levels)
        && optional_delay_fits(words, delay, levels)
        && expression_fits(words, value, levels)
}

fn terms_fit(words: &[&[u8]], further: &[FurtherTerm]) -> bool
    ensures { result ≡ list_all fits_further_term
        (map (further_term (texts words.now)) further.now) }
{
    for one in further {
        if !is_name(letters(words, one.term.name)) {
            return false;
        }
    }
    true
}

/// Whether the event control stands so.
pub fn event_fits(words: &[&[u8]], event: &Event, levels: u32) -> bool
    ensures { result ≡ event_within levels (event_tree (texts words.now) event.now) }
{
    match event {
        Event::Named(word) => levels > 0 && is_name(letters(words, *word)),
        Event::Any => true,
        Event::AnyEnclosed => true,
        Event::Terms { term, further } => {
            levels > 0 && (is_name(letters(words, term.name)) && terms_fit(words, further))
        }
    }
}

fn argument_fits(words: &[&[u8]], argument: &Argument, levels: u32) -> bool
    ensures { result ≡ argument_within levels (argument_tree (texts words.now) argument.now) }
{
    match argument {
        Argument::Text(word) => levels > 0 && is_string(letters(words, *word)),
        Argument::Value(value) => expression_fits(words, value, levels),
        Argument::LeftOut => levels > 0,
    }
}

fn arguments_fit(words: &[&[u8]], arguments: &[Argument], levels: u32) -> bool
    ensures { result ≡ list_all (argument_within levels)
        (map (argument_tree (texts words.now)) arguments.now) }
{
    for argument in arguments {
        if !argument_fits(words, argument, levels) {
            return false;
        }
    }
    true
}

// Whether there are arguments, where they are asked for.
fn print_fits(kind: Printing, arguments: &[Argument]) -> bool
    ensures { (words : List Text) →
        result ≡ fits_print kind (map (argument_tree words) arguments.now) }
{
    match kind {
        Printing::Display(_) => true,
        Printing::Write(_) => true,
        Printing::Strobe(_) => true,
        Printing::Monitor(_) => !arguments.is_empty(),
    }
}

/// Whether these are names.
pub fn are_names(words: &[&[u8]], names: &[Token]) -> bool
    ensures { result ≡ list_all is_name_text (map (token_text (texts words.now)) names.now) }
{
    for name in names {
        if !is_name(letters(words, *name)) {
            return false;
        }
    }
    true
}

fn path_fits(words: &[&[u8]], path: &Path) -> bool
    ensures { result ≡ fits_path (path_tree (texts words.now) path.now) }
{
    !path.names.is_empty() && are_names(words, &path.names)
}

fn paths_fit(words: &[&[u8]], paths: &[Path]) -> bool
    ensures { result ≡ list_all fits_path (map (path_tree (texts words.now)) paths.now) }
{
    for path in paths {
        if !path_fits(words, path) {
            return false;
        }
    }
    true
}

fn selection_fits(words: &[&[u8]], selection: &Option<Selection>) -> bool
    ensures { result ≡ fits_selection
        (option_map (selection_tree (texts words.now)) selection.now) }
{
    match selection {
        None => true,
        Some(selection) => {
            is_number(letters(words, selection.levels)) && paths_fit(words, &selection.paths)
        }
    }
}

fn number_fits(words: &[&[u8]], number: &Option<Token>) -> bool
    ensures { result ≡ fits_optional_number
        (option_map (token_text (texts words.now)) number.now) }
{
    match number {
        None => true,
        Some(number) => is_number(letters(words, *number)),
    }
}

/// Whether the name of a block stands so.
pub fn block_name_fits(words: &[&[u8]], name: &Option<Token>) -> bool
    ensures { result ≡ fits_block_name (option_map (token_text (texts words.now)) name.now) }
{
    match name {
        None => true,
        Some(name) => is_name(letters(words, *name)),
    }
}

/// Whether the call of a system task stands so.
pub fn task_fits(words: &[&[u8]], task: &Task, levels: u32) -> bool
    ensures { result ≡ task_within levels (task_tree (texts words.now) task.now) }
{
    match task {
        Task::Print { kind, arguments } => {
            print_fits(*kind, arguments) && arguments_fit(words, arguments, levels)
        }
        Task::Idle { arguments, .. } => arguments_fit(words, arguments, levels),
        Task::DumpFile(word) => levels > 0 && is_string(letters(words, *word)),
        Task::DumpVars(selection) => selection_fits(words, selection),
        Task::Dump(_) => true,
        Task::End { number, .. } => number_fits(words, number),
    }
}
