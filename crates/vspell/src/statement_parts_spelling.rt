// The words of what stands in statements beside expressions and statements, in order: targets, delays, events, calls of system
// tasks.

ghost use Rattle.std.specs.Prelude.{◌≡◌, ◌∷◌, [], flat_map, map, option_map};
ghost use Rattle.vast.specs.TokenTexts.{token_text, texts};
ghost use Rattle.vast.specs.ExpressionTrees.{tree_of};
ghost use Rattle.vast.specs.Statements.{spell_target, spell_targets, spell_delay, spell_optional_delay, edge_word as edge_text, spell_edge, spell_term, spell_further_term, spell_event, spell_argument, spell_arguments, spell_path, spell_selection, spell_number, spell_task, spell_setting, spell_condition, with_commas, spell_block_name};
ghost use Rattle.vast.specs.StatementTrees.{target_tree, target_trees, delay_tree, term_tree, further_term, event_tree, argument_tree, path_tree, selection_tree, task_tree};
ghost use Rattle.vspell.specs.Inner.{Puts, joined_words, assigned_words, dotted_words, paths_words};

use crate::expression_spelling::{put_expression, put_range};
use crate::spelling::{Spelling, put, put_comma, put_token};
use basis::NoMemory;
use vast::expression::Expression;
use vast::keywords::{dump_word, end_word, idle_word, print_word};
use vast::statement::{
    Argument, Delay, Edge, Event, FurtherTerm, Path, Selection, Target, Task, Term,
};
use vast::token::Token;

/// Puts the words of a target after the others.
#[cycle(targets)]
pub fn put_target<'t>(
    out: &mut Vec<Spelling<'t>>,
    words: &[&'t [u8]],
    target: &Target,
) -> Result<(), NoMemory>
    ensures { Puts out.old out.new result (spell_target
        (target_tree (texts words.now) target.now)) }
{
    match target {
        Target::Whole(name) => put_token(out, words, *name),
        Target::Bit { name, index } => {
            put_token(out, words, *name)?;
            put(out, b"[")?;
            put_expression(out, words, index)?;
            put(out, b"]")
        }
        Target::Part { name, left, right } => {
            put_token(out, words, *name)?;
            put_range(out, words, left, right)
        }
        Target::Joined { targets, .. } => put_joined(out, words, targets),
    }
}

#[cycle(targets)]
fn put_joined<'t>(
    out: &mut Vec<Spelling<'t>>,
    words: &[&'t [u8]],
    targets: &[Target],
) -> Result<(), NoMemory>
    ensures { Puts out.old out.new result
        (joined_words (target_trees (texts words.now) targets.now)) }
{
    put(out, b"{")?;
    put_targets(out, words, targets)?;
    put(out, b"}")
}

#[cycle(targets)]
#[tactic(auto, using(crate::proofs::SpellLemmas::targets_first))]
fn put_targets<'t>(
    out: &mut Vec<Spelling<'t>>,
    words: &[&'t [u8]],
    targets: &[Target],
) -> Result<(), NoMemory>
    ensures { Puts out.old out.new result
        (spell_targets (target_trees (texts words.now) targets.now)) }
{
    let mut first = true;
    for target in targets {
        put_comma(out, first)?;
        first = false;
        put_target(out, words, target)?;
    }
    Ok(())
}

/// Puts the words of a delay.
pub fn put_delay<'t>(
    out: &mut Vec<Spelling<'t>>,
    words: &[&'t [u8]],
    delay: &Delay,
) -> Result<(), NoMemory>
    ensures { Puts out.old out.new result (spell_delay (delay_tree (texts words.now) delay.now)) }
{
    put(out, b"#")?;
    match delay {
        Delay::Number(word) => put_token(out, words, *word),
        Delay::Name(word) => put_token(out, words, *word),
        Delay::Value(value) => put_condition(out, words, value),
    }
}

fn put_optional_delay<'t>(
    out: &mut Vec<Spelling<'t>>,
    words: &[&'t [u8]],
    delay: &Option<Delay>,
) -> Result<(), NoMemory>
    ensures { Puts out.old out.new result
        (spell_optional_delay (option_map (delay_tree (texts words.now)) delay.now)) }
{
    match delay {
        None => Ok(()),
        Some(delay) => put_delay(out, words, delay),
    }
}

/// Puts `(condition)`.
pub fn put_condition<'t>(
    out: &mut Vec<Spelling<'t>>,
    words: &[&'t [u8]],
    condition: &Expression,
) -> Result<(), NoMemory>
    ensures { Puts out.old out.new result
        (spell_condition (tree_of (texts words.now) condition.now)) }
{
    put(out, b"(")?;
    put_expression(out, words, condition)?;
    put(out, b")")
}

/// Puts `target = value`.
pub fn put_setting<'t>(
    out: &mut Vec<Spelling<'t>>,
    words: &[&'t [u8]],
    target: &Target,
    value: &Expression,
) -> Result<(), NoMemory>
    ensures { Puts out.old out.new result (spell_setting
        (target_tree (texts words.now) target.now) (tree_of (texts words.now) value.now)) }
{
    put_target(out, words, target)?;
    put(out, b"=")?;
    put_expression(out, words, value)
}

/// Puts `#delay value;`.
pub fn put_assigned<'t>(
    out: &mut Vec<Spelling<'t>>,
    words: &[&'t [u8]],
    delay: &Option<Delay>,
    value: &Expression,
) -> Result<(), NoMemory>
    ensures { Puts out.old out.new result (assigned_words
        (option_map (delay_tree (texts words.now)) delay.now)
        (tree_of (texts words.now) value.now)) }
{
    put_optional_delay(out, words, delay)?;
    put_expression(out, words, value)?;
    put(out, b";")
}

fn edge_word(edge: Edge) -> &'static [u8]
    ensures { result.now ≡ edge_text edge }
{
    match edge {
        Edge::Rising => b"posedge",
        Edge::Falling => b"negedge",
    }
}

fn put_edge<'t>(out: &mut Vec<Spelling<'t>>, edge: Option<Edge>) -> Result<(), NoMemory>
    ensures { Puts out.old out.new result (spell_edge edge) }
{
    match edge {
        None => Ok(()),
        Some(edge) => put(out, edge_word(edge)),
    }
}

fn put_term<'t>(
    out: &mut Vec<Spelling<'t>>,
    words: &[&'t [u8]],
    term: &Term,
) -> Result<(), NoMemory>
    ensures { Puts out.old out.new result (spell_term (term_tree (texts words.now) term.now)) }
{
    put_edge(out, term.edge)?;
    put_token(out, words, term.name)
}

fn put_further_term<'t>(
    out: &mut Vec<Spelling<'t>>,
    words: &[&'t [u8]],
    further: &FurtherTerm,
) -> Result<(), NoMemory>
    ensures { Puts out.old out.new result
        (spell_further_term (further_term (texts words.now) further.now)) }
{
    put(out, if further.by_comma { b"," } else { b"or" })?;
    put_term(out, words, &further.term)
}

fn put_further<'t>(
    out: &mut Vec<Spelling<'t>>,
    words: &[&'t [u8]],
    further: &[FurtherTerm],
) -> Result<(), NoMemory>
    ensures { Puts out.old out.new result
        (flat_map spell_further_term (map (further_term (texts words.now)) further.now)) }
{
    for one in further {
        put_further_term(out, words, one)?;
    }
    Ok(())
}

/// Puts the words of an event control.
pub fn put_event<'t>(
    out: &mut Vec<Spelling<'t>>,
    words: &[&'t [u8]],
    event: &Event,
) -> Result<(), NoMemory>
    ensures { Puts out.old out.new result (spell_event (event_tree (texts words.now) event.now)) }
{
    put(out, b"@")?;
    match event {
        Event::Named(word) => put_token(out, words, *word),
        Event::Any => put(out, b"*"),
        Event::AnyEnclosed => {
            put(out, b"(")?;
            put(out, b"*")?;
            put(out, b")")
        }
        Event::Terms { term, further } => {
            put(out, b"(")?;
            put_term(out, words, term)?;
            put_further(out, words, further)?;
            put(out, b")")
        }
    }
}

fn put_argument<'t>(
    out: &mut Vec<Spelling<'t>>,
    words: &[&'t [u8]],
    argument: &Argument,
) -> Result<(), NoMemory>
    ensures { Puts out.old out.new result
        (spell_argument (argument_tree (texts words.now) argument.now)) }
{
    match argument {
        Argument::Text(word) => put_token(out, words, *word),
        Argument::Value(value) => put_expression(out, words, value),
        Argument::LeftOut => Ok(()),
    }
}

#[tactic(auto, using(crate::proofs::SpellLemmas::listed_first))]
fn put_each_argument<'t>(
    out: &mut Vec<Spelling<'t>>,
    words: &[&'t [u8]],
    arguments: &[Argument],
) -> Result<(), NoMemory>
    ensures { Puts out.old out.new result
        (with_commas spell_argument (map (argument_tree (texts words.now)) arguments.now)) }
{
    let mut first = true;
    for argument in arguments {
        put_comma(out, first)?;
        first = false;
        put_argument(out, words, argument)?;
    }
    Ok(())
}

fn put_arguments<'t>(
    out: &mut Vec<Spelling<'t>>,
    words: &[&'t [u8]],
    arguments: &[Argument],
) -> Result<(), NoMemory>
    ensures { Puts out.old out.new result
        (spell_arguments (map (argument_tree (texts words.now)) arguments.now)) }
{
    match arguments.split_first() {
        None => Ok(()),
        Some(_) => {
            put(out, b"(")?;
            put_each_argument(out, words, arguments)?;
            put(out, b")")
        }
    }
}

fn put_dotted<'t>(
    out: &mut Vec<Spelling<'t>>,
    words: &[&'t [u8]],
    names: &[Token],
) -> Result<(), NoMemory>
    ensures { Puts out.old out.new result
        (dotted_words (map (token_text (texts words.now)) names.now)) }
{
    for name in names {
        put(out, b".")?;
        put_token(out, words, *name)?;
    }
    Ok(())
}

fn put_path<'t>(
    out: &mut Vec<Spelling<'t>>,
    words: &[&'t [u8]],
    path: &Path,
) -> Result<(), NoMemory>
    ensures { Puts out.old out.new result (spell_path (path_tree (texts words.now) path.now)) }
{
    match path.names.split_first() {
        None => Ok(()),
        Some((name, more)) => {
            put_token(out, words, *name)?;
            put_dotted(out, words, more)
        }
    }
}

fn put_paths<'t>(
    out: &mut Vec<Spelling<'t>>,
    words: &[&'t [u8]],
    paths: &[Path],
) -> Result<(), NoMemory>
    ensures { Puts out.old out.new result
        (paths_words (map (path_tree (texts words.now)) paths.now)) }
{
    for path in paths {
        put(out, b",")?;
        put_path(out, words, path)?;
    }
    Ok(())
}

fn put_selection<'t>(
    out: &mut Vec<Spelling<'t>>,
    words: &[&'t [u8]],
    selection: &Option<Selection>,
) -> Result<(), NoMemory>
    ensures { Puts out.old out.new result
        (spell_selection (option_map (selection_tree (texts words.now)) selection.now)) }
{
    match selection {
        None => Ok(()),
        Some(selection) => {
            put(out, b"(")?;
            put_token(out, words, selection.levels)?;
            put_paths(out, words, &selection.paths)?;
            put(out, b")")
        }
    }
}

/// Puts the name of a block, behind `begin`.
pub fn put_block_name<'t>(
    out: &mut Vec<Spelling<'t>>,
    words: &[&'t [u8]],
    name: &Option<Token>,
) -> Result<(), NoMemory>
    ensures { Puts out.old out.new result
        (spell_block_name (option_map (token_text (texts words.now)) name.now)) }
{
    match name {
        None => Ok(()),
        Some(name) => {
            put(out, b":")?;
            put_token(out, words, *name)
        }
    }
}

fn put_number<'t>(
    out: &mut Vec<Spelling<'t>>,
    words: &[&'t [u8]],
    number: &Option<Token>,
) -> Result<(), NoMemory>
    ensures { Puts out.old out.new result
        (spell_number (option_map (token_text (texts words.now)) number.now)) }
{
    match number {
        None => Ok(()),
        Some(number) => {
            put(out, b"(")?;
            put_token(out, words, *number)?;
            put(out, b")")
        }
    }
}

/// Puts the words of a call of a system task.
pub fn put_task<'t>(
    out: &mut Vec<Spelling<'t>>,
    words: &[&'t [u8]],
    task: &Task,
) -> Result<(), NoMemory>
    ensures { Puts out.old out.new result (spell_task (task_tree (texts words.now) task.now)) }
{
    match task {
        Task::Print { kind, arguments } => {
            put(out, print_word(*kind))?;
            put_arguments(out, words, arguments)
        }
        Task::Idle { kind, arguments } => {
            put(out, idle_word(*kind))?;
            put_arguments(out, words, arguments)
        }
        Task::DumpFile(word) => {
            put(out, b"$dumpfile")?;
            put(out, b"(")?;
            put_token(out, words, *word)?;
            put(out, b")")
        }
        Task::DumpVars(selection) => {
            put(out, b"$dumpvars")?;
            put_selection(out, words, selection)
        }
        Task::Dump(kind) => put(out, dump_word(*kind)),
        Task::End { stops, number } => {
            put(out, end_word(*stops))?;
            put_number(out, words, number)
        }
    }
}
