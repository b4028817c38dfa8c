// What a `$dumpvars` selects (IEEE 1364-2005, 12.5, 18.1.2).

ghost use Rattle.std.specs.Prelude.{◌≡◌, ◌++◌, ◌∷◌, List, None, map, option_map, IfOk, OnOk};
ghost use Rattle.std.specs.List.{flat_map};
ghost use Rattle.vast.specs.NumberedTrees.{path_tree, selection_tree};
ghost use Rattle.vast.specs.NumberedWords.{word_of};
ghost use Rattle.vexpr_parse.specs.Texts.{words_of};
ghost use Rattle.velab_expr.specs.Inner.{all_chosen};
ghost use Rattle.vwords.specs.Words.{Text as TextLetters};
ghost use Rattle.velab_expr.specs.Answers.{Gives};
ghost use Rattle.velab_expr.specs.Rules.{number_in};
ghost use Rattle.velab_expr.specs.Selections as spec;

use crate::fault::{ElabFault, Rule};
use crate::number::constant_of;
use crate::refusal::refusal;
use crate::scope::Scope;
use basis::{NoMemory, OrMemory};
use std::alloc::Global;
use vast::statement::{Path, Selection as Written};
use vast::token::Token;
use vdesign::dump::{Chosen, Selection};
use vdesign::print::Text;
use vlex::Tokens;
use vmodules::letters::letters;

// Names, a dot before each.
fn put_names(tokens: &Tokens<'_>, names: &[Token], into: &mut Vec<u8>) -> Result<(), NoMemory>
    ensures { OnOk result (into.new.items ≡
        into.old.items ++ flat_map (λ one. 46 ∷ one.letters) (map (word_of (words_of tokens.now))
        names.now)) }
{
    for name in names {
        into.push(b'.')?;
        into.extend_from_slice(letters(tokens, *name))?;
    }
    Ok(())
}

// A path: its names, joined by dots.
fn dotted_path(alloc: Global, tokens: &Tokens<'_>, names: &[Token]) -> Result<Text, NoMemory>
    ensures { IfOk result (λ text.
        text ≡ spec.dotted_path (map (word_of (words_of tokens.now)) names.now)) }
{
    match names.split_first() {
        None => Ok(Text::new(Vec::new(alloc))),
        Some((first, more)) => {
            let mut bytes = Vec::from_slice(alloc, letters(tokens, *first))?;
            put_names(tokens, more, &mut bytes)?;
            Ok(Text::new(bytes))
        }
    }
}

// Each scope of these paths.
fn put_chosen(
    alloc: Global,
    tokens: &Tokens<'_>,
    levels: u64,
    paths: &[Path],
    into: &mut Vec<Chosen>,
) -> Result<(), NoMemory>
    ensures { OnOk result (into.new.items ≡
        into.old.items ++ all_chosen (words_of tokens.now) levels paths.now) }
{
    for path in paths {
        let path = dotted_path(alloc, tokens, &path.names)?;
        into.push(Chosen { path, levels })?;
    }
    Ok(())
}

// So many levels of the scopes of these paths, or without a path of the top.
fn chosen_by(
    alloc: Global,
    tokens: &Tokens<'_>,
    top: &[u8],
    levels: u64,
    paths: &[Path],
) -> Result<Selection, NoMemory>
    ensures { IfOk result (λ selection. selection ≡
        spec.chosen_by top.now levels (map (path_tree (words_of tokens.now)) paths.now)) }
{
    let mut list = Vec::new(alloc);
    if paths.len() == 0 {
        let path = Text::new(Vec::from_slice(alloc, top)?);
        list.push(Chosen { path, levels })?;
    } else {
        put_chosen(alloc, tokens, levels, paths, &mut list)?;
    }
    Ok(Selection::new(list))
}

/// The token of the number of levels, where there is one.
pub fn levels_of(selection: &Option<Written>) -> Option<u32>
    ensures { (words : List TextLetters) → result ≡ number_in
        (option_map (λ s. s.levels) (option_map (selection_tree words) selection.now)) }
{
    match selection {
        None => None,
        Some(selection) => Some(selection.levels.number),
    }
}

/// What a `$dumpvars` selects. E310 where the number of levels has an unknown bit.
pub fn selection_of(
    alloc: Global,
    scope: &Scope<'_, '_>,
    tokens: &Tokens<'_>,
    selection: &Option<Written>,
) -> Result<Selection, OrMemory<ElabFault>>
    ensures gives { Gives result (spec.lower_selection scope.now
        (option_map (selection_tree (words_of tokens.now)) selection.now)) }
{
    match selection {
        None => Ok(Selection::everything(alloc)),
        Some(selection) => match constant_of(letters(tokens, selection.levels))
            .value
            .to_u64()
        {
            None => Err(refusal(Rule::Kind, Some(selection.levels.number))),
            Some(levels) => {
                let list = chosen_by(alloc, tokens, scope.top, levels, &selection.paths)?;
                Ok(list)
            }
        },
    }
}
