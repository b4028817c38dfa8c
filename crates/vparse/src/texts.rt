// Whole texts (IEEE 1364-2005, A.1.2).

ghost use Rattle.std.specs.Prelude.{◌≡◌, slice_get, IfOk};
ghost use Rattle.basis.specs.Reasons.{IfFault};
ghost use Rattle.vast.specs.Leaves.{module_leaves, statement_leaves, text_leaves};
ghost use Rattle.vast.specs.TokenTexts.{leaves_from};
ghost use Rattle.vast.specs.StatementTrees.{statement_tree};
ghost use Rattle.vast.specs.ModuleTrees.{module_tree, source_tree};
ghost use Rattle.vast.specs.Modules.{DerivesText};
ghost use Rattle.vexpr_parse.specs.Readers.{front, stop};
ghost use Rattle.vexpr_parse.specs.Answers.{Keeps, ahead};
ghost use Rattle.vexpr_parse.specs.Texts.{words_of};
ghost use Rattle.vstatement_parse.specs.Gives.{Gives, KeepsStatements, ReadsStatements};
ghost use Rattle.vparse.specs.ModuleGives.{KeepsAllAhead, all_of};
ghost use Rattle.vparse.specs.Profile.{is_any_outside};
ghost use Rattle.vparse.specs.Refusals.{HasNoText, IsOnlyText, IsRefusal};
ghost use Rattle.vgrammar.specs.Modules.{is_some_word};
ghost use Rattle.vgrammar.specs.Statements as statements;
ghost use Rattle.vparse.specs.TextReaders.{source};

use crate::fault::SyntaxFault;
use crate::module_trees::module_tree;
use crate::profile::is_outside;
use crate::types::LEVELS;
use basis::OrMemory;
use std::alloc::Global;
use vast::module::{ModuleTree, TextTree};
use vast::statement::Statement;
use vexpr_parse::{Cursor, Stop};
use vlex::Tokens;
use vstatement_parse::statement;

// Whether a word is left.
fn is_left(tokens: &Tokens<'_>, cursor: &Cursor) -> bool
    ensures { result ≡ is_some_word (front (ahead tokens.now cursor.now)) }
{
    match cursor.word(tokens) {
        None => false,
        Some(_word) => true,
    }
}

// The modules of a text, to its end, where this reads statements.
#[tactic(auto, using(crate::proofs::ItemTurns::source_is, crate::proofs::ItemTurns::modules_stopped, crate::proofs::ItemTurns::modules_ended))]
fn source<F: Fn(&mut Cursor) -> Result<Statement, OrMemory<Stop>>>(
    alloc: Global,
    read: &F,
    tokens: &Tokens<'_>,
    cursor: &mut Cursor,
) -> Result<Vec<ModuleTree>, OrMemory<Stop>>
    requires callable { F.IsAlwaysCallable read.now }
    requires reads { ReadsStatements tokens.now 64 (F.post read.now) }
    requires keeps { KeepsStatements tokens.now (F.post read.now) }
    ensures gives { Gives (all_of module_tree) source tokens.now cursor.old cursor.new result }
    ensures kept { IfOk result (KeepsAllAhead module_leaves tokens.now cursor.old) }
{
    let mut modules: Vec<ModuleTree> = Vec::new(alloc);
    'modules: while is_left(tokens, cursor) {
        let one = module_tree(alloc, read, tokens, cursor)?;
        modules.push(one)?;
    }
    Ok(modules)
}

/// Whether the word of the token of this number, from 0, stands outside the profile; false behind the last token.
pub fn stands_outside(tokens: &Tokens<'_>, at: usize) -> bool
    ensures { result ≡ is_any_outside (slice_get (words_of tokens.now) at) }
{
    if at < tokens.len() {
        is_outside(tokens.text(at))
    } else {
        false
    }
}

// What is wrong at the word where reading stopped.
fn fault(tokens: &Tokens<'_>, cursor: &Cursor, why: Stop) -> SyntaxFault
    requires { source (words_of tokens.now) ≡ stop why (ahead tokens.now cursor.now) }
    ensures { IsRefusal tokens.now result }
{
    let at = tokens.len().saturating_sub(cursor.left(tokens));
    let place = tokens.place(at);
    match why {
        Stop::TooDeep => SyntaxFault::TooDeep { place },
        Stop::NoTree => {
            if stands_outside(tokens, at) {
                SyntaxFault::Outside { place }
            } else {
                SyntaxFault::NoTree { place }
            }
        }
    }
}

// The tree of the tokens, where this reads statements.
#[tactic(auto, using(crate::proofs::RefusalLaws::text_none, crate::proofs::RefusalLaws::text_stopped))]
fn text<F: Fn(&mut Cursor) -> Result<Statement, OrMemory<Stop>>>(
    alloc: Global,
    read: &F,
    tokens: &Tokens<'_>,
) -> Result<TextTree, OrMemory<SyntaxFault>>
    requires callable { F.IsAlwaysCallable read.now }
    requires reads { ReadsStatements tokens.now 64 (F.post read.now) }
    requires keeps { KeepsStatements tokens.now (F.post read.now) }
    ensures derives { IfOk result (λ text. DerivesText (words_of tokens.now)
        (source_tree (words_of tokens.now) text)) }
    ensures only { IfOk result (λ text. IsOnlyText (words_of tokens.now)
        (source_tree (words_of tokens.now) text)) }
    ensures leaves { IfOk result (λ text. text_leaves text ≡ leaves_from 0 (words_of tokens.now)) }
    ensures none { IfFault result (λ fault. HasNoText (words_of tokens.now)) }
    ensures reason { IfFault result (λ fault. IsRefusal tokens.now fault) }
{
    let mut cursor = Cursor::start();
    match source(alloc, read, tokens, &mut cursor) {
        Ok(modules) => Ok(TextTree { modules }),
        Err(OrMemory::Fault(why)) => Err(OrMemory::Fault(fault(tokens, &cursor, why))),
        Err(OrMemory::Memory(refused)) => Err(OrMemory::Memory(refused)),
    }
}

/// The tree of the tokens: the one that derives their words (IEEE 1364-2005, annex A; docs/LANGUAGE.md, "Grammar"). The
/// first token whose word can't follow those before it, or the text's end, decides of the fault: E203 where it could with
/// more than 64 levels, else E202 where the word stands outside the profile, and E201 where it doesn't. E901 where a
/// growth was refused. The tree keeps the text's names, numbers, strings and each `$time`, each by its own number, in the
/// order of the text.
pub fn parse(alloc: Global, tokens: &Tokens<'_>) -> Result<TextTree, OrMemory<SyntaxFault>>
    ensures derives { IfOk result (λ text. DerivesText (words_of tokens.now)
        (source_tree (words_of tokens.now) text)) }
    ensures only { IfOk result (λ text. IsOnlyText (words_of tokens.now)
        (source_tree (words_of tokens.now) text)) }
    ensures leaves { IfOk result (λ text. text_leaves text ≡ leaves_from 0 (words_of tokens.now)) }
    ensures none { IfFault result (λ fault. HasNoText (words_of tokens.now)) }
    ensures reason { IfFault result (λ fault. IsRefusal tokens.now fault) }
{
    text(
        alloc,
        &|cursor|
            ensures gives { Gives statement_tree (statements.statement 64)
                tokens.entry.now cursor.entry.now cursor.exit.now result }
            ensures kept { IfOk result (Keeps statement_leaves
                tokens.entry.now cursor.entry.now cursor.exit.now) }
        { statement(alloc, tokens, cursor, LEVELS) },
        tokens,
    )
}
