// From the bytes of the files to the design that they stand for.

ghost use Rattle.std.specs.Prelude.{◌≡◌, ◌≤◌, ℕ, nat_lt, List, Option, IfOk, OnOk, IfErr, map, option_map, option_and_then, true, false, None, Some, Ok, Err};
ghost use Rattle.vsrc.specs.Source.{Source, file_bytes};
ghost use Rattle.vsrc.specs.Expansion.{are_timed, expansion, expanded_text, expanded_timescale};
ghost use Rattle.vlex.specs.Lexed.{HasNoTokens, IsTokenReason};
ghost use Rattle.vlex.specs.Tokenized.{Tokenized};
ghost use Rattle.vast.specs.NumberedModules.{SourceTree};
ghost use Rattle.vast.specs.NumberedTrees.{source_tree};
ghost use Rattle.vexpr_parse.specs.Texts.{words_of};
ghost use Rattle.vparse.specs.Refusals.{HasNoText, IsRefusal};
ghost use Rattle.vhierarchy.specs.Instances.{Elaborates};
ghost use Rattle.vmodules.specs.Inner.{named_text, unit_names};
ghost use Rattle.vmodules.specs.Names.{first_again};
ghost use Rattle.action_origins.specs.Origins.{design_origins};
ghost use Rattle.vrace.specs.ActionPlaces.{ArePlaced, ArePlacedInFiles};
ghost use Rattle.vhierarchy.specs.Reasons.{IsDesignReason, HasNoDesign};
ghost use Rattle.vrace.specs.Replays.{limit, total, AreRead, IsDesignOf, IsDesignOfFiles};
ghost use Rattle.vrace.specs.Unique.{IsCut, IsReadAs};
ghost use Rattle.vrace.specs.Refusals.{word_place, IsFileReason, IsTextReason, IsDesignFault};

use crate::fault::{At, Fault};
use crate::read::LIMIT;
use action_origins::origins_of;
use basis::{NoMemory, OrMemory, Timescale};
use std::alloc::Global;
use trace_text::Origins;
use vast::module::TextTree;
use vdesign::design::Design;
use velab_expr::ElabFault;
use vhierarchy::elaborate;
use vlex::{LexFault, Tokens, tokens};
use vparse::{SyntaxFault, parse};
use vsrc::{Expanded, Place, SrcFault, expand};

// The place that a fault was found at.
fn at(place: Place) -> At
    ensures { result ≡ record { 0 = Some place } }
{
    At(Some(place))
}

// The place of the token of this number, if there is one.
fn place_of(tokens: &Tokens<'_>, number: usize) -> Option<Place>
    ensures { result ≡ word_place tokens.now number }
{
    if number <= tokens.len() {
        Some(tokens.place(number))
    } else {
        None
    }
}

// The place of the token of this number, if a number is known.
fn at_token(tokens: &Tokens<'_>, number: Option<u32>) -> At
    ensures { result ≡ record { 0 = option_and_then (word_place tokens.now) number } }
{
    match number {
        None => At(None),
        Some(number) => At(place_of(tokens, number as usize)),
    }
}

/// The most words of a text.
const MOST_WORDS: usize = 4_194_304;

/// A design, where the statement of each of its actions begins, and whether a timescale stands in its files.
#[derive(Drop)]
pub struct Placed {
    pub design: Design,
    pub origins: Origins,
    pub timed: bool,
}

// The places of the tokens of these numbers.
fn places_of(alloc: Global, tokens: &Tokens<'_>, numbers: &[usize]) -> Result<Origins, NoMemory>
    ensures { IfOk result (λ places. places ≡ map (word_place tokens.now) numbers.now) }
{
    let mut places = Vec::new(alloc);
    for number in numbers {
        places.push(place_of(tokens, *number))?;
    }
    Ok(Origins::new(places))
}

// Where the statements of the design of a tree begin.
fn origins_of_tree(
    alloc: Global,
    tokens: &Tokens<'_>,
    tree: &TextTree,
    top: Option<&[u8]>,
) -> Result<Origins, NoMemory>
    requires once { first_again (unit_names (words_of tokens.now) tree.now.modules.items) ≡ None }
    ensures { IfOk result (λ places. places ≡ map (word_place tokens.now) (design_origins
        (words_of tokens.now) (source_tree (words_of tokens.now) tree.now) (named_text top.entry))) }
{
    let numbers = origins_of(alloc, tokens, tree, top)?;
    places_of(alloc, tokens, &numbers)
}

// The same of the design of the text, or want of memory.
fn placed_origins(
    alloc: Global,
    tokens: &Tokens<'_>,
    tree: &TextTree,
    top: Option<&[u8]>,
) -> Result<Origins, Fault>
    requires once { first_again (unit_names (words_of tokens.now) tree.now.modules.items) ≡ None }
    ensures placed { (source : Source) → IsCut source tokens.now →
        IsReadAs source.text (source_tree (words_of tokens.now) tree.now) →
        IfOk result (ArePlaced source (named_text top.entry)) }
    ensures err { (source : Source) (top : Option (List ℕ)) →
        IfErr result (IsTextReason source top) }
{
    match origins_of_tree(alloc, tokens, tree, top) {
        Ok(origins) => Ok(origins),
        Err(refused) => Err(Fault::Memory(refused)),
    }
}

// What stops the expansion of the files.
fn of_source(fault: SrcFault) -> Fault
    ensures { (files : List (List ℕ)) → total files ≤ limit → expansion files ≡ Err fault →
        IsFileReason files result }
{
    match fault {
        SrcFault::Directive { place } => Fault::Directive(at(place)),
        SrcFault::NoMacro { place } => Fault::NoMacro(at(place)),
        SrcFault::Growth { place } => Fault::TooLarge(at(place)),
        SrcFault::LeftOpen { place } => Fault::LeftOpen(at(place)),
        SrcFault::Timescales { place } => Fault::Timescales(at(place)),
    }
}

// What stops the cut into tokens.
fn of_tokens(fault: LexFault) -> Fault
    ensures { (source : Source) (top : Option (List ℕ)) → HasNoTokens source.text →
        IsTokenReason source fault → IsTextReason source top result }
{
    match fault {
        LexFault::NotEnded { place } => Fault::NotEnded(at(place)),
        LexFault::BadToken { place } => Fault::BadToken(at(place)),
    }
}

// What stops the reading of the tokens.
fn of_tree(fault: SyntaxFault) -> Fault
    ensures { (source : Source) (tokens : Tokenized) (top : Option (List ℕ)) →
        IsCut source tokens → HasNoText (words_of tokens) → IsRefusal tokens fault →
        IsTextReason source top result }
{
    match fault {
        SyntaxFault::NoTree { place } => Fault::NoTree(at(place)),
        SyntaxFault::Outside { place } => Fault::Outside(at(place)),
        SyntaxFault::TooDeep { place } => Fault::TooDeep(at(place)),
    }
}

// What stops the elaboration of the tree.
fn of_design(tokens: &Tokens<'_>, fault: ElabFault) -> Fault
    ensures { (source : Source) (tree : SourceTree) (top : Option (List ℕ)) →
        IsCut source tokens.now → IsReadAs source.text tree → IsDesignReason tree top fault →
        HasNoDesign tree top → IsTextReason source top result }
{
    Fault::NoDesign(fault.rule, at_token(tokens, fault.at))
}

// The text of the files.
fn text_of(alloc: Global, files: &[Vec<u8>]) -> Result<Expanded, Fault>
    requires { total (file_bytes files.now) ≤ limit }
    ensures ok { IfOk result (λ expanded. expansion (file_bytes files.now) ≡ Ok expanded) }
    ensures read { OnOk result (AreRead (file_bytes files.now)) }
    ensures err { IfErr result (λ fault. IsFileReason (file_bytes files.now) fault) }
{
    match expand(alloc, files) {
        Ok(expanded) => Ok(expanded),
        Err(OrMemory::Fault(fault)) => Err(of_source(fault)),
        Err(OrMemory::Memory(refused)) => Err(Fault::Memory(refused)),
    }
}

// The tokens of the text.
fn tokens_of<'a>(alloc: Global, text: &'a Expanded) -> Result<Tokens<'a>, Fault>
    ensures ok { IfOk result (IsCut text.now) }
    ensures err { (top : Option (List ℕ)) → IfErr result (IsTextReason text.now top) }
{
    match tokens(alloc, text) {
        Ok(tokens) => Ok(tokens),
        Err(OrMemory::Fault(fault)) => Err(of_tokens(fault)),
        Err(OrMemory::Memory(refused)) => Err(Fault::Memory(refused)),
    }
}

// The tree of the tokens. E112 where there are too many.
fn tree_of(alloc: Global, tokens: &Tokens<'_>) -> Result<TextTree, Fault>
    ensures ok { (source : Source) → IsCut source tokens.now →
        IfOk result (λ tree. IsReadAs source.text (source_tree (words_of tokens.now) tree)) }
    ensures err { (source : Source) (top : Option (List ℕ)) → IsCut source tokens.now →
        IfErr result (IsTextReason source top) }
{
    if tokens.len() > MOST_WORDS {
        return Err(Fault::TooLarge(at(tokens.place(MOST_WORDS))));
    }
    match parse(alloc, tokens) {
        Ok(tree) => Ok(tree),
        Err(OrMemory::Fault(fault)) => Err(of_tree(fault)),
        Err(OrMemory::Memory(refused)) => Err(Fault::Memory(refused)),
    }
}

// The design of the tree.
fn design_of_tree(
    alloc: Global,
    tokens: &Tokens<'_>,
    tree: &TextTree,
    top: Option<&[u8]>,
    scale: Timescale,
) -> Result<Design, Fault>
    ensures ok { IfOk result
        (Elaborates (source_tree (words_of tokens.now) tree.now) (named_text top.entry) scale) }
    ensures err { (source : Source) → IsCut source tokens.now →
        IsReadAs source.text (source_tree (words_of tokens.now) tree.now) →
        IfErr result (IsTextReason source (named_text top.entry)) }
{
    match elaborate(alloc, tokens, tree, top, scale) {
        Ok(design) => Ok(design),
        Err(OrMemory::Fault(fault)) => Err(of_design(tokens, fault)),
        Err(OrMemory::Memory(refused)) => Err(Fault::Memory(refused)),
    }
}

// The design of the text.
fn design_of_text(alloc: Global, text: &Expanded, top: Option<&[u8]>) -> Result<Placed, Fault>
    ensures ok { IfOk result (λ placed.
        IsDesignOf text.now.text text.now.timescale (named_text top.entry) placed.design) }
    ensures placed { IfOk result (λ placed.
        ArePlaced text.now (named_text top.entry) placed.origins) }
    ensures timed { IfOk result (λ placed. placed.timed ≡ text.now.timed) }
    ensures err { IfErr result (IsTextReason text.now (named_text top.entry)) }
{
    let tokens = tokens_of(alloc, text)?;
    let tree = tree_of(alloc, &tokens)?;
    let design = design_of_tree(alloc, &tokens, &tree, top, text.timescale())?;
    let origins = placed_origins(alloc, &tokens, &tree, top)?;
    let timed = text.is_timed();
    Ok(Placed {
        design,
        origins,
        timed,
    })
}

/// The design of the top module in the files, with the places of its statements. E904 where the
/// files together are longer than 16,777,216 bytes; E110 to E114 where their directives and macros have such a fault; E101,
/// E102, E2xx and E3xx only where the text that they make has no tokens, no tree, or no design; E112 also where it has more than 4,194,304
/// words; E901.
pub fn placed_design_of(
    alloc: Global,
    files: &[Vec<u8>],
    top: Option<&[u8]>,
) -> Result<Placed, Fault>
    ensures read { OnOk result (AreRead (file_bytes files.now)) }
    ensures ok { IfOk result (λ placed.
        IsDesignOfFiles (file_bytes files.now) (named_text top.entry) placed.design) }
    ensures placed { IfOk result (λ placed.
        ArePlacedInFiles (file_bytes files.now) (named_text top.entry) placed.origins) }
    ensures timed { IfOk result (λ placed. placed.timed ≡ are_timed (file_bytes files.now)) }
    ensures err { IfErr result (λ fault.
        IsDesignFault (file_bytes files.now) (named_text top.entry) fault) }
{
    if is_too_long(files) {
        return Err(Fault::TooLong);
    }
    let text = text_of(alloc, files)?;
    design_of_text(alloc, &text, top)
}

/// The same design, where nobody asks for places.
pub fn design_of(alloc: Global, files: &[Vec<u8>], top: Option<&[u8]>) -> Result<Design, Fault>
    ensures read { OnOk result (AreRead (file_bytes files.now)) }
    ensures ok { IfOk result (λ design.
        IsDesignOfFiles (file_bytes files.now) (named_text top.entry) design) }
    ensures err { IfErr result (λ fault.
        IsDesignFault (file_bytes files.now) (named_text top.entry) fault) }
{
    Ok(placed_design_of(alloc, files, top)?.design)
}

// Whether the files together are too long.
fn is_too_long(files: &[Vec<u8>]) -> bool
    ensures { result ≡ nat_lt limit (total (file_bytes files.now)) }
{
    let mut room = LIMIT;
    for file in files {
        if file.len() > room {
            return true;
        }
        room -= file.len();
    }
    false
}
