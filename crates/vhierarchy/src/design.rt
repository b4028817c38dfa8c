// The design of a text.

ghost use Rattle.std.specs.Prelude.{◌≡◌, ◌≤◌, [], false, List, Option, None, Some, length, IfOk, OnOk};
ghost use Rattle.basis.specs.Reasons.{IfFault};
ghost use Rattle.vdesign.specs.Design.{Design};
ghost use Rattle.vast.specs.NumberedTrees.{source_tree, module_tree};
ghost use Rattle.vast.specs.NumberedWords.{word_of};
ghost use Rattle.vwords.specs.Words.{Text};
ghost use Rattle.vexpr_parse.specs.Texts.{words_of};
ghost use Rattle.vmodules.specs.Names.{first_again, has_double};
ghost use Rattle.vmodules.specs.Inner.{unit_names, units_tree, named_text};
ghost use Rattle.velab_declaration.specs.Inner.{DoublesIn};
ghost use Rattle.velab_expr.specs.Rules.{broken_if, IsBroken};
ghost use Rattle.velab_expr.specs.Answers.{Gives};
ghost use Rattle.vhierarchy.specs.Instances as spec;
ghost use Rattle.vhierarchy.specs.Instances.{Elaborates, as_design, broken_paths, broken_ports, broken_table, check, elaborate_top, top_whole, whole_of};
ghost use Rattle.vhierarchy.specs.Reasons.{IsDesignReason, IsOnlyDesign, HasNoDesign};
ghost use Rattle.vhierarchy.specs.Inner.{named_design, scope_names, starts_in, variable_names, with_starts};

use crate::context::Context;
use crate::grow::put_unit;
use crate::own::MOST_PROCESSES;
use crate::part::PartialDesign;
use crate::select::check_selections;
use basis::{NoMemory, OrMemory, Timescale};
use std::alloc::Global;
use vast::module::{ModuleTree, TextTree};
use vast::token::Token;
use vbits::Vec4;
use vdesign::design::{Design, Scope as Room, Variable};
use velab_declaration::drives::starts_of;
use velab_declaration::names::note;
use velab_declaration::parameter::Overrides;
use velab_declaration::right::check_kinds;
use velab_declaration::width::check_flaws;
use velab_expr::fault::{ElabFault, Rule};
use velab_expr::refusal::refusal;
use velab_expr::scope::Scope;
use velab_process::statement::Table;
use vlex::Tokens;
use vmodules::connect::ConnectionMap;
use vmodules::hierarchy::{Modules, modules_of, rival_of, top_of};
use vmodules::letters::letters;
use vmodules::misdeclared::{PortFlaw, check_names};
use vmodules::names::Names;

// The most levels of instances, the top among them.
fn most_levels() -> u32
    ensures { result ≡ 16 }
{
    16
}

// The top and all below it.
fn whole_part<'t, 'u>(
    alloc: Global,
    modules: &Modules<'t, 'u>,
    unit: &'u ModuleTree,
) -> Result<PartialDesign, OrMemory<ElabFault>>
    ensures { Gives result (elaborate_top (units_tree modules.now)
        (module_tree modules.now.words unit.now)) }
{
    let name = letters(modules.tokens(), unit.name);
    let names = Names::new(alloc);
    let connections = ConnectionMap::new(alloc);
    let overrides = Overrides {
        scope: Scope {
            top: b"",
            names: &names,
            first: 0,
            variables: 0,
            events: 0,
            others: &[],
            known: 0,
        },
        values: &connections,
    };
    let context = Context {
        top: name,
        path: name,
        name: unit.name,
        depth: 0,
        unit,
        overrides: &overrides,
        connections: &connections,
    };
    let mut part = PartialDesign::new(alloc);
    put_unit(alloc, modules, most_levels(), &context, &mut part)?;
    Ok(part)
}

// The paths of variables. E302 where two are alike.
fn paths_of<'p>(
    alloc: Global,
    variables: &'p [Variable],
    top: Token,
) -> Result<Names<'p>, OrMemory<ElabFault>>
    ensures ok { IfOk result (λ names. names ≡ variable_names variables.now) }
    ensures once { OnOk result (has_double (variable_names variables.now) ≡ false) }
    ensures err { (words : List Text) → IfFault result (IsBroken (broken_if
        (has_double (variable_names variables.now)) Rule.Doubled (Some (word_of words top)))) }
{
    let mut names = Names::new(alloc);
    for variable in variables {
        note(&mut names, &variable.name, top.number)?;
    }
    let _count = names.len();
    Ok(names)
}

// The paths of scopes. E302 where two are alike.
fn scopes_of<'p>(
    alloc: Global,
    scopes: &'p [Room],
    top: Token,
) -> Result<Names<'p>, OrMemory<ElabFault>>
    ensures ok { IfOk result (λ names. names ≡ scope_names scopes.now) }
    ensures once { OnOk result (has_double (scope_names scopes.now) ≡ false) }
    ensures err { (words : List Text) → IfFault result (IsBroken (broken_if
        (has_double (scope_names scopes.now)) Rule.Doubled (Some (word_of words top)))) }
{
    let mut names = Names::new(alloc);
    for scope in scopes {
        note(&mut names, &scope.path, top.number)?;
    }
    let _count = names.len();
    Ok(names)
}

// What the paths of a part break. E302 where two are alike, E303 or E310 where what is dumped is no scope.
fn check_paths(alloc: Global, part: &PartialDesign, top: Token) -> Result<(), OrMemory<ElabFault>>
    ensures right { (words : List Text) →
        OnOk result (broken_paths (word_of words top) part.now ≡ None) }
    ensures err { (words : List Text) →
        IfFault result (IsBroken (broken_paths (word_of words top) part.now)) }
{
    let variables = paths_of(alloc, &part.variables, top)?;
    let scopes = scopes_of(alloc, &part.scopes, top)?;
    let table = &part.table;
    check_selections(&scopes, &variables, &table.actions, &table.words)
}

// What each variable is before anything is written. E309 where the part has too many processes, E306 or E310 where an action is wrong,
// E304 where two drive one bit.
fn check_table(
    alloc: Global,
    part: &PartialDesign,
    top: Token,
) -> Result<Vec<Vec4>, OrMemory<ElabFault>>
    ensures starts { IfOk result (λ starts. starts.items ≡ starts_in part.now) }
    ensures right { (words : List Text) →
        OnOk result (broken_table (word_of words top) part.now ≡ None) }
    ensures err { (words : List Text) →
        IfFault result (IsBroken (broken_table (word_of words top) part.now)) }
{
    if part.begins.len() > MOST_PROCESSES {
        return Err(refusal(Rule::TooMany, Some(top.number)));
    }
    let table = &part.table;
    check_kinds(&part.variables, &table.actions, &table.words)?;
    check_flaws(alloc, &part.variables, &table.actions, &table.words)?;
    starts_of(alloc, &part.variables, &table.actions, &table.words)
}

// A variable with what it is before anything is written.
fn begin(variable: &mut Variable, start: Vec4)
    ensures { variable.new ≡ record variable.old { start = start } }
{
    variable.start = start;
}

// Each variable with what it is before anything is written.
fn start_all(variables: &mut [Variable], starts: &[Vec4])
    ensures { variables.new ≡ with_starts variables.old starts.now }
{
    if let Some((variable, more)) = variables.split_first_mut() {
        if let Some((start, others)) = starts.split_first() {
            begin(variable, *start);
            start_all(more, others);
        }
    }
}

// A part as a design.
fn design_by(
    alloc: Global,
    name: &[u8],
    scale: Timescale,
    part: PartialDesign,
    starts: &[Vec4],
) -> Result<Design, NoMemory>
    requires few { length part.begins ≤ 256 }
    requires starts { starts.now ≡ starts_in part }
    ensures { IfOk result (λ design. design ≡ named_design name.now scale part) }
{
    let PartialDesign {
        mut variables,
        scopes,
        table,
        begins,
        ..
    } = part;
    let Table { actions, .. } = table;
    start_all(&mut variables, starts);
    Ok(Design {
        top: Vec::from_slice(alloc, name)?,
        scale,
        variables,
        scopes,
        actions,
        processes: begins,
    })
}

// The design of a part, where it is right. Errors: E302, E303, E304, E306, E309, E310, E901.
fn checked_design(
    alloc: Global,
    tokens: &Tokens<'_>,
    unit: &ModuleTree,
    scale: Timescale,
    part: PartialDesign,
) -> Result<Design, OrMemory<ElabFault>>
    ensures { Gives result
        (as_design scale (check (module_tree (words_of tokens.now) unit.now) part)) }
{
    check_paths(alloc, &part, unit.name)?;
    let starts = check_table(alloc, &part, unit.name)?;
    let design = design_by(alloc, letters(tokens, unit.name), scale, part, &starts)?;
    Ok(design)
}

// The design that a module describes as the top, where it is right.
fn design_of<'t, 'u>(
    alloc: Global,
    modules: &Modules<'t, 'u>,
    unit: &'u ModuleTree,
    scale: Timescale,
) -> Result<Design, OrMemory<ElabFault>>
    ensures { Gives result (as_design scale
        (whole_of (units_tree modules.now) (module_tree modules.now.words unit.now))) }
{
    let part = whole_part(alloc, modules, unit)?;
    checked_design(alloc, modules.tokens(), unit, scale, part)
}

// The modules of a text by name. E302 where two have one name.
fn modules_by<'t, 'u>(
    alloc: Global,
    tokens: &'u Tokens<'t>,
    list: &'u [ModuleTree],
) -> Result<Modules<'t, 'u>, OrMemory<ElabFault>>
    ensures ok { IfOk result (λ modules.
        modules ≡ record { words = words_of tokens.now; list = list.now }) }
    ensures right { OnOk result (first_again (unit_names (words_of tokens.now) list.now) ≡ None) }
    ensures err { IfFault result (DoublesIn [] (unit_names (words_of tokens.now) list.now)) }
{
    match modules_of(alloc, tokens, list) {
        Ok(modules) => Ok(modules),
        Err(OrMemory::Memory(none)) => Err(OrMemory::Memory(none)),
        Err(OrMemory::Fault(doubled)) => Err(refusal(Rule::Doubled, Some(doubled.at))),
    }
}

// The rule that is broken by how an item declares a port.
fn rule_of_port(flaw: PortFlaw) -> Rule
    ensures { result ≡ spec.rule_of_port flaw }
{
    match flaw {
        PortFlaw::Undeclared => Rule::Unknown,
        PortFlaw::Doubled => Rule::Doubled,
        PortFlaw::Input => Rule::Kind,
        PortFlaw::Valued => Rule::Kind,
    }
}

// The ports that items declare, and the names of blocks. E302, E303 or E310 where something is wrong with them.
fn check_declared_ports(alloc: Global, modules: &Modules<'_, '_>) -> Result<(), OrMemory<ElabFault>>
    ensures right { OnOk result (broken_ports (units_tree modules.now) ≡ None) }
    ensures err { IfFault result (IsBroken (broken_ports (units_tree modules.now))) }
{
    match check_names(alloc, modules) {
        Ok(()) => Ok(()),
        Err(OrMemory::Memory(none)) => Err(OrMemory::Memory(none)),
        Err(OrMemory::Fault(wrong)) => Err(refusal(rule_of_port(wrong.flaw), Some(wrong.at))),
    }
}

// What the modules of a text are elaborated to, where nothing is wrong with the ports that items declare and the names of blocks.
fn top_design<'t, 'u>(
    alloc: Global,
    modules: &Modules<'t, 'u>,
    top: Option<&[u8]>,
    scale: Timescale,
) -> Result<Design, OrMemory<ElabFault>>
    ensures { Gives result
        (as_design scale (top_whole (units_tree modules.now) (named_text top.entry))) }
{
    match top_of(alloc, modules, top)? {
        Some(unit) => design_of(alloc, modules, unit, scale),
        None => {
            let at = rival_of(alloc, modules, top)?;
            Err(refusal(Rule::Top, at))
        }
    }
}

// What the text is elaborated to.
fn elaborate_design(
    alloc: Global,
    tokens: &Tokens<'_>,
    text: &TextTree,
    top: Option<&[u8]>,
    scale: Timescale,
) -> Result<Design, OrMemory<ElabFault>>
    ensures { Gives result (spec.elaborated (source_tree (words_of tokens.now) text.now)
        (named_text top.entry) scale) }
{
    let modules = modules_by(alloc, tokens, &text.modules)?;
    check_declared_ports(alloc, &modules)?;
    top_design(alloc, &modules, top, scale)
}

/// The design that the text stands for, under its timescale. `top` names its top module; without it the only module that no module
/// instantiates is the top (12.1.1).
/// Errors: E301 to E310, that of the first rule that is broken (`broken_rule`), and E901. Modules that the top doesn't reach are not looked
/// into.
pub fn elaborate(
    alloc: Global,
    tokens: &Tokens<'_>,
    text: &TextTree,
    top: Option<&[u8]>,
    scale: Timescale,
) -> Result<Design, OrMemory<ElabFault>>
    ensures design { IfOk result (Elaborates (source_tree (words_of tokens.now) text.now)
        (named_text top.entry) scale) }
    ensures only { IfOk result (IsOnlyDesign (source_tree (words_of tokens.now) text.now)
        (named_text top.entry) scale) }
    ensures reason { IfFault result (IsDesignReason (source_tree (words_of tokens.now) text.now)
        (named_text top.entry)) }
    ensures none { IfFault result (λ _. HasNoDesign (source_tree (words_of tokens.now) text.now)
        (named_text top.entry)) }
{
    elaborate_design(alloc, tokens, text, top, scale)
}
