// Modules (IEEE 1364-2005, 12.1).

ghost use Rattle.std.specs.Prelude.{◌≡◌, codes, not, IfOk};
ghost use Rattle.vast.specs.Leaves.{item_leaves, module_leaves};
ghost use Rattle.vast.specs.ModuleTrees.{item_tree, module_tree};
ghost use Rattle.vexpr_parse.specs.Readers.{front, is_front};
ghost use Rattle.vexpr_parse.specs.Answers.{Keeps, KeepsBehind, ahead};
ghost use Rattle.vstatement_parse.specs.Gives.{Gives, KeepsStatements, ReadsStatements};
ghost use Rattle.vparse.specs.ModuleGives.{all_items, all_leaves, all_of, leaves_headed, leaves_with, module_body, GivesHeaded, GivesWith};
ghost use Rattle.vparse.specs.TextReaders as reading;

use crate::heads::optional_heads;
use crate::module_items::item;
use crate::ports::optional_ports;
use basis::OrMemory;
use std::alloc::Global;
use vast::module::{HeadParameter, ModuleItem, ModuleTree, Port};
use vast::statement::Statement;
use vast::token::Token;
use vexpr_parse::{Cursor, Stop};
use vlex::Tokens;
use vstatement_parse::words::name_word;

// Whether the module goes on here.
fn goes_on(tokens: &Tokens<'_>, cursor: &Cursor) -> bool
    ensures { result ≡ not (is_front (codes "endmodule") (front (ahead tokens.now cursor.now))) }
{
    !cursor.begins(tokens, b"endmodule")
}

// Items, up to `endmodule`.
#[tactic(auto, using(crate::proofs::ItemTurns::items_stopped, crate::proofs::ItemTurns::items_ended))]
fn all_items<F: Fn(&mut Cursor) -> Result<Statement, OrMemory<Stop>>>(
    alloc: Global,
    read: &F,
    tokens: &Tokens<'_>,
    cursor: &mut Cursor,
) -> Result<Vec<ModuleItem>, OrMemory<Stop>>
    requires callable { F.IsAlwaysCallable read.now }
    requires reads { ReadsStatements tokens.now 64 (F.post read.now) }
    requires keeps { KeepsStatements tokens.now (F.post read.now) }
    ensures gives { Gives (all_of item_tree) all_items tokens.now cursor.old cursor.new result }
    ensures kept { IfOk result (Keeps (all_leaves item_leaves) tokens.now cursor.old cursor.new) }
{
    let mut items: Vec<ModuleItem> = Vec::new(alloc);
    'items: while goes_on(tokens, cursor) {
        let one = item(alloc, read, tokens, cursor)?;
        items.push(one)?;
    }
    Ok(items)
}

// Items and `endmodule`, behind a semicolon.
#[tactic(auto, using(crate::proofs::ListTurns::past_not, crate::proofs::PlainWords::endmodule_plain))]
fn module_body<F: Fn(&mut Cursor) -> Result<Statement, OrMemory<Stop>>>(
    alloc: Global,
    read: &F,
    tokens: &Tokens<'_>,
    cursor: &mut Cursor,
) -> Result<Vec<ModuleItem>, OrMemory<Stop>>
    requires callable { F.IsAlwaysCallable read.now }
    requires reads { ReadsStatements tokens.now 64 (F.post read.now) }
    requires keeps { KeepsStatements tokens.now (F.post read.now) }
    ensures gives { Gives (all_of item_tree) module_body tokens.now cursor.old cursor.new result }
    ensures kept { IfOk result (Keeps (all_leaves item_leaves) tokens.now cursor.old cursor.new) }
{
    cursor.symbol(tokens, b";")?;
    let items = all_items(alloc, read, tokens, cursor)?;
    cursor.symbol(tokens, b"endmodule")?;
    Ok(items)
}

// Behind the ports.
fn module_with<F: Fn(&mut Cursor) -> Result<Statement, OrMemory<Stop>>>(
    alloc: Global,
    read: &F,
    tokens: &Tokens<'_>,
    cursor: &mut Cursor,
    name: Token,
    parameters: Option<Vec<HeadParameter>>,
    ports: Option<Vec<Port>>,
) -> Result<ModuleTree, OrMemory<Stop>>
    requires callable { F.IsAlwaysCallable read.now }
    requires reads { ReadsStatements tokens.now 64 (F.post read.now) }
    requires keeps { KeepsStatements tokens.now (F.post read.now) }
    ensures gives { GivesWith name parameters ports
        tokens.now cursor.old cursor.new result }
    ensures kept { IfOk result (KeepsBehind (leaves_with name parameters ports) module_leaves
        tokens.now cursor.old cursor.new) }
{
    let items = module_body(alloc, read, tokens, cursor)?;
    Ok(ModuleTree {
        name,
        parameters,
        ports,
        items,
    })
}

// Behind the parameters.
fn module_after_parameters<F: Fn(&mut Cursor) -> Result<Statement, OrMemory<Stop>>>(
    alloc: Global,
    read: &F,
    tokens: &Tokens<'_>,
    cursor: &mut Cursor,
    name: Token,
    parameters: Option<Vec<HeadParameter>>,
) -> Result<ModuleTree, OrMemory<Stop>>
    requires callable { F.IsAlwaysCallable read.now }
    requires reads { ReadsStatements tokens.now 64 (F.post read.now) }
    requires keeps { KeepsStatements tokens.now (F.post read.now) }
    ensures gives { GivesHeaded name parameters
        tokens.now cursor.old cursor.new result }
    ensures kept { IfOk result (KeepsBehind (leaves_headed name parameters) module_leaves
        tokens.now cursor.old cursor.new) }
{
    let ports = optional_ports(alloc, tokens, cursor)?;
    module_with(alloc, read, tokens, cursor, name, parameters, ports)
}

/// A module, where this reads statements.
#[tactic(auto, using(crate::proofs::ModuleForms::module_is, crate::proofs::PlainWords::module_plain))]
pub fn module_tree<F: Fn(&mut Cursor) -> Result<Statement, OrMemory<Stop>>>(
    alloc: Global,
    read: &F,
    tokens: &Tokens<'_>,
    cursor: &mut Cursor,
) -> Result<ModuleTree, OrMemory<Stop>>
    requires callable { F.IsAlwaysCallable read.now }
    requires reads { ReadsStatements tokens.now 64 (F.post read.now) }
    requires keeps { KeepsStatements tokens.now (F.post read.now) }
    ensures gives { Gives module_tree reading.module_tree tokens.now cursor.old cursor.new result }
    ensures kept { IfOk result (Keeps module_leaves tokens.now cursor.old cursor.new) }
{
    cursor.symbol(tokens, b"module")?;
    let name = name_word(tokens, cursor)?;
    let parameters = optional_heads(alloc, tokens, cursor)?;
    module_after_parameters(alloc, read, tokens, cursor, name, parameters)
}
