// A design's code.

ghost use Rattle.std.specs.Prelude.{◌≡◌, ◌≤◌, length, IfOk};
ghost use Rattle.vcompile.specs.CodeOf as spec;
ghost use Rattle.vcompile.specs.Links.{links_of as links_of_design};

use crate::counters::counters_of;
use crate::links::{MOST, begins_of, links_of};
use crate::listening::{events_in, lists_of};
use crate::operands::operands_of;
use crate::whole::is_whole;
use basis::NoMemory;
use std::alloc::Global;
use vcode::code::Code;
use vdesign::design::Design;

// That of a design with too many places.
fn no_code(alloc: Global) -> Code
    ensures { result ≡ spec.no_code }
{
    Code {
        links: Vec::new(alloc),
        counters: Vec::new(alloc),
        operands: Vec::new(alloc),
        begins: Vec::new(alloc),
        by_variable: Vec::new(alloc),
        by_event: Vec::new(alloc),
        whole: false,
    }
}

// That of a design with few enough.
#[tactic(auto, using(crate::proofs::LinkLemmas::few_begins))]
fn code_by(alloc: Global, design: &Design) -> Result<Code, NoMemory>
    requires { length design.now.actions ≤ 4294967295 }
    ensures code { IfOk result (λ code. code ≡ spec.code_by design.now (links_of_design design.now)) }
    ensures few { IfOk result (λ code. length code.begins ≤ 256) }
{
    let links = links_of(alloc, design)?;
    let lists = lists_of(alloc, design, &links)?;
    let whole = is_whole(design, &links, events_in(&design.actions));
    Ok(Code {
        counters: counters_of(alloc, &design.actions)?,
        operands: operands_of(alloc, &design.variables, &design.actions)?,
        begins: begins_of(alloc, &design.processes)?,
        by_variable: lists.by_variable,
        by_event: lists.by_event,
        links,
        whole,
    })
}

/// The code of a design; as few processes begin there as a design may have. E901 is the only refusal.
#[tactic(auto, unfolding(crate::specs::CodeOf::code_of))]
pub fn compile(alloc: Global, design: &Design) -> Result<Code, NoMemory>
    ensures code { IfOk result (λ code. code ≡ spec.code_of design.now) }
    ensures few { IfOk result (λ code. length code.begins ≤ 256) }
{
    if design.actions.len() <= MOST {
        code_by(alloc, design)
    } else {
        Ok(no_code(alloc))
    }
}
