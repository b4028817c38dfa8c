// Instances and all below them, one after another (IEEE 1364-2005, 12.1).

ghost use Rattle.std.specs.Prelude.{◌<◌, ◌≤◌, ◌+◌};
ghost use Rattle.vmodules.specs.Inner.{units_tree};
ghost use Rattle.velab_expr.specs.Answers.{Makes};
ghost use Rattle.vhierarchy.specs.Instances.{elaborate_instance};
ghost use Rattle.vhierarchy.specs.Inner.{context_tree, instance_below, instances_below, instantiation_tree};

use crate::context::Context;
use crate::instantiation::{Instantiation, instantiations_in};
use crate::own::{known_names, put_own};
use crate::part::PartialDesign;
use basis::OrMemory;
use std::alloc::Global;
use velab_declaration::parameter::Overrides;
use velab_declaration::variable::dotted_path;
use velab_expr::fault::{ElabFault, Rule};
use velab_expr::refusal::refusal;
use velab_expr::scope::Scope;
use vmodules::hierarchy::Modules;
use vmodules::letters::letters;
use vmodules::ports::ports_of;

/// An instance, or the top, and all below it, so many levels deep. Errors: E301 to E310, E901.
#[cycle(growing)]
pub fn put_unit<'t, 'u>(
    alloc: Global,
    modules: &Modules<'t, 'u>,
    levels: u32,
    context: &Context<'_, 't, 'u>,
    part: &mut PartialDesign,
) -> Result<(), OrMemory<ElabFault>>
    requires { context.now.depth + levels ≤ 16 }
    ensures { Makes result part.new (elaborate_instance levels (units_tree modules.now) part.old
        (context_tree modules.now.words context.now)) }
{
    if levels == 0 {
        return Err(refusal(Rule::Depth, Some(context.name.number)));
    }
    let tokens = modules.tokens();
    let ports = ports_of(alloc, tokens, context.unit)?;
    let known = known_names(alloc, tokens, part, context, &ports)?;
    let scope = known.growing.scope().at(known.head);
    let instantiation = instantiations_in(alloc, modules, known.head, &context.unit.items)?;
    put_own(alloc, tokens, context, &ports, &scope, known.size, part)?;
    put_each(
        alloc,
        modules,
        levels - 1,
        context,
        &scope,
        &instantiation,
        part,
    )
}

// The instances of a list, and all below them, so many levels deep.
#[cycle(growing)]
fn put_each<'t, 'u>(
    alloc: Global,
    modules: &Modules<'t, 'u>,
    levels: u32,
    context: &Context<'_, 't, 'u>,
    scope: &Scope<'_, 't>,
    list: &[Instantiation<'t, 'u>],
    part: &mut PartialDesign,
) -> Result<(), OrMemory<ElabFault>>
    requires { context.now.depth + levels < 16 }
    ensures { Makes result part.new
        (instances_below modules.now levels context.now scope.now part.old list.now) }
{
    for one in list {
        put_child(alloc, modules, levels, context, scope, one, part)?;
    }
    Ok(())
}

// One instance, and all below it, so many levels deep.
#[cycle(growing)]
fn put_child<'t, 'u>(
    alloc: Global,
    modules: &Modules<'t, 'u>,
    levels: u32,
    context: &Context<'_, 't, 'u>,
    scope: &Scope<'_, 't>,
    one: &Instantiation<'t, 'u>,
    part: &mut PartialDesign,
) -> Result<(), OrMemory<ElabFault>>
    requires { context.now.depth + levels < 16 }
    ensures { Makes result part.new (instance_below modules.now levels context.now scope.now part.old
        (instantiation_tree modules.now.words one.now)) }
{
    let path = dotted_path(alloc, context.path, letters(modules.tokens(), one.name))?;
    let overrides = Overrides {
        scope: scope.at(one.known),
        values: &one.values,
    };
    let child_context = Context {
        top: context.top,
        path: &path,
        name: one.name,
        depth: context.depth + 1,
        unit: one.child,
        overrides: &overrides,
        connections: &one.connections,
    };
    put_unit(alloc, modules, levels, &child_context, part)
}
