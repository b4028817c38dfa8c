// The room that a design so far leaves for an instance (E309).

ghost use Rattle.std.specs.Prelude.{◌≡◌, ◌≤◌, ◌+◌, ◌-◌, ◌&&◌, true, length, nat_le, nat_lt, is_some, IfSome};
ghost use Rattle.vast.specs.NumberedTrees.{module_tree};
ghost use Rattle.vexpr_parse.specs.Texts.{words_of};
ghost use Rattle.module_size.specs.Sizes.{module_size, size_of};
ghost use Rattle.vmodules.specs.Names.{letters_of};
ghost use Rattle.velab_declaration.specs.Variables.{declared_names};
ghost use Rattle.vhierarchy.specs.Instances.{has_room, dotted_size, letters_held};
ghost use Rattle.vhierarchy.specs.Inner.{context_tree};

use crate::context::Context;
use crate::part::PartialDesign;
use module_size::modules::take_module;
use vdesign::design::{Scope, Variable};
use velab_declaration::parameter::MOST_EVENTS;
use vlex::Tokens;
use vmodules::names::Names;

/// The most bytes that the names of a design have together.
const MOST_LETTERS: usize = 1_048_576;
/// The most that the modules of its instances have together.
const MOST_SIZE: usize = 4_194_304;

// What is left behind a name.
fn take_name(name: &[u8], left: usize) -> usize
    ensures { result ≡ left - length name.now }
{
    left.saturating_sub(name.len())
}

// What is left behind a name that stands behind a path and a dot.
fn take_dotted(path: &[u8], name: &[u8], left: usize) -> usize
    ensures { result ≡ left - dotted_size path.now name.now }
{
    take_name(name, take_name(path, left).saturating_sub(1))
}

// What is left behind the names of variables.
fn take_variables(variables: &[Variable], mut left: usize) -> usize
    ensures { result ≡ left - size_of (λ v. length v.name) variables.now }
{
    for one in variables {
        left = take_name(&one.name, left);
    }
    left
}

// What is left behind the paths of scopes.
fn take_scopes(scopes: &[Scope], mut left: usize) -> usize
    ensures { result ≡ left - size_of (λ s. length s.path) scopes.now }
{
    for one in scopes {
        left = take_name(&one.path, left);
    }
    left
}

// What is left behind names that stand behind a path.
fn take_names(path: &[u8], names: &Names<'_>, mut left: usize) -> usize
    ensures { result ≡ left - size_of (dotted_size path.now) names.now }
{
    for place in 0..names.len() {
        left = take_dotted(path, names.name(place), left);
    }
    left
}

// What is left behind the names of a design so far and those of an instance.
fn names_left(part: &PartialDesign, path: &[u8], names: &Names<'_>) -> usize
    ensures { result ≡ 1048577 -
        (letters_held part.now + (length path.now + size_of (dotted_size path.now) names.now)) }
{
    let left = take_scopes(
        &part.scopes,
        take_variables(&part.variables, MOST_LETTERS + 1),
    );
    take_names(path, names, take_name(path, left))
}

// Whether there are few enough events, and something is left of both.
fn all_fit(events: usize, letters: usize, size: usize) -> bool
    ensures fit { result ≡ (nat_le events 4294967295 && (nat_lt 0 letters && nat_lt 0 size)) }
    ensures events { result ≡ true → events ≤ 4294967295 }
{
    events <= MOST_EVENTS && (letters > 0 && size > 0)
}

/// How large the modules of a design are with that of an instance, where it has room for the instance.
pub fn room_for(
    tokens: &Tokens<'_>,
    part: &PartialDesign,
    context: &Context<'_, '_, '_>,
    names: &Names<'_>,
) -> Option<usize>
    requires { names.now ≡
        letters_of (declared_names (module_tree (words_of tokens.now) context.now.unit.now)) }
    ensures room { is_some result ≡
        has_room part.now (context_tree (words_of tokens.now) context.now) }
    ensures size { IfSome result (λ size. size ≡
        part.now.size + module_size (length context.now.path.now)
        (module_tree (words_of tokens.now) context.now.unit.now)) }
    ensures events { IfSome result (λ _. part.now.events ≤ 4294967295) }
{
    let letters = names_left(part, context.path, names);
    let left = take_module(
        tokens,
        context.unit,
        context.path.len(),
        (MOST_SIZE + 1).saturating_sub(part.size),
    );
    if all_fit(part.events, letters, left) {
        Some(MOST_SIZE + 1 - left)
    } else {
        None
    }
}
