// The scope that another simulator puts round the top module.

ghost use Rattle.std.specs.Prelude.{◌≡◌, ◌≤◌, length};
ghost use Rattle.std.specs.List.{list_any, prefix_len};
ghost use Rattle.dump_match.specs.Scopes.{behind_outermost, is_in, is_no_dot, is_within, is_wrapped, outermost};

use basis::NoMemory;
use std::alloc::Global;
use vcd_read::{VcdVariable, is_same};

// Whether the byte may stand within a part of a name.
fn is_no_dot(byte: u8) -> bool
    ensures { result ≡ is_no_dot byte }
{
    byte != b'.'
}

// How long the first part of a name is.
fn part_len(name: &[u8]) -> usize
    ensures within { result ≤ length name.now }
    ensures value { result ≡ prefix_len is_no_dot name.now }
{
    for (at, byte) in name.iter().enumerate() {
        if !is_no_dot(*byte) {
            return at;
        }
    }
    name.len()
}

// The outermost scope of a name.
fn outermost(name: &[u8]) -> &[u8]
    ensures { result.now ≡ outermost name.now }
{
    name.split_at(part_len(name)).0
}

/// What stands behind it.
pub(crate) fn behind_outermost(name: &[u8]) -> &[u8]
    ensures { result.now ≡ behind_outermost name.now }
{
    let len = part_len(name);
    if len == name.len() {
        return name.split_at(len).1;
    }
    name.split_at(len + 1).1
}

// Whether the variable is in the top.
fn is_in(top: &[u8], told: &VcdVariable) -> bool
    ensures { result ≡ is_in top.now told.now }
{
    is_same(outermost(&told.name), top)
}

// Whether it is, where its outermost scope is left out.
fn is_within(top: &[u8], told: &VcdVariable) -> bool
    ensures { result ≡ is_within top.now told.now }
{
    is_same(outermost(behind_outermost(&told.name)), top)
}

// Whether some of the variables are in the top.
fn are_any_in(top: &[u8], declared: &[VcdVariable]) -> bool
    ensures { result ≡ list_any (is_in top.now) declared.now }
{
    declared.iter().any(|told| is_in(top, told))
}

// Whether some are, where their outermost scopes are left out.
fn are_any_within(top: &[u8], declared: &[VcdVariable]) -> bool
    ensures { result ≡ list_any (is_within top.now) declared.now }
{
    declared.iter().any(|told| is_within(top, told))
}

/// Whether the outermost scopes of the variables are left out.
pub(crate) fn is_wrapped(top: &[u8], declared: &[VcdVariable]) -> bool
    ensures { result ≡ is_wrapped top.now declared.now }
{
    !are_any_in(top, declared) && are_any_within(top, declared)
}

/// The outermost scope of the first of the variables that is in the top without it, where such scopes are left out.
pub(crate) fn scope_round(
    alloc: Global,
    wrapped: bool,
    top: &[u8],
    declared: &[VcdVariable],
) -> Result<Option<Vec<u8>>, NoMemory> {
    if !wrapped {
        return Ok(None);
    }
    for told in declared {
        if is_within(top, told) {
            return Ok(Some(Vec::from_slice(alloc, outermost(&told.name))?));
        }
    }
    Ok(None)
}
