// The designs of texts.

use std::alloc::Global;
use vdesign::design::Design;
use vhierarchy::elaborate;
use vlex::tokens;
use vparse::parse;
use vsrc::expand;

/// The design of a text; none where it has none, or memory was refused.
pub fn design_of(alloc: Global, text: Vec<u8>, top: Option<&[u8]>) -> Option<Design> {
    let mut files = Vec::new(alloc);
    files.push(text).ok()?;
    let source = expand(alloc, &files).ok()?;
    let found = tokens(alloc, &source).ok()?;
    let tree = parse(alloc, &found).ok()?;
    elaborate(alloc, &found, &tree, top, source.timescale()).ok()
}
