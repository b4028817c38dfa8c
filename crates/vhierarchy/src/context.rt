// What an instance is told (IEEE 1364-2005, 12.1.2, 12.2.2, 12.3).

use vast::module::ModuleTree;
use vast::token::Token;
use velab_declaration::parameter::Overrides;
use vmodules::connect::ConnectionMap;

/// An instance, or the top: the top's name, its path, the token that it is named by, how many scopes are round it, its module, what is said of its
/// parameters from outside, and what its ports are connected to there.
#[derive(Drop)]
pub struct Context<'s, 't, 'u> {
    pub top: &'t [u8],
    pub path: &'s [u8],
    pub name: Token,
    pub depth: u32,
    pub unit: &'u ModuleTree,
    pub overrides: &'s Overrides<'s, 't, 'u>,
    pub connections: &'s ConnectionMap<'t, 'u>,
}
