// A rule that is broken.

ghost use Rattle.std.specs.Prelude.{◌≡◌};
ghost use Rattle.basis.specs.declared.memory.OrMemory.TheVariants as or_memory;

use crate::fault::{ElabFault, Rule};
use basis::OrMemory;

/// The rule is broken, at the token of this number if there is one.
pub fn refusal(rule: Rule, at: Option<u32>) -> OrMemory<ElabFault>
    ensures { result ≡ or_memory.Fault (record { rule = rule; at = at }) }
{
    OrMemory::Fault(ElabFault { rule, at })
}
