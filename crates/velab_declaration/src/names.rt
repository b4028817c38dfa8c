// Names of a module, no two alike (IEEE 1364-2005, 3.7, 12.7).

ghost use Rattle.std.specs.Prelude.{◌≡◌, ◌++◌, ◌∷◌, [], Some, true, false, OnOk};
ghost use Rattle.basis.specs.Reasons.{IfFault};
ghost use Rattle.vmodules.specs.Names.{has_double, is_declared};

use basis::OrMemory;
use velab_expr::fault::{ElabFault, Rule};
use velab_expr::refusal::refusal;
use vmodules::names::Names;

/// Adds a name, the token of this number, behind the others. E302 where it is among them.
pub fn note<'t>(names: &mut Names<'t>, text: &'t [u8], at: u32) -> Result<(), OrMemory<ElabFault>>
    ensures added { OnOk result (names.new ≡ names.old ++ text.now ∷ []) }
    ensures unique { has_double names.new ≡ false }
    ensures fresh { OnOk result (is_declared names.old text.now ≡ false) }
    ensures err { IfFault result (λ fault. (is_declared names.old text.now ≡ true)
        × (fault ≡ record { rule = Rule.Doubled; at = Some at })) }
{
    let new = names.add(text)?;
    if !new {
        return Err(refusal(Rule::Doubled, Some(at)));
    }
    Ok(())
}
