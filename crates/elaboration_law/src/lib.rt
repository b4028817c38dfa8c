// What each rule of elaboration says of a text (IEEE 1364-2005, clause 12).
// In and out go nothing: the crate has one function, a law.
// The law: what a text is refused for under a rule is what the rule forbids, and no text that has a design has it.
#![tactic(auto)]

ghost use Rattle.elaboration_law.specs.Laws.{IsMeant};
ghost use Rattle.elaboration_law.specs.Depths.{IsTooDeep};
ghost use Rattle.elaboration_law.specs.Counts.{HasTooMany};
ghost use Rattle.elaboration_law.specs.Doubles.{IsDeclaredTwice};
ghost use Rattle.elaboration_law.specs.Drivers.{HasTwoDrivers};
ghost use Rattle.elaboration_law.specs.Misfits.{HasMisfit};
ghost use Rattle.elaboration_law.specs.Unknowns.{HasUnknown};
ghost use Rattle.elaboration_law.specs.WrongWidths.{HasWrongWidth};
ghost use Rattle.elaboration_law.specs.Constants.{HasUnfixed};
ghost use Rattle.elaboration_law.specs.Kinds.{HasMiskind};
ghost use Rattle.elaboration_law.specs.Tops.{LacksModule};
ghost use Rattle.velab_expr.specs.declared.fault.Rule.TheVariants as rule;

/// The law of the rules of elaboration, which does nothing. Each clause is about one rule: a text that has a design doesn't break
/// it, and one that is refused under it does.
pub fn elaboration_rules()
    ensures tops { IsMeant rule.Top LacksModule }
    ensures names { IsMeant rule.Doubled IsDeclaredTwice }
    ensures known { IsMeant rule.Unknown HasUnknown }
    ensures drivers { IsMeant rule.Drivers HasTwoDrivers }
    ensures connections { IsMeant rule.Ports HasMisfit }
    ensures widths { IsMeant rule.Width HasWrongWidth }
    ensures constants { IsMeant rule.Constant HasUnfixed }
    ensures depth { IsMeant rule.Depth IsTooDeep }
    ensures counts { IsMeant rule.TooMany HasTooMany }
    ensures kinds { IsMeant rule.Kind HasMiskind }
{}
