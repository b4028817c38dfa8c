// Laws: what is written can be read, and a sink completes a dump.

ghost use Rattle.std.specs.Prelude.{◌≡◌, ◌+◌, ℕ, Bool, List, All, length};
ghost use Rattle.vcd_text.specs.CodeLaws.{IsDigit, IsNumeral, number_of};
ghost use Rattle.vcd_text.specs.DumpText.{DumpSlot, code, short_digits, vcd};
ghost use Rattle.vcd_text.specs.Readers.{TellsValues, full_digits};
ghost use Rattle.vcd_text.specs.Sinks.{history_text};
ghost use Rattle.vdesign.specs.Design.{Design};
ghost use Rattle.vmodel.specs.History.{History};

/// The law of dumps (docs/FORMATS.md, "Dumps"), which does nothing. The code of variable n is n + 1 in bijective base
/// 94, the lowest digit first, with the digits `!` to `~`, and no other text is. A reader that extends the digits of a value
/// on the left has all digits back. Where all slots have the same variables, the values of those that are marked told up to
/// a slot's end and with it, each in place of the one before, are the values at it.
pub fn dumps_are_readable()
    ensures digits { (n : ℕ) → All IsDigit (code n) }
    ensures number { (n : ℕ) → number_of (code n) ≡ n + 1 }
    ensures only { (n : ℕ) (text : List ℕ) → IsNumeral n text → text ≡ code n }
    ensures back { (digits : List ℕ) → full_digits (length digits) (short_digits digits) ≡ digits }
    ensures values { (marks : List Bool) (slots : List DumpSlot) → TellsValues marks slots }
{}

/// The law of sinks, which does nothing: what the items of a history and then its end add to a dump of which nothing has
/// come yet is the dump of the design and the history.
pub fn sinks_complete_dumps()
    ensures { (design : Design) (history : History) →
        history_text design history ≡ vcd design history }
{}
