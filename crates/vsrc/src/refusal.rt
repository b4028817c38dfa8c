// What stops an expansion, by its place in the joined files.

ghost use Rattle.std.specs.Prelude.{◌≡◌};
ghost use Rattle.basis.specs.declared.memory.OrMemory.TheVariants.{Fault};
ghost use Rattle.vsrc.specs.Macros.{refused_at};

use basis::OrMemory;

/// Why an expansion stops.
#[derive(Clone, Copy)]
pub enum Why {
    /// E110: a directive is ill formed, not first on its line, or without its open conditional.
    Directive,
    /// E111: the name after a backtick has no macro.
    Macro,
    /// E112: macros or conditionals nest too deep, or the text or the number of uses grows too large.
    Limit,
    /// E113: a conditional is left open.
    Open,
    /// E114: a second timescale differs from the first.
    Timescales,
}

/// What is refused, and the place in the joined files at which it is.
#[derive(Clone, Copy)]
pub struct Refusal {
    pub why: Why,
    pub at: usize,
}

/// The refusal of what stands at `at`.
pub fn refuse(why: Why, at: usize) -> OrMemory<Refusal>
    ensures { result ≡ Fault (refused_at at why) }
{
    OrMemory::Fault(Refusal { why, at })
}
