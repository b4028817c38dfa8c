// How long dumps are.
// Nothing goes in and nothing comes out: the crate has one law and no code.
#![tactic(auto)]

ghost use Rattle.dump_law.specs.LengthLaws.{DesignsAreSmall, DumpsAreShort};

use plain_steps::run_law;

/// The law of the lengths of dumps, which does nothing. A design that a text stands for is small (E306, E308, E309). No dump of a run
/// of such a design has 2^64 bytes, where it takes fewer than 2^32 steps, up to a time of 64 bits.
pub fn dumps_are_short()
    ensures small { DesignsAreSmall }
    ensures short { DumpsAreShort }
{
    run_law();
}
