// What the calls of a queue come to.

ghost use Rattle.vstrata.specs.Laws as laws;

/// The law of the definitions themselves, of every queue: its choices are those of its slot, or else the advance; an active process that is
/// taken and activated has gone on, in a queue that stays in order; the monitor events that `settle` hands out are those that run; and after
/// it nothing is active exactly where the slot has ended. It does nothing.
pub fn strata_law()
    ensures choices { laws.AddsTheAdvance }
    ensures goes_on { laws.GoesOnAsTaken }
    ensures in_order { laws.StaysInOrder }
    ensures monitors { laws.HandsOutAll }
    ensures ends { laws.EndsIdle }
    ensures active { laws.ElseIsActive }
{}
