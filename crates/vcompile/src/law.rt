// What holds of the code of a design.

ghost use Rattle.vcompile.specs.Laws.{IsHeardByAll, IsLinked, IsOperand};

/// The law of code (IEEE 1364-2005, clause 9), which does nothing. Of every design whose code is whole: the links of a process lead
/// along what it has left, from each place to the next one, where it begins and behind each step, its own or another's, and the
/// counters say how many turns are left; where it waits, it goes on where its listeners say [linked]. Whoever may wait for a change
/// or for an event stands in the list of that, as the process of its place, and nobody else does [hears].
/// Of every design: where the code of the operand at a place has a value, it is that of the operand of the action there [operands].
pub fn code_law()
    ensures linked { IsLinked }
    ensures hears { IsHeardByAll }
    ensures operands { IsOperand }
{}
