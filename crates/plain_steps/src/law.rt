// What holds of the runs of every setting.

ghost use Rattle.plain_steps.specs.PartLaws.{WritesEachBit};
ghost use Rattle.plain_steps.specs.RunLaws as laws;

/// The law of the definitions themselves, of every setting, log and number of steps: the test that an explorer takes
/// for two states is their equality, so that the rules of a run are lawful; each state keeps what specs/Kept.antt says;
/// no step lowers the time, and no two slots of a run end at one time; the end of a slot has one choice at most, which goes on to a later
/// time, and within a slot the time stays; each state and each slot end has as many values as the design has variables, and each value of a state the length and sign of its variable (4.2.2); a history shows
/// a slot end exactly where its run was at one; and after a part is written each of its bits that the variable has
/// reads its letter, and all other bits of the variable stay (5.2.1). A run where departures only take is one where
/// they may hold back, and ends where that one does; lines are there where they are looked at, in the order of their
/// bytes, and change no run. It does nothing.
pub fn run_law()
    ensures equal { laws.TestsEquality }
    ensures lawful { laws.HasLawfulRuns }
    ensures kept { laws.IsAlwaysKept }
    ensures time { laws.TimeNeverFalls }
    ensures times { laws.HasRisingSlots }
    ensures one_way { laws.GoesOnOneWay }
    ensures later { laws.GoesOnLater }
    ensures stays { laws.StaysInSlot }
    ensures values { laws.IsAlwaysFull }
    ensures shapes { laws.IsAlwaysShaped }
    ensures shown { laws.ShowsFullSlots }
    ensures ended { laws.ShowsOnlySlotEnds }
    ensures ends { laws.ShowsEachSlotEnd }
    ensures parts { WritesEachBit }
    ensures holding { laws.TakingIsHolding }
    ensures holding_ends { laws.HoldingEndsToo }
    ensures printed { laws.PrintsWhereLooked }
    ensures lines { laws.LinesChangeNoRun }
{}
