// What holds of every machine's states.

ghost use Rattle.vmachine.specs.MachineLaws as laws;

/// The law of machines, of every setting: its first state stands for the opening state; states that stand for states of
/// a run have as many choices and are marks together, and after the same choice they stand for the next states; their
/// rank is the time; what is equal to such a state stands for the same. Each stands for one, and tells all of that one but its
/// processes. So the runs of a machine under logs are those of its setting. It does nothing.
pub fn machine_law()
    ensures first { laws.StandsAtFirst }
    ensures width { laws.HasSameWidth }
    ensures mark { laws.HasSameMarks }
    ensures after { laws.StandsAfter }
    ensures rank { laws.HasTimeAsRank }
    ensures same { laws.StandsForSame }
    ensures one { laws.IsSameForOne }
    ensures only { laws.StandsForOne }
    ensures own { laws.StandsForOwn }
    ensures own_rank { laws.HasOwnTimeAsRank }
    ensures runs { laws.RunsAsSetting }
    ensures runs_back { laws.SettingRunsSo }
    ensures stands { laws.StandsThroughout }
{}
