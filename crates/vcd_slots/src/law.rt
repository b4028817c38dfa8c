// The law of slots: they show their time.

ghost use Rattle.vcd_slots.specs.Laws.{shown_now, until_now};

/// The law of slots, which does nothing: the items behind which they stand are those up to the end of the time that they show, and so each
/// column shows what the dump shows at that time.
pub fn slots_show_their_time()
    ensures until { until_now }
    ensures shown { shown_now }
{}
