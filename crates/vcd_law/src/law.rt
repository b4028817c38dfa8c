// The law of dumps that are written and read.

ghost use Rattle.vcd_law.specs.ReadBack.{body_read};
ghost use Rattle.vcd_law.specs.Headers.{header_read};
ghost use Rattle.vcd_law.specs.WholeDumps.{dump_read};

/// The law of dumps, which does nothing. The header of a dump declares the variables of the scopes that are selected. Behind it, what is
/// written of slots, whose times rise and whose variables are the same, tells items whose times don't fall; and at the time of each slot
/// these show the values of the selected variables at its end, where the dump is on behind it, and else that they aren't known. So it is of
/// the dump of a design and a history.
pub fn dumps_are_read_back()
    ensures header { header_read }
    ensures body { body_read }
    ensures dump { dump_read }
{}
