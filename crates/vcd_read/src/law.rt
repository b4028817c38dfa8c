// The law of dumps: their words say one thing.

ghost use Rattle.vcd_read.specs.Laws.{declares_one, tells_one};

/// The law of dumps, which does nothing: words declare one list of variables, up to one place, and tell one list of items.
pub fn a_dump_says_one_thing()
    ensures declares { declares_one }
    ensures tells { tells_one }
{}
