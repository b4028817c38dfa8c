// That a text is that of one log at most.

ghost use Rattle.sched_core.specs.LogText.{OneLogForText};

/// No two logs, with the grains that they name, have one text.
pub fn log_text_law()
    ensures one { OneLogForText }
{}
