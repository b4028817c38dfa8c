// That a text is that of one report at most.

ghost use Rattle.report_text.specs.WellFormed.{OneReportForText};

/// No two reports, with the dumps of their ends, have one text.
pub fn report_text_law()
    ensures one { OneReportForText }
{}
