// That reading of statements gives the one tree of the words, and where it stops.

ghost use Rattle.vgrammar.specs.StatementPlaces.{ReadsSoundly, ReadsCompletely, IsOnly, StopsAtPlace, StopsForGood, StopsTooDeep};

/// What is read is a statement at the front of the words; each statement is read where what follows ends it; and no
/// other tree has its words (IEEE 1364-2005, A.6).
pub fn statement_law()
    ensures sound { ReadsSoundly }
    ensures complete { ReadsCompletely }
    ensures only { IsOnly }
{}

/// Reading stops at the first word with which the words before it begin no statement of so many levels. Where it
/// stops for good they begin none of any depth; where it stops for want of levels they begin one with more levels.
pub fn statement_place_law()
    ensures place { StopsAtPlace }
    ensures good { StopsForGood }
    ensures deeper { StopsTooDeep }
{}
