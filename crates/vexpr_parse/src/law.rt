// That reading gives the one tree of the words, and where it stops.

ghost use Rattle.vexpr_parse.specs.Places.{ReadsSoundly, ReadsCompletely, ReadsLongest, IsOnly, StopsAtPlace, StopsForGood, StopsTooDeep};

/// What is read is an expression at the front of the words; each expression is read where what follows ends it; no
/// more of the words than were read are one; and no other tree has its words (IEEE 1364-2005, A.8).
pub fn expression_law()
    ensures sound { ReadsSoundly }
    ensures complete { ReadsCompletely }
    ensures longest { ReadsLongest }
    ensures only { IsOnly }
{}

/// Reading stops at the first word with which the words before it begin no expression of so many levels. Where it
/// stops for good they begin none of any depth; where it stops for want of levels they begin one with a level more.
pub fn place_law()
    ensures place { StopsAtPlace }
    ensures good { StopsForGood }
    ensures deeper { StopsTooDeep }
{}
