// That reading of whole texts gives the one tree of the words, and where it stops.

ghost use Rattle.vgrammar.specs.SourcePlaces.{ReadsSoundly, ReadsCompletely, IsOnly, StopsAtPlace, StopsForGood, StopsTooDeep};

/// What is read is the tree of all the words; the tree of words is read; and no other tree has them (IEEE 1364-2005,
/// A.1).
pub fn source_law()
    ensures sound { ReadsSoundly }
    ensures complete { ReadsCompletely }
    ensures only { IsOnly }
{}

/// Reading stops at the first word with which the words before it begin no text of so many levels. Where it stops for
/// good they begin none of any depth; where it stops for want of levels they begin one with more levels.
pub fn source_place_law()
    ensures place { StopsAtPlace }
    ensures good { StopsForGood }
    ensures deeper { StopsTooDeep }
{}
