// That a text is cut into tokens in one way, and where its words stand.

ghost use Rattle.vlex.specs.Laws.{CutsOneWay, WordsStandOneWay};

/// A text has at most one list of tokens (IEEE 1364-2005, clause 3), and its words stand at one list of
/// places.
pub fn lexing_law()
    ensures one { CutsOneWay }
    ensures places { WordsStandOneWay }
{}
