// What the words of a text's tokens tell.

ghost use Rattle.vparse.specs.Laws.{TellNumbers, TellNames};

/// The words of a text's tokens tell whether they are numbers, by their first byte alone, and whether they are names
/// (IEEE 1364-2005, 3.5.1 and 3.7).
pub fn words_law()
    ensures numbers { TellNumbers }
    ensures names { TellNames }
{}
