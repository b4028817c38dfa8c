// That words are counted as they are spelled.

ghost use Rattle.action_origins.specs.Laws.{AreLengths};

/// The law of lengths: parts of a text have as many words as they spell.
pub fn length_law()
    ensures lengths { AreLengths }
{}
