// That each byte of an expansion has a place.

ghost use Rattle.vsrc.specs.Laws.{PlacesEachByte};

/// An expansion has as many places as bytes, so that each byte has a file and a line of its own.
pub fn expansion_law()
    ensures places { PlacesEachByte }
{}
