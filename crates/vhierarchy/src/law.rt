// That a text describes one design, whose names are names.

ghost use Rattle.vhierarchy.specs.Laws.{ElaboratesOneWay, ElaboratesNamed};

/// A tree, the name of its top module and a timescale stand for at most one design (IEEE 1364-2005, 12.1). Where the words of a text
/// derive the tree, the design's top has a name, each variable a path of names, and no two variables have the same (3.7).
pub fn elaboration_law()
    ensures one { ElaboratesOneWay }
    ensures named { ElaboratesNamed }
{}
