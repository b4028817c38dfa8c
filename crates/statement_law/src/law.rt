// A law above the layout of statements.

ghost use Rattle.statement_law.specs.DesignLaws.{DesignBegins, StandsByText};
ghost use Rattle.statement_law.specs.RunLaws.{StandsThroughout, StaysElse, StepsByTrees};
ghost use Rattle.statement_law.specs.Laws.{BeginsBefore, FollowsPlaces, FollowsTrees, ItemsBegin};

/// The law of statements (IEEE 1364-2005, clause 9), which does nothing. A process that begins at the places of a statement stands
/// before it, and so do those of a module's items and of an elaborated design. Where a process stands before statements, what it
/// does by the action at its first place is the one step that their trees have, and then it stands before what the trees say is
/// left. In a run its own steps are those of its trees, in all others it stays where it is and hears what it waits for; so in every
/// state of every run each process of an elaborated design stands somewhere, in the scope in which it began.
pub fn statement_law()
    ensures begins { BeginsBefore }
    ensures items { ItemsBegin }
    ensures design { DesignBegins }
    ensures trees { FollowsTrees }
    ensures places { FollowsPlaces }
    ensures steps { StepsByTrees }
    ensures stays { StaysElse }
    ensures runs { StandsThroughout }
    ensures text { StandsByText }
{}
