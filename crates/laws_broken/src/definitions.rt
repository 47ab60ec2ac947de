//! Which faults the definitions of a specification have.

ghost use Rattle.laws_broken.specs.Definitions.{BrokenListed, ListedBroken};

/// Each fault of the definitions is a rule that is broken in them: a limit that is passed, a sort that is none, a name
/// that is declared twice, a constant that is none, numbers of instances that don't fit.
pub fn listed_is_broken()
    ensures { ListedBroken }
{}

/// Each rule that is broken in the definitions is among their faults.
pub fn broken_is_listed()
    ensures { BrokenListed }
{}
