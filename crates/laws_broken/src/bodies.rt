//! Which faults the states and transitions of a process have.

ghost use Rattle.laws_broken.specs.Bodies.{BrokenListed, ListedBroken};

/// Each fault of a process is a rule that is broken in its states or transitions.
pub fn listed_is_broken()
    ensures { ListedBroken }
{}

/// Each rule that is broken in the states and transitions of a process is among its faults.
pub fn broken_is_listed()
    ensures { BrokenListed }
{}
