//! What holds of the definitions, as functions that do nothing.

ghost use Rattle.build_network.specs.Broken.{BrokenListed, ListedBroken};

/// Each fault of what joins the agents is a rule that is broken in it.
pub fn listed_is_broken()
    ensures { ListedBroken }
{}

/// Each rule that is broken in what joins the agents is among its faults.
pub fn broken_is_listed()
    ensures { BrokenListed }
{}
