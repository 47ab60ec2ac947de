//! What holds of the definitions, as functions that do nothing.

ghost use Rattle.build_states.specs.StimuliBroken.{BrokenListed, ListedBroken};

/// Each fault of the stimuli of a process is a rule that is broken in one.
pub fn listed_is_broken()
    ensures { ListedBroken }
{}

/// Each rule that is broken in a stimulus is in the list of their faults.
pub fn broken_is_listed()
    ensures { BrokenListed }
{}
