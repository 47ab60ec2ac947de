//! What holds of the definitions, as functions that do nothing.

ghost use Rattle.build_states.specs.Broken.{BrokenListed, ListedBroken};
ghost use Rattle.build_states.specs.FirstMention.{FirstMentionCounts};

/// A state says of each signal, and by an asterisk of the others, what its first mention says.
pub fn first_mention_counts()
    ensures { FirstMentionCounts }
{}

/// Each fault of the states of a process is a rule that they break.
pub fn listed_is_broken()
    ensures { ListedBroken }
{}

/// Each rule that the states of a process break is in the list of their faults.
pub fn broken_is_listed()
    ensures { BrokenListed }
{}
