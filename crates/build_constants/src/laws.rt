//! What holds of the definitions, as functions that do nothing.

ghost use Rattle.build_constants.specs.Broken.{BrokenListedInCounts, BrokenListedInDurations, BrokenListedInValues, ListedBrokenInCounts, ListedBrokenInDurations, ListedBrokenInValues};

/// Each fault of the numbers of instances is a rule that is broken in them.
pub fn listed_is_broken_in_counts()
    ensures { ListedBrokenInCounts }
{}

/// The same of initial values.
pub fn listed_is_broken_in_values()
    ensures { ListedBrokenInValues }
{}

/// The same of default durations.
pub fn listed_is_broken_in_durations()
    ensures { ListedBrokenInDurations }
{}

/// Each rule that is broken in the numbers of instances is in the list of their faults.
pub fn broken_is_listed_in_counts()
    ensures { BrokenListedInCounts }
{}

/// The same of initial values.
pub fn broken_is_listed_in_values()
    ensures { BrokenListedInValues }
{}

/// The same of default durations.
pub fn broken_is_listed_in_durations()
    ensures { BrokenListedInDurations }
{}
