//! What holds of the definitions, as functions that do nothing.

ghost use Rattle.build_limits.specs.Broken.{BrokenListed, ListedBroken};

/// Each limit that is noted is passed.
pub fn listed_is_broken()
    ensures { ListedBroken }
{}

/// Each limit that is passed is noted.
pub fn broken_is_listed()
    ensures { BrokenListed }
{}
