//! What holds of the definitions, as functions that do nothing.

ghost use Rattle.build_definitions.specs.Broken.{BrokenListed, ListedBroken};

/// Each name that is noted stands for a sort and is none's.
pub fn listed_is_broken()
    ensures { ListedBroken }
{}

/// Each name that stands for a sort and is none's is noted.
pub fn broken_is_listed()
    ensures { BrokenListed }
{}
