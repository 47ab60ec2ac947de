//! What holds of the definitions, as functions that do nothing.

ghost use Rattle.build_definitions.specs.SymbolsBroken.{BrokenListed, ListedBroken};

/// Each name that is noted is declared twice in its scope.
pub fn listed_is_broken()
    ensures { ListedBroken }
{}

/// Each name that is declared twice in its scope is noted.
pub fn broken_is_listed()
    ensures { BrokenListed }
{}
