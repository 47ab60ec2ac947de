//! What holds of the definitions, as functions that do nothing.

ghost use Rattle.build_expressions.specs.Broken.{BrokenListed, BrokenListedAt, BrokenListedConstant, BrokenListedIn, ListedBroken, ListedBrokenAt, ListedBrokenConstant, ListedBrokenIn};

/// Each fault of an expression is a rule that is broken in it.
pub fn listed_is_broken()
    ensures { ListedBroken }
{}

/// The same of an expression at a place of a sort.
pub fn listed_is_broken_at()
    ensures { ListedBrokenAt }
{}

/// The same of values behind a name.
pub fn listed_is_broken_in()
    ensures { ListedBrokenIn }
{}

/// The same of a constant expression.
pub fn listed_is_broken_constant()
    ensures { ListedBrokenConstant }
{}

/// Each rule that is broken in an expression is among its faults.
pub fn broken_is_listed()
    ensures { BrokenListed }
{}

/// The same of an expression at a place of a sort.
pub fn broken_is_listed_at()
    ensures { BrokenListedAt }
{}

/// The same of values behind a name.
pub fn broken_is_listed_in()
    ensures { BrokenListedIn }
{}

/// The same of a constant expression.
pub fn broken_is_listed_constant()
    ensures { BrokenListedConstant }
{}
