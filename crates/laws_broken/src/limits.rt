//! That limits come first.

ghost use Rattle.laws_broken.specs.Limits.{LimitFirst, LimitStays, NoLimitInBodies, NoLimitInNetwork};

/// A limit is passed in the definitions of a specification or nowhere.
pub fn only_definitions_pass_limits()
    ensures network { NoLimitInNetwork }
    ensures bodies { NoLimitInBodies }
{}

/// A limit that is told stays the fault that is told, whatever is noted behind it that is none.
pub fn limit_stays()
    ensures { LimitStays }
{}

/// Where a limit is told of the first part of the checks, it is told of all of them.
pub fn limit_comes_first()
    ensures { LimitFirst }
{}
