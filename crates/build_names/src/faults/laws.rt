//! What holds of the definitions, as functions that do nothing.

ghost use Rattle.build_names.specs.FaultLaws.{FirstNoted, NoneNoted, OneAfterTheOther};

/// One part of the checks after the other notes the faults of both.
pub fn one_after_the_other()
    ensures { OneAfterTheOther }
{}

/// Where no fault is told, there is none.
pub fn none_noted()
    ensures { NoneNoted }
{}

/// The fault that is told comes first among all that there are.
pub fn first_noted()
    ensures { FirstNoted }
{}
