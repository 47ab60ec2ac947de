//! What the checks tell of what was put, as functions that do nothing.

ghost use Rattle.settle_checks.specs.Outputs.{EnoughIsHeard, EnoughIsPut};

/// Where enough signals were put, by `IsEnough`, and they are the last of those that were sent, nothing is missing
/// but what may be (Z.102: output).
pub fn enough_is_put()
    ensures { EnoughIsPut }
{}

/// So it is with the signals of the script, by `IsEnoughHeard`.
pub fn enough_is_heard()
    ensures { EnoughIsHeard }
{}
