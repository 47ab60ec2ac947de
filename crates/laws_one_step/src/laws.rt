//! What holds of any two steps of an instance, as functions that do nothing.

ghost use Rattle.laws_one_step.specs.Unique.{RestsForNow, StepsAlike};

/// Two steps of one instance, from the same place, knowledge, port and world, are the same: they record the same
/// events, do the same outside, and end alike. That is so where neither fails for lack of memory (Z.101: agent,
/// transition).
pub fn steps_alike()
    ensures { StepsAlike }
{}

/// An instance that waits, since nothing can be taken and no continuous signal is true, makes no step (Z.101: state).
pub fn rests_for_now()
    ensures { RestsForNow }
{}
