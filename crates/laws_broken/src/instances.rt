//! How many instances of a process are counted where there are too many of all processes.

ghost use Rattle.laws_broken.specs.Instances.{InitialCounted};

/// Where no rule is broken in the numbers of instances of a process, so many are counted of it as its text says there
/// are at the start.
pub fn initial_is_counted()
    ensures { InitialCounted }
{}
