//! Transitions in which no rule is broken have their bodies, as a function that does nothing.

ghost use Rattle.laws_complete.specs.Transitions.{BodiesGiven};

/// Where no rule is broken in the transitions of a process, and the names that it sees lack nothing, each of its
/// transitions has its body.
pub fn bodies_are_given()
    ensures { BodiesGiven }
{}
