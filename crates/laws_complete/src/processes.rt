//! That a process in which no rule is broken is there, and what it does.

ghost use Rattle.laws_complete.specs.Processes.{BehaviourGiven, ProcessGiven};

/// Where no rule is broken in the states and transitions of a process, its text isn't refused.
pub fn process_given()
    ensures { ProcessGiven }
{}

/// And there is something that it does.
pub fn behaviour_given()
    ensures { BehaviourGiven }
{}
