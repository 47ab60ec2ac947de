//! What holds of the bodies of a process.

ghost use Rattle.laws_sound_processes.specs.BodyLaws.{BodiesAreTyped, StartLeadsOn, TransitionsAreTyped, TypedActionsAreSound};

/// Where names stand for what is there, a transition names what is there, and its values fit their places (Z.102).
pub fn transitions_are_typed()
    ensures { TransitionsAreTyped }
{}

/// So does each body of a process.
pub fn bodies_are_typed()
    ensures { BodiesAreTyped }
{}

/// An action whose values fit their places has as many values as it takes.
pub fn typed_actions_are_sound()
    ensures { TypedActionsAreSound }
{}

/// Where no `nextstate -` is told that the start reaches, no path from the start comes to one (Z.101: nextstate).
pub fn start_leads_on()
    ensures { StartLeadsOn }
{}
