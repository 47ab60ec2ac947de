//! Where no rule is broken in the definitions of a specification, its names lack nothing.

ghost use Rattle.laws_complete.specs.Names.{DurationsGiven, LabelsGiven, ScopesComplete, SignalsBelow, SortsGiven, StatesGiven, SynonymsValued};

/// Each definition has its sorts.
pub fn sorts_given()
    ensures { SortsGiven }
{}

/// Each synonym has a value: none is defined by itself.
pub fn synonyms_valued()
    ensures { SynonymsValued }
{}

/// Whatever the place, what is seen there lacks nothing.
pub fn scopes_complete()
    ensures { ScopesComplete }
{}

/// Each timer that has a default duration has its ticks.
pub fn durations_given()
    ensures { DurationsGiven }
{}

/// Each signal that is seen has a place in the table of signals.
pub fn signals_below()
    ensures { SignalsBelow }
{}

/// The labels of a process are numbered in the order of the text, and no two of them have one name.
pub fn labels_given()
    ensures { LabelsGiven }
{}

/// The states of a process are numbered in the order of their first names.
pub fn states_given()
    ensures { StatesGiven }
{}
