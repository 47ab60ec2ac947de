//! That numbers in what states say are below what they count.

ghost use Rattle.laws_complete.specs.Ranges.{EntriesReach, SignalsWithin};

/// Each transition that a state begins is one of the process.
pub fn entries_reach()
    ensures { EntriesReach }
{}

/// Where names stand for signals of the system, states name no others.
pub fn signals_within()
    ensures { SignalsWithin }
{}
