//! What holds of all runs, as functions that do nothing.

ghost use Rattle.run_semantics.specs.RunLaws.{EndsForGood, InstancesHaveHistories, OutputsAreSent, RunsAppend, RunsAreLegal, SelectsWhateverIsDrawn, TriesWhateverIsDrawn};

/// Two runs, of which the second begins where the first ends, are one run.
pub fn runs_append()
    ensures { RunsAppend }
{}

/// An instance that has ended does nothing any more, and to a closed record nothing is added (Z.101: agent).
pub fn ends_for_good()
    ensures { EndsForGood }
{}

/// A run sends just what its events say (Z.102: output).
pub fn outputs_are_sent()
    ensures { OutputsAreSent }
{}

/// The selection of a state stays the same, whatever comes into the port meanwhile (Z.101: state).
pub fn selects_whatever_is_drawn()
    ensures { SelectsWhateverIsDrawn }
{}

/// So does the continuous signal that begins (Z.102: continuous signal).
pub fn tries_whatever_is_drawn()
    ensures { TriesWhateverIsDrawn }
{}

/// A run is on one legal history of the port (Z.101: input port).
pub fn runs_are_legal()
    ensures { RunsAreLegal }
{}

/// So is all that an instance did over a shared port, from the empty port on; and what came from outside in that history
/// is what its owner drew (Z.101: input port).
pub fn instances_have_histories()
    ensures { InstancesHaveHistories }
{}
