//! What holds of the runs of a process whose transitions lead to states.

ghost use Rattle.laws_sound_runs.specs.RunLaws.{ComesToStates, ConditionsAskUnassigned, UndefinedIsUnassigned};
ghost use Rattle.laws_sound_runs.specs.Sorts.{RunsKeepSorts, StartsWithSorts, ValuesFitPlaces};

/// A run from the start comes to no `nextstate` that leads to no state (Z.102: nextstate).
pub fn comes_to_states()
    ensures { ComesToStates }
{}

/// So a transition fails as Undefined only where a variable is asked for that has no value (Z.104: variable access).
pub fn undefined_is_unassigned()
    ensures { UndefinedIsUnassigned }
{}

/// So does an instance in a state, where a condition asks for such a variable (Z.102: continuous signal, enabling
/// condition).
pub fn conditions_ask_unassigned()
    ensures { ConditionsAskUnassigned }
{}

/// Before the start each variable that has a value has one of its sort, where initial values and those of parameters
/// have (Z.101: process; Z.102: variable).
pub fn starts_with_sorts()
    ensures { StartsWithSorts }
{}

/// Where each variable that has a value has one of its sort, it stays so in each run (Z.102: task, input).
pub fn runs_keep_sorts()
    ensures { RunsKeepSorts }
{}

/// The values of terms at places of sorts are of those sorts (Z.102: output, set, create).
pub fn values_fit_places()
    ensures { ValuesFitPlaces }
{}
