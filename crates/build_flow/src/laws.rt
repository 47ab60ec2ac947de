//! What holds of the definitions, as functions that do nothing.

ghost use Rattle.build_flow.specs.Laws.{ComesMet, EndlessListed, ListedEndless, ListedStays, MetComes, MetReached, PassedRuns, ReachedMet, RunsPassed, StaysListed};

/// Where a transition is said to be passed, a path through it runs off its end.
pub fn passed_runs_off()
    ensures { PassedRuns }
{}

/// And where a path runs off its end, it is said to be passed.
pub fn runs_off_passed()
    ensures { RunsPassed }
{}

/// Each terminator that is listed as met is one to which a path comes.
pub fn met_is_come_to()
    ensures { MetComes }
{}

/// And each such terminator is listed.
pub fn come_to_is_met()
    ensures { ComesMet }
{}

/// Each `NoEnd` of the list stands at a transition with a path that runs off its end.
pub fn listed_is_endless()
    ensures { ListedEndless }
{}

/// And each such transition is in the list.
pub fn endless_is_listed()
    ensures { EndlessListed }
{}

/// The start reaches each terminator that is met from it and from the labels of the joins that it reaches.
pub fn met_is_reached()
    ensures { MetReached }
{}

/// And each terminator that it reaches is met.
pub fn reached_is_met()
    ensures { ReachedMet }
{}

/// Each `NoState` of the list stands at a `nextstate -` that the start reaches.
pub fn listed_is_reached()
    ensures { ListedStays }
{}

/// And each such `nextstate -` is in the list.
pub fn reached_is_listed()
    ensures { StaysListed }
{}
