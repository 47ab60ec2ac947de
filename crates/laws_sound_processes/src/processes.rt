//! What holds of the behaviour of a process in which no rule is broken, and of its runs.

ghost use Rattle.laws_sound_processes.specs.ProcessLaws.{BehavioursAreSound, RunsHaveKinds};
ghost use Rattle.laws_sound_processes.specs.Tables.{StateTablesAreSound};

/// Where names around a process stand for what is there, and no rule is broken in it, what it does is sound (Z.101).
pub fn behaviours_are_sound()
    ensures { BehavioursAreSound }
{}

/// In a run of what a process means, what a term of a kind comes to is a value of that kind (Z.104: expressions).
pub fn runs_have_kinds()
    ensures { RunsHaveKinds }
{}

/// The numbers in the table of each state are those of something, and the start is a node (Z.101: state, start).
pub fn state_tables_are_sound()
    ensures { StateTablesAreSound }
{}
