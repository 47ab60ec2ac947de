//! What holds of a system that is what a specification says.

ghost use Rattle.laws_sound_system.specs.Laws.{BuiltProcessesAreSound, BuiltRunsHaveSorts, BuiltRunsLeadToStates, HeadingsAreSound, NamesAreSound, NamesAreThere, ReceiversAreThere, TimersBelong};

/// Each name around a process stands for what is there.
pub fn names_are_sound()
    ensures { NamesAreSound }
{}

/// Each behaviour that the text of a process has is sound (Z.101: process).
pub fn built_processes_are_sound()
    ensures { BuiltProcessesAreSound }
{}

/// A run of the process fails as Undefined only where a variable is asked for that has no value (Z.104: variable
/// access).
pub fn built_runs_lead_to_states()
    ensures { BuiltRunsLeadToStates }
{}

/// In a run of it each variable that has a value has one of its sort (Z.102: variable).
pub fn built_runs_have_sorts()
    ensures { BuiltRunsHaveSorts }
{}

/// The counts, formal parameters and initial values of each process fit (Z.101: process; Z.102: variable definition).
pub fn headings_are_sound()
    ensures { HeadingsAreSound }
{}

/// Each timer belongs to a process of the system (Z.102: timer).
pub fn timers_belong()
    ensures { TimersBelong }
{}

/// The names that the environment uses stand for signals and processes of the system.
pub fn names_are_there()
    ensures { NamesAreThere }
{}

/// Those to whom a signal is led are processes of the system (Z.101: channel).
pub fn receivers_are_there()
    ensures { ReceiversAreThere }
{}
