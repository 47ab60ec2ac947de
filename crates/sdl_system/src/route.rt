//! Where a signal goes (Z.101: channel, connection; Z.102: output).

ghost use Rattle.std.specs.Prelude.{◌≡◌, filter};
ghost use Rattle.std.specs.List.{list_any};
ghost use Rattle.sdl_system.specs.Route.{first_living, is_receiver, list_of, living_in, pid_target, reach_of, reaches_env, reaches_process, target_in};

use crate::id::ProcessId;
use port_model::{Pid, SignalId};

/// Who sends a signal: the environment, or an instance of a process.
#[derive(Clone, Copy, PartialEq, Eq)]
pub enum Source {
    Env,
    Process(ProcessId),
}

/// The destination that an output names.
#[derive(Clone, Copy, PartialEq, Eq)]
pub enum Dest {
    /// Nothing: the signal goes along a path.
    Path,
    /// A process.
    Process(ProcessId),
    /// A Pid. No path is asked for.
    Pid(Pid),
}

/// Whom a signal reaches: an instance by its number, the environment, the null Pid, or nobody.
#[derive(Clone, Copy, Debug, PartialEq, Eq)]
pub enum Target {
    Instance(u32),
    Env,
    Null,
    Nobody,
}

/// A list of receivers, by its number.
#[derive(Clone, Copy, PartialEq, Eq)]
pub struct ReceiversId(pub u32);

/// Where paths lead a signal from one source.
#[derive(Clone, Copy, PartialEq, Eq)]
pub struct Reach {
    /// The processes.
    pub receivers: ReceiversId,
    /// Whether the source itself is one of them, where it stands in the list.
    pub itself: bool,
    /// Whether a path leads to the environment.
    pub env: bool,
}

/// Where paths lead each signal from each source. Sources share their lists of receivers. Whether a source reaches
/// itself is kept apart from them, since implied channels lead from each process to all the others.
pub struct Routes {
    /// Lists of processes, each in the order of the text.
    pub lists: Vec<Vec<ProcessId>>,
    /// From the environment: for each signal by its number.
    pub env: Vec<Reach>,
    /// From each process by its number: for each signal by its number.
    pub processes: Vec<Vec<Reach>>,
}

/// Written out, so that it is proved here, and not anew in each crate that drops one.
impl Drop for Routes {
    fn drop(self) {
        let Routes {
            lists: _,
            env: _,
            processes: _,
        } = self;
    }
}

impl Routes {
    /// Where the signal goes. `living` has, for each process by its number, the least number of its living instances.
    ///
    /// A Pid is its own target, and a process is its living instance with the least number. Without a destination it
    /// is, of the processes to which a path leads, in the order of the text, the first that has a living instance; else
    /// the environment if a path leads there; else nobody.
    pub fn target(&self, signal: SignalId, from: Source, to: Dest, living: &[Option<u32>]) -> Target
        ensures { result ≡ target_in self.now signal from to living.now }
    {
        match to {
            Dest::Pid(pid) => pid_target(pid),
            Dest::Process(process) => match living_in(living, process) {
                Some(instance) => Target::Instance(instance),
                None => Target::Nobody,
            },
            Dest::Path => self.along_paths(signal, from, living),
        }
    }

    fn along_paths(&self, signal: SignalId, from: Source, living: &[Option<u32>]) -> Target
        ensures { result ≡ target_in self.now signal from Dest.Path living.now }
    {
        let Some(reach) = self.reach(signal, from) else {
            return Target::Nobody;
        };
        match first_living(living, self.list(reach), reach.itself, from) {
            Some(instance) => Target::Instance(instance),
            None if reach.env => Target::Env,
            None => Target::Nobody,
        }
    }

    /// Whether a path leads the signal from the source to some process.
    pub fn reaches_process(&self, signal: SignalId, from: Source) -> bool
        ensures { result ≡ reaches_process self.now signal from }
    {
        match self.reach(signal, from) {
            Some(reach) => has_receiver(self.list(reach), reach.itself, from),
            None => false,
        }
    }

    /// Whether a path leads the signal from the source to the environment.
    pub fn reaches_env(&self, signal: SignalId, from: Source) -> bool
        ensures { result ≡ reaches_env self.now from signal }
    {
        match self.reach(signal, from) {
            Some(reach) => reach.env,
            None => false,
        }
    }

    fn reach(&self, signal: SignalId, from: Source) -> Option<Reach>
        ensures { result ≡ reach_of self.now from signal }
    {
        let row = match from {
            Source::Env => &self.env,
            Source::Process(process) => self.processes.get(process.0 as usize)?,
        };
        row.get(signal.0 as usize).copied()
    }

    fn list(&self, reach: Reach) -> &[ProcessId]
        ensures { result.now ≡ list_of self.now reach }
    {
        match self.lists.get(reach.receivers.0 as usize) {
            Some(list) => list,
            None => &[],
        }
    }
}

/// The least living instance of the first of these processes that has one and is a receiver.
fn first_living(
    living: &[Option<u32>],
    list: &[ProcessId],
    itself: bool,
    from: Source,
) -> Option<u32>
    ensures { result ≡ first_living living.now (filter (is_receiver itself from) list.now) }
{
    for process in list {
        if is_receiver(itself, from, *process)
            && let Some(instance) = living_in(living, *process)
        {
            return Some(instance);
        }
    }
    None
}

/// Whether one of these processes is a receiver.
fn has_receiver(list: &[ProcessId], itself: bool, from: Source) -> bool
    ensures { result ≡ list_any (is_receiver itself from) list.now }
{
    list.iter()
        .any(|process| is_receiver(itself, from, *process))
}

/// Whether a process of a list gets what the source sends.
fn is_receiver(itself: bool, from: Source, process: ProcessId) -> bool
    ensures { result ≡ is_receiver itself from process }
{
    match from {
        Source::Env => true,
        Source::Process(own) => itself || own.0 != process.0,
    }
}

fn living_in(living: &[Option<u32>], process: ProcessId) -> Option<u32>
    ensures { result ≡ living_in living.now process }
{
    living.get(process.0 as usize).copied().flatten()
}

fn pid_target(pid: Pid) -> Target
    ensures { result ≡ pid_target pid }
{
    match pid {
        Pid::Null => Target::Null,
        Pid::Env => Target::Env,
        Pid::Of(number) => Target::Instance(number),
    }
}
