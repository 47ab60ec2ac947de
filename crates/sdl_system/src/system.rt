//! A specification whose names are resolved.

ghost use Rattle.std.specs.Prelude.{◌≡◌, option_copied, slice_get};
ghost use Rattle.sdl_system.specs.Route.{reaches_process, target_in};
ghost use Rattle.sdl_system.specs.State.{choice_of};
ghost use Rattle.sdl_system.specs.System.{meaning_of, named, nodes_of, reaction_of};

use crate::id::{NodeId, ProcessId, StateId};
use crate::process::Process;
use crate::route::{Dest, Routes, Source, Target};
use crate::signal::Signal;
use crate::state::{Choice, Reaction};
use crate::statement::Node;
use indexmap::IndexMap;
use port_model::SignalId;
use std::marker::Model;

/// A specification whose names are resolved. Signals, with timers among them, and processes stand in the order of the
/// text, and a number is a place in these lists.
pub struct System {
    signals: Vec<Signal>,
    processes: Vec<Process>,
    routes: Routes,
    own_signals: IndexMap<String, SignalId>,
    process_names: IndexMap<String, ProcessId>,
}

/// Written out, so that the drop of all that a system may hold is proved here, and not anew in each crate that drops
/// one.
impl Drop for System {
    fn drop(self) {
        let System {
            signals: _,
            processes: _,
            routes: _,
            own_signals: _,
            process_names: _,
        } = self;
    }
}

impl Model for System {
    ghost use Rattle.sdl_system.specs.System.{SystemValue, named};
    ghost use Rattle.std.specs.Coded.{codes};
    ghost use Rattle.sdl_system.specs.contracts.expression.Expression as expression;

    ghost Value = { SystemValue };

    ghost coded = { Prim.hlevel (codes, expression.the_row.coded) };

    ghost view = { λ system. record {
      signals = system.signals.items;
      processes = system.processes.items;
      routes = system.routes;
      own_signals = named system.own_signals;
      process_names = named system.process_names;
    } };
}

impl System {
    /// The system of these signals and processes. `own_signals` has the signals that the system itself defines by their
    /// names, `process_names` the first process of each name. Takes no memory.
    pub fn new(
        signals: Vec<Signal>,
        processes: Vec<Process>,
        routes: Routes,
        own_signals: IndexMap<String, SignalId>,
        process_names: IndexMap<String, ProcessId>,
    ) -> Self
        ensures signals { result.signals ≡ signals.items }
        ensures processes { result.processes ≡ processes.items }
        ensures routes { result.routes ≡ routes }
        ensures own_signals { result.own_signals ≡ named own_signals }
        ensures process_names { result.process_names ≡ named process_names }
    {
        System {
            signals,
            processes,
            routes,
            own_signals,
            process_names,
        }
    }

    /// The signal or timer of this number.
    pub fn signal(&self, signal: SignalId) -> Option<&Signal>
        ensures { option_copied result ≡ slice_get self.now.signals signal.0 }
    {
        self.signals.get(signal.0 as usize)
    }

    /// All signals and timers, by number.
    pub fn signals(&self) -> &[Signal]
        ensures { result.now ≡ self.now.signals }
    {
        &self.signals
    }

    /// The process of this number.
    pub fn process(&self, process: ProcessId) -> Option<&Process>
        ensures { option_copied result ≡ slice_get self.now.processes process.0 }
    {
        self.processes.get(process.0 as usize)
    }

    /// All processes, by number.
    pub fn processes(&self) -> &[Process]
        ensures { result.now ≡ self.now.processes }
    {
        &self.processes
    }

    /// The nodes of a process, by number.
    pub fn nodes(&self, process: ProcessId) -> &[Node]
        ensures { result.now ≡ nodes_of self.now process }
    {
        match self.process(process) {
            Some(process) => &process.nodes,
            None => &[],
        }
    }

    /// A node of a process.
    pub fn node(&self, process: ProcessId, node: NodeId) -> Option<&Node>
        ensures { option_copied result ≡ slice_get (nodes_of self.now process) node.0 }
    {
        self.nodes(process).get(node.0 as usize)
    }

    /// Gives the reaction of a state of a process to a signal. It is that of the input or save that names the signal,
    /// else that of the asterisk, if the signal is in the valid input set. With None the signal is discarded.
    pub fn reaction(
        &self,
        process: ProcessId,
        state: StateId,
        signal: SignalId,
    ) -> Option<&Reaction>
        ensures { option_copied result ≡ reaction_of self.now process state signal }
    {
        self.process(process)?.reaction(state, signal)
    }

    /// The class of a signal in a state of a process where every condition is true, and the condition without which the
    /// signal waits.
    pub fn class_of(&self, process: ProcessId, state: StateId, signal: SignalId) -> Choice
        ensures { result ≡ choice_of (reaction_of self.now process state signal) }
    {
        Choice::of(self.reaction(process, state, signal))
    }

    /// Where a signal goes. `living` has, for each process by its number, the least number of its living instances.
    ///
    /// A Pid is its own target, and a process is its living instance with the least number. Without a destination it
    /// is, of the processes to which a path leads, in the order of the text, the first that has a living instance; else
    /// the environment if a path leads there; else nobody.
    pub fn route(&self, signal: SignalId, from: Source, to: Dest, living: &[Option<u32>]) -> Target
        ensures { result ≡ target_in self.now.routes signal from to living.now }
    {
        self.routes.target(signal, from, to, living)
    }

    /// Whether a path leads this signal from the environment to a process.
    pub fn is_reached_from_env(&self, signal: SignalId) -> bool
        ensures { result ≡ reaches_process self.now.routes signal Source.Env }
    {
        self.routes.reaches_process(signal, Source::Env)
    }

    /// The signal that the system itself defines by this name.
    pub fn signal_of_name(&self, name: &str) -> Option<SignalId>
        ensures { result ≡ meaning_of self.now.own_signals name.now }
    {
        self.own_signals.get(name).copied()
    }

    /// The first process of this name in the text.
    pub fn process_of_name(&self, name: &str) -> Option<ProcessId>
        ensures { result ≡ meaning_of self.now.process_names name.now }
    {
        self.process_names.get(name).copied()
    }
}
