//! What a system has of the definitions of a specification beside its processes and routes.

ghost use Rattle.std.specs.Prelude.{◌≡◌, ℕ, List, map, IfOk};
ghost use Rattle.sdl_build.specs.Built.{named_processes, own_from};
ghost use Rattle.sdl_build.specs.Signals.{signal_of, signals_from};
ghost use Rattle.build_definitions.specs.Definitions.{rows_of};
ghost use Rattle.build_names.specs.Names.{first_of};
ghost use Rattle.sdl_system.specs.System.{meaning_of, named};

use crate::own::{own_signals, process_names};
use crate::signals::signals_of;
use build_constants::ConstantTable;
use build_definitions::Definitions;
use indexmap::IndexMap;
use port_model::SignalId;
use sdl_system::{ProcessId, Signal};
use std::alloc::{AllocError, Global};

/// The parts of a system that come from the definitions of a specification, except its processes and routes.
#[derive(Drop)]
pub struct Defined {
    pub signals: Vec<Signal>,
    /// The signals of the system's own scope by their names.
    pub own_signals: IndexMap<String, SignalId>,
    /// The first process of each name.
    pub process_names: IndexMap<String, ProcessId>,
}

impl Defined {
    /// Makes those of these definitions, with the default durations of timers among these constants.
    pub fn of(
        alloc: Global,
        definitions: &Definitions<'_>,
        constant_table: &ConstantTable,
    ) -> Result<Self, AllocError>
        ensures signals { IfOk result (λ defined. map signal_of defined.signals.items
            ≡ signals_from (rows_of definitions.now).signals constant_table.now.durations.items) }
        ensures own_signals { IfOk result (λ defined. (text : List ℕ) → meaning_of (named defined.own_signals) text
            ≡ first_of (own_from 0 (rows_of definitions.now).signals) text) }
        ensures process_names { IfOk result (λ defined. (text : List ℕ) → meaning_of (named defined.process_names) text
            ≡ first_of (named_processes 0 (rows_of definitions.now).processes) text) }
    {
        let signals = signals_of(alloc, &definitions.signals, &constant_table.durations)?;
        let own_signals = own_signals(alloc, &definitions.signals)?;
        let process_names = process_names(alloc, &definitions.processes)?;
        Ok(Defined {
            signals,
            own_signals,
            process_names,
        })
    }
}
