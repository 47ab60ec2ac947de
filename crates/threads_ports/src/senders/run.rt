//! The name of a run.

use std::marker::Brand;

/// A run by its name, which says what system is run, which port is whose, and from which table numbers are drawn. A run
/// picks it once its ports are made, and all that is of the run has it as a type parameter.
pub trait Run {
    ghost use Rattle.std.specs.Prelude.{ℕ, Option};
    ghost use Rattle.std.specs.declared.alloc.Global.{Global};
    ghost use Rattle.atomic_table.specs.Seated.{TableId};
    ghost use Rattle.crossbeam_queue.specs.SegTies.{SegId};
    ghost use Rattle.sdl_system.specs.System.{SystemValue};

    /// The system that is run. None: any.
    ghost system: { Option SystemValue };

    /// For the number of each instance its port.
    ghost ports: { ℕ → SegId Global };

    /// The table of the numbers.
    ghost table: { TableId };
}

impl Run for Brand {
    ghost use Rattle.std.specs.Prelude.{None};
    ghost use Rattle.port_model.specs.Ends.{no_port};
    ghost use Rattle.threads_ports.specs.Run.{no_table};

    ghost system = { None };

    ghost ports = { λ _. no_port };

    ghost table = { no_table };
}
