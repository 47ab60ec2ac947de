//! The name of what was put.

use std::marker::Brand;

/// The name of all that was put in a run, and of the owners of the ports as nobody puts any more. A run picks it once
/// its threads are joined, and all that is gathered then has it as a type parameter.
pub trait Fixed {
    ghost use Rattle.std.specs.Prelude.{ℕ, List};
    ghost use Rattle.port_model.specs.Ends.{OwnerState};
    ghost use Rattle.port_model.specs.declared.values.item.Item.{Item};

    /// The signals that were put into the port of a number by the senders of a place, in their order.
    ghost puts: { ℕ → ℕ → List Item };

    /// The owner of the port of a place, before it gathers.
    ghost owners: { ℕ → OwnerState };
}

impl Fixed for Brand {
    ghost use Rattle.std.specs.Prelude.{[]};
    ghost use Rattle.port_model.specs.Ends.{no_port};
    ghost use Rattle.input_port.specs.QueueEnds.{newborn};

    ghost puts = { λ _ _. [] };

    ghost owners = { λ _. newborn no_port 0 };
}
