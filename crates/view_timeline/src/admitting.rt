//! Who lives from the start on.

ghost use Rattle.std.specs.Prelude.{◌≡◌, ◌==◌, ◌&&◌, ◌||◌, ℕ, OnOk};
ghost use Rattle.view_timeline.specs.Lives.{is_null};
ghost use Rattle.view_timeline.specs.Traffic.{ledger_of};

use crate::traffic::Traffic;
use port_model::Pid;
use run_record::Record;
use std::alloc::AllocError;

/// An instance lives from the start on if nobody created it.
pub fn admit(traffic: &mut Traffic<'_>, of: &Record) -> Result<(), AllocError>
    ensures links { traffic.new.links ≡ traffic.old.links }
    ensures begun { OnOk result ((n : ℕ) → (ledger_of traffic.new).begun n
        ≡ (ledger_of traffic.old).begun n || ((of.now.pid == n) && is_null of.now.parent)) }
    ensures arrows { traffic.new.arrows ≡ traffic.old.arrows }
    ensures rows { traffic.new.rows ≡ traffic.old.rows }
    ensures living { OnOk result ((n : ℕ) → (ledger_of traffic.new).living n
        ≡ (ledger_of traffic.old).living n || ((of.now.pid == n) && is_null of.now.parent)) }
{
    match of.parent() {
        Pid::Null => traffic.begin(of.pid()),
        _ => Ok(()),
    }
}
