//! What holds of each serial report, as a function that does nothing.

ghost use Rattle.laws_whole.specs.Whole.{SerialReportsAreWholeOrCut, EachMissingIsNamed};

use laws_timers::laws::{expiries_are_due, no_timer_is_due};
use run_semantics::laws::runs_are_legal;
use serial_order::laws::{each_is_matched, each_is_told, lines_are_heard};
use settle_meaning::laws::expiries_have_sets;

/// The report of a serial run is whole or cut: each instance has a record, each record is a run on a legal history of
/// its port, into which all was put that was sent there, and signals go where the routes lead them (Z.101: system,
/// agent, input port; Z.102: output, create, timer). Signals are missing only to a number that the script or an output
/// names.
pub fn each_serial_report_is_whole_or_cut()
    ensures whole { SerialReportsAreWholeOrCut }
    ensures named { EachMissingIsNamed }
{
    each_is_told();
    each_is_matched();
    lines_are_heard();
    expiries_are_due();
    no_timer_is_due();
    runs_are_legal();
    expiries_have_sets();
}
