//! What holds of every serial run, as functions that do nothing.

ghost use Rattle.serial_order.specs.Laws.{EachIsMatched, EachIsTold, EachReadsTheClock, LinesAreHeard};

/// Each instance has the record that the list of all that happened tells, and it is a run of its process on the history
/// of its port that this list tells (Z.101: agent).
pub fn each_is_told()
    ensures { EachIsTold }
{}

/// Each signal that is put was sent, and each that is sent is put once, in the order of its sender (Z.101: signal).
pub fn each_is_matched()
    ensures { EachIsMatched }
{}

/// The lines of the script are heard in their order.
pub fn lines_are_heard()
    ensures { LinesAreHeard }
{}

/// Each time in a record is the clock's time as the event happened (Z.101: system).
pub fn each_reads_the_clock()
    ensures { EachReadsTheClock }
{}
