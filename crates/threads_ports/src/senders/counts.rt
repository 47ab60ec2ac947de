//! What rows tell of the signals that a port has drawn, as functions that do nothing.

ghost use Rattle.threads_ports.specs.Rows.{AllIsDrawn, EndsAreDrawn, NoFewerAreDrawn, NoOtherIsDrawn};
ghost use Rattle.threads_ports.specs.Rows.{NothingMoreIsDrawn, RowsStay};

/// A row that holds of what was drawn holds of that and of whatever is drawn later.
pub fn rows_stay()
    ensures { RowsStay }
{}

/// No fewer signals were drawn than the rows tell. Where more were, a sender has no row here.
pub fn no_fewer_are_drawn()
    ensures { NoFewerAreDrawn }
{}

/// Where no more were drawn than the rows tell, of each origin just the end of what it sends was drawn that its row
/// tells, whatever the schedule was: all of it where the row tells as many, and nothing where it has no row. Each
/// signal is of the origin of a row.
pub fn ends_are_drawn()
    ensures each { EndsAreDrawn }
    ensures all { AllIsDrawn }
    ensures no_other { NoOtherIsDrawn }
{}

/// Where no more signals were drawn in the end than the rows tell of what was drawn by some moment, no signal was drawn
/// after that moment.
pub fn nothing_more_is_drawn()
    ensures { NothingMoreIsDrawn }
{}
