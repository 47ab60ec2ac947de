//! Whom a serial run creates, where its signals go and when it ends, as functions that do nothing.

ghost use Rattle.laws_creates.specs.Creates.{EachHasOneRecord, EachIsCreatedOnce};
ghost use Rattle.laws_creates.specs.Ends.{EndsAreNotBefore};
ghost use Rattle.laws_creates.specs.Steps.{EachIsCounted, EachIsCountedAmid, NullsHaveCause};
ghost use Rattle.laws_creates.specs.Steps.{OutputsAreMeant, SignalsAreMeant};

/// The instances are those with which the system begins and, behind them in order, one for each create that gave a
/// number, of just that process, with that number and with its creator as parent. So it is with the records of a
/// report, whose numbers are those from 1 on (Z.102: create).
pub fn each_is_created_once()
    ensures instances { EachIsCreatedOnce }
    ensures records { EachHasOneRecord }
{}

/// A create gives no number only where as many instances of its process live as it may have at most, where all numbers
/// were given, or where the system has no such process (Z.102: create).
pub fn nulls_have_cause()
    ensures { NullsHaveCause }
{}

/// No event of a report has a time past its end, be it whole or cut (Z.101: system).
pub fn ends_are_not_before()
    ensures { EndsAreNotBefore }
{}

/// Each signal that an instance sends, and each of the script, goes where the routes of the system lead it, by the
/// instances that live at that moment. Each instance that hasn't ended counts there (Z.101: channel; Z.102: output).
pub fn targets_are_meant()
    ensures outputs { OutputsAreMeant }
    ensures signals { SignalsAreMeant }
    ensures counted { EachIsCounted }
    ensures counted_amid { EachIsCountedAmid }
{}
