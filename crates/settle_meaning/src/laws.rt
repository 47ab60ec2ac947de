//! What holds of runs, histories and reports, as functions that do nothing.

ghost use Rattle.settle_meaning.specs.MeaningLaws.{
  ExpiriesHaveSets,
  LateIsNothing,
  PutsComeFromOutside,
  QuietDrawsChangeNothing,
  RestsAreForGood,
  RunsHearWhatIsDrawn,
  SettledIsWholeOrCut,
  StoppedStays,
};
ghost use Rattle.settle_meaning.specs.OrderLaws.{CountsKeepOrder};
ghost use Rattle.settle_meaning.specs.SettledLaws.{SettledReportsAreSettled, SettledReportsHaveHeadline};

/// A draw after a run is a part of its history (Z.101: input port).
pub fn runs_hear_what_is_drawn()
    ensures { RunsHearWhatIsDrawn }
{}

/// An instance that rests, and into whose port no signal is put any more, rests for good (Z.101: agent).
pub fn rests_are_for_good()
    ensures { RestsAreForGood }
{}

/// If no more signals are drawn in the end than by some moment, none was put in between.
pub fn late_is_nothing()
    ensures { LateIsNothing }
{}

/// If no more waits in a port after some draws than before, they have changed nothing (Z.102: input, timer).
pub fn quiet_draws_change_nothing()
    ensures { QuietDrawsChangeNothing }
{}

/// A draw from a port after its stop changes nothing (Z.102: stop).
pub fn stopped_stays()
    ensures { StoppedStays }
{}

/// A timer expires only by a set that was made before, in each legal history (Z.102: timer).
pub fn expiries_have_sets()
    ensures { ExpiriesHaveSets }
{}

/// An owner's calls put no signals.
pub fn puts_come_from_outside()
    ensures { PutsComeFromOutside }
{}

/// A settled report is whole or cut.
pub fn settled_is_whole_or_cut()
    ensures { SettledIsWholeOrCut }
{}

/// By counts it is told whether what is taken comes after what is sent (Z.101: input port).
pub fn counts_keep_order()
    ensures { CountsKeepOrder }
{}

/// A settled report is settled for all behaviours of its processes.
pub fn settled_reports_are_settled()
    ensures { SettledReportsAreSettled }
{}

/// A settled report has the headline: each instance has done what its process does, over the standard's port.
pub fn settled_reports_have_headline()
    ensures { SettledReportsHaveHeadline }
{}
