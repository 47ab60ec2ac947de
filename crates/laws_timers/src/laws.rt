//! What holds of the timers of each serial run, as functions that do nothing.

ghost use Rattle.laws_timers.specs.Fused.{
  ExpiriesAreDue,
  ExpiriesFollowSets,
  FusesWereSet,
  HistoriesAreInTime,
  NoTimerIsDue,
  RunningTimersHaveFuses,
};

/// Each fuse that expires does so at a time of the clock that isn't before its due time. So does each timer whose time
/// has come as it is set: no expiry in the history of a port is too early (Z.102: timer).
pub fn expiries_are_due()
    ensures fuses { ExpiriesAreDue }
    ensures ports { HistoriesAreInTime }
{}

/// Each timer that runs in the port of an instance has its fuse among those that wait for their time: no expiry is
/// lost (Z.102: timer).
pub fn running_timers_have_fuses()
    ensures { RunningTimersHaveFuses }
{}

/// At the end of a whole run no timer is left that runs and is due by then (Z.102: timer).
pub fn no_timer_is_due()
    ensures { NoTimerIsDue }
{}

/// Each fuse that waits was made by a set of its instance: the history of its port has that set, with its key, its
/// number and its due time (Z.102: timer).
pub fn fuses_were_set()
    ensures { FusesWereSet }
{}

/// Each expiry in the history of a port stands behind the set that it is of, with its key, its number and its due
/// time: no timer expires that wasn't set (Z.102: timer).
pub fn expiries_follow_sets()
    ensures { ExpiriesFollowSets }
{}
