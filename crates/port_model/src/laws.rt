//! What holds of every port, whatever happens to it: laws on the definitions, as functions that do nothing.
ghost use Rattle.std.specs.Prelude.{◌≡◌};
ghost use Rattle.port_model.specs.declared.plain_port.TheConstants.{MOST_SETS};
ghost use Rattle.port_model.specs.Laws.{KeepsOrder, KeepsSaved, ResetsForGood, SpentForGood, StopsForGood};

/// The signals of one sender are never reordered by what happens to a port.
pub fn keeps_order()
    ensures { KeepsOrder }
{}

/// A saved entry stays.
pub fn keeps_saved()
    ensures { KeepsSaved }
{}

/// A timer that was reset is never consumed, unless it is set again.
pub fn resets_for_good()
    ensures { ResetsForGood }
{}

/// After a stop nothing is consumed.
pub fn stops_for_good()
    ensures { StopsForGood }
{}

/// No timer runs again by a set by which it runs no more.
pub fn spent_for_good()
    ensures { SpentForGood }
{}

/// A port counts 2^62 sets: the number itself, which `sets_spent` and `set` name by the constant.
pub fn counts_sets()
    ensures { MOST_SETS ≡ 4611686018427387904 }
{}
