//! What holds of every run whose records and words are told, as functions that do nothing.

ghost use Rattle.run_tracks.specs.MoveLaws.{NothingIsChosen, StuckHasNoOrder, TwoAreApart};

/// Of two things that may be told next each may be told after the other, and the same is left.
pub fn two_are_apart()
    ensures { TwoAreApart }
{}

/// Where all that is left can be told in some order, it can be told after whatever is told first.
pub fn nothing_is_chosen()
    ensures { NothingIsChosen }
{}

/// Where something is left and nothing of it may be told, there was no order from the beginning.
pub fn stuck_has_no_order()
    ensures { StuckHasNoOrder }
{}
