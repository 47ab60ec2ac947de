//! What holds of the whole life of a port, as functions that do nothing. The headline follows from the contracts of an
//! owner's calls alone; the law of counts speaks of lists.
ghost use Rattle.input_port.specs.Counts.{CountsTell, NoFewerAreDrawn};
ghost use Rattle.input_port.specs.Headline.{NothingIsLeft, OwnersHaveHistories};

/// Each owner's port is what a legal history of the standard's port makes of the empty one. It has just the owner's
/// own calls, in order, and the entries that it drew, each where it drew it. No expiry among these came before its due
/// time.
#[tactic(auto, using(crate::proofs::Headline::owners_have_histories))]
pub fn owners_have_histories()
    ensures { OwnersHaveHistories }
{}

/// Where a sender was gathered, a take that finds nothing has drawn all that the sender put.
pub fn nothing_is_left()
    ensures { NothingIsLeft }
{}

/// Where senders are gathered, no two of them of one number or origin, no fewer signals are drawn than they put.
#[tactic(auto, using(crate::proofs::Counting::no_fewer))]
pub fn no_fewer_are_drawn()
    ensures { NoFewerAreDrawn }
{}

/// Where no more are drawn than they put, all of these are drawn, those of each origin in their order, and nothing
/// else.
#[tactic(auto, using(crate::proofs::Counting::counts_tell))]
pub fn counts_tell()
    ensures { CountsTell }
{}
