//! What is known of what is left of an instance, as functions that do nothing.

ghost use Rattle.settle_closing.specs.ClosingLaws.{ClosedHaveHistories, ClosedHavePut, LeftWithoutPeers};

use run_semantics::laws::runs_are_legal;
use settle_meaning::laws::{
    expiries_have_sets, puts_come_from_outside, quiet_draws_change_nothing, rests_are_for_good,
    runs_hear_what_is_drawn, stopped_stays,
};

/// A closed instance has a history of its port, once all that was put is drawn (Z.101: agent, input port).
pub fn closed_have_histories()
    ensures { ClosedHaveHistories }
{
    runs_are_legal();
    runs_hear_what_is_drawn();
    rests_are_for_good();
    quiet_draws_change_nothing();
    stopped_stays();
    expiries_have_sets();
    puts_come_from_outside();
}

/// Its senders have put the end of what its record sends (Z.102: output).
pub fn closed_have_put()
    ensures { ClosedHavePut }
{}

/// The same is known of it without its senders.
pub fn left_without_peers()
    ensures { LeftWithoutPeers }
{}
