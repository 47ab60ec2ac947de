//! What counts of signals tell, as functions that do nothing.

ghost use Rattle.settle_checks.specs.Covered.{CoveredAreInOrder, SendsAreInTurn};

use settle_meaning::laws::counts_keep_order;

/// If by each time no more was taken than was sent, nothing is taken before it was sent (Z.101: input port).
pub fn covered_are_in_order()
    ensures { CoveredAreInOrder }
{
    counts_keep_order();
}

/// What a record sends to an instance is in the order of its times.
pub fn sends_are_in_turn()
    ensures { SendsAreInTurn }
{}
