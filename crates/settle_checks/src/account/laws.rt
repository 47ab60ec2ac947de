//! What the counts of all ports tell, as functions that do nothing.

ghost use Rattle.settle_checks.specs.Account.{CountedHavePut};

use crate::gathered::laws::all_is_put;
use crate::laws::{enough_is_heard, enough_is_put};

/// Just what was sent to an instance was drawn from its port, once that is counted and enough was put from all places
/// (Z.101: input port; Z.102: output).
pub fn counted_have_put()
    ensures { CountedHavePut }
{
    all_is_put();
    enough_is_put();
    enough_is_heard();
}
