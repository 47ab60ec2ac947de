//! What is known of a port that was counted, as functions that do nothing.

ghost use Rattle.settle_checks.specs.Gathering.{AllIsPut, LateIsNothing};

/// Of each place just what its senders have put was drawn, each signal once and in their order, and no other signal was
/// drawn, whatever the schedule was.
pub fn all_is_put()
    ensures { AllIsPut }
{}

/// If no more signals were drawn in the end than before the senders were gathered, none was drawn since.
pub fn late_is_nothing()
    ensures { LateIsNothing }
{}
