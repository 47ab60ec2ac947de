//! What holds of the definitions, as functions that do nothing.

ghost use Rattle.build_statements.specs.Broken.{BrokenListed, ListedBroken};
ghost use Rattle.build_statements.specs.BrokenAnswers.{BrokenListedAnswer, ListedBrokenAnswer};
ghost use Rattle.build_statements.specs.Later.{LaterNoted};
ghost use Rattle.build_statements.specs.Made.{BodyMade, JoinsAreNamed, LabelsStand};

/// The fault that is told of a later part stands for all of them.
pub fn later_noted()
    ensures { LaterNoted }
{}

/// A table that is made of bodies, and to which one more is added, is made of them all.
pub fn body_made()
    ensures { BodyMade }
{}

/// Each label of the bodies has statements that stand behind it in one of them.
pub fn labels_stand()
    ensures { LabelsStand }
{}

/// Each join of the body of a transition leads to a label that some name stands for.
pub fn joins_are_named()
    ensures { JoinsAreNamed }
{}

/// Each fault of an answer is a rule that is broken in it.
pub fn listed_is_broken_answer()
    ensures { ListedBrokenAnswer }
{}

/// Each rule that is broken in an answer is among its faults.
pub fn broken_is_listed_answer()
    ensures { BrokenListedAnswer }
{}

/// Each fault of a transition is a rule that is broken in it.
pub fn listed_is_broken()
    ensures { ListedBroken }
{}

/// Each rule that is broken in a transition is among its faults.
pub fn broken_is_listed()
    ensures { BrokenListed }
{}
