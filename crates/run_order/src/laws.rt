//! What holds of every run in one order, as functions that do nothing.

ghost use Rattle.run_order.specs.OrderLaws.{EachIsToldOnce, NothingIsLost};

/// All that a step does outside is still to be done as it begins, in its order, and nothing else is.
pub fn nothing_is_lost()
    ensures { NothingIsLost }
{}

/// Each event of each instance is told once, and so is each line of the script that is heard.
pub fn each_is_told_once()
    ensures { EachIsToldOnce }
{}
