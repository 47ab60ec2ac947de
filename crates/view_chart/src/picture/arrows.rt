//! What the arrows of signals look like, and whether they slope.

use crate::chart::{Arrow, Fate, Spot, Tail, Tip};

/// The classes of an arrow: of its line, its tip, and its label.
#[derive(Clone, Copy)]
pub struct Look {
    pub line: &'static str,
    pub tip: &'static str,
    pub label: &'static str,
}

const TAKEN: Look = Look {
    line: "msg",
    tip: "a",
    label: "halo",
};

const LOST: Look = Look {
    line: "lost",
    tip: "b",
    label: "halo losttext",
};

/// The look of an arrow: a signal that isn't taken is seen to be lost.
pub fn look_of(arrow: &Arrow) -> Look {
    match arrow.fate {
        Fate::Taken => TAKEN,
        Fate::Discarded | Fate::Untaken => LOST,
    }
}

/// From where to where an arrow slopes, if it does.
pub fn slope_of(arrow: &Arrow) -> Option<(Spot, Spot)> {
    match (arrow.tail, arrow.tip) {
        (Tail::At(from), Tip::At(to)) if from.row < to.row => Some((from, to)),
        _ => None,
    }
}
