//! The rules that a specification breaks, in the subject's words: in its definitions, and in the states and transitions
//! of its processes. Those of what joins its agents are said in `build_network`.
//!
//! Laws of the definitions alone, as functions that do nothing: a fault is in the lists of which `build` tells the
//! first exactly where such a rule is broken, and a limit is told before all that are none.
#![tactic(auto)]

pub mod bodies;
pub mod definitions;
pub mod instances;
pub mod limits;
