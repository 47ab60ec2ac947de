//! The names of a specification: the faults that its checks note, the scopes that its names stand in, its labels and
//! its states.
#![tactic(auto)]

mod faults;
mod labels;
mod scopes;
mod states;

pub use faults::{Fault, Faults, Rule, Token};
pub use labels::labels_of;
pub use scopes::{Names, Outward, ScopeId, ScopePath, Spaces};
pub use states::states_of;
