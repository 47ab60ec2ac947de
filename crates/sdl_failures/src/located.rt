//! Where a node, a condition or an input of a process stands in the tree of its text.
//!
//! The nodes of a process are numbered as `build_statements::nodes` adds them, which is from the end of a transition to its
//! beginning, and its conditions as the text has them. What is answered has the kind of the node's statement
//! (`specs/Sites`); a process has the name of that which is asked for.

mod conditions;
mod finder;
mod inputs;
mod processes;
mod site;

pub use conditions::{Condition, condition_at};
pub use finder::site_of;
pub use inputs::input_of;
pub use processes::definition_of;
pub use site::Site;
