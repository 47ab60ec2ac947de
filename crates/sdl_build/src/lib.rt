//! The system of a specification, with every check of it (Z.101 to Z.104).
//!
//! The definitions come first: what they are, their names, and what their constant expressions come to. Then what joins
//! the agents, then the bodies of the processes, each in what stands around it. `specs/Faulty` has the rules that are
//! broken, and `specs/Built` when a system is what the specification says.
#![tactic(auto)]

mod context;
mod defined;
mod error;
pub mod laws;
mod own;
mod resolve;
mod signals;
mod system;

pub use error::BuildError;
pub use resolve::build;
