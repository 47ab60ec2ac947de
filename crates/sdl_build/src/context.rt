//! What the definitions of a specification come to, and each of its processes (Z.101 to Z.104).
//!
//! What joins the agents comes first, then what the heading of a process says and what it has of its own, and then the
//! process, in what stands around it. `specs/Context` has what the definitions come to, `specs/ProcessScope` what
//! stands around each process, and `specs/Processes` when a process is what its text says.

mod connections;
mod heading;
mod lists;
mod narrow;
mod process;
mod process_names;
mod reaching;
mod tables;

pub use connections::Connections;
pub use process::process_at;
