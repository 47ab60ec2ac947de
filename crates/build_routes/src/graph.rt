//! The graph in which signals flow: its nodes are processes, the environment and the ends of channels, and a step leads
//! from one to another (Z.101: channel, connection).
//!
//! `specs/Nodes` says what a node is, and `specs/Steps` which steps there are.

mod joint;
mod node;
mod place;
mod steps;

pub use joint::Side;
pub use node::Node;
pub use place::{is_implied, same_end, same_scope};
pub use steps::graph_from;
