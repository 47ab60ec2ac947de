//! Channels, connects and signal lists (Z.101: channel, connection, signal list): what joins the agents of a system, as
//! plain data, and which signals a list stands for.
//!
//! `specs/SignalLists` defines for which signals a list stands: for those that it names, and for those of the lists
//! that it names. `SignalSets` tells for each list just these. `Graph` tells which signals flow where, by steps that
//! are open to the signals of a list or to all. The network knows no text; on which ways signals go in it `build_routes`
//! says.

mod graph;
mod joined;
mod list;
pub mod mask;
mod number;
mod signal_sets;

pub use graph::{Graph, Step};
pub use joined::{Block, ChannelPath, Connect, End, Network, PathId, Process, Scope, Source};
pub use list::{Item, ListId, SignalList};
pub use number::counted;
pub use signal_sets::SignalSets;
