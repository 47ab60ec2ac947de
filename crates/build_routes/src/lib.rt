//! Which processes a signal reaches, and which signals a process may get (Z.101: channels, connections, valid input
//! signal sets).
//!
//! `specs/Paths` defines on which ways a signal goes: along paths of channels that carry it, over the border of a block
//! where the ways are joined, and by implied channels in a scope without any. `routes_of` makes the table of routes,
//! which tells for each source and signal just the processes to which a path leads, and whether one leads to the
//! environment; `valid_sets` makes the valid input sets. The network and the sets of its signal lists are those of
//! the module `network`.
#![tactic(auto)]

mod arrivals;
mod graph;
mod known;
pub mod laws;
mod lists;
mod named;
mod network;
mod receiver;
mod table;
mod valid;
mod word;

pub use graph::Side;
pub use network::{
    Block, ChannelPath, Connect, End, Item, ListId, Network, PathId, Process, Scope, SignalList,
    SignalSets, counted,
};
pub use table::routes_of;
pub use valid::valid_sets;
