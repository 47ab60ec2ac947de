//! What the definitions of a specification declare (Z.101 to Z.104).
//!
//! `Definitions` has all that is defined, a table for each kind in the order of the text, each entry with the scope
//! that it stands in and with its part of the tree. `specs/Parts` has the definitions of a text in order, `specs/Rows`
//! each kind of them, and `specs/Definitions` all kinds together. A name that stands for a sort and is none's is noted
//! as Unknown.
#![tactic(auto)]

mod agents;
mod definitions;
mod enter;
mod entries;
mod groups;
pub mod laws;
mod lists;
mod number;
mod part;
mod places;
mod signals;
mod sorts;
mod symbols;
mod values;
mod walk;

pub use definitions::Definitions;
pub use entries::{
    Agent, AgentEntry, BlockEntry, ChannelEntry, ChannelId, ConnectionEntry, ProcessEntry,
    SignalEntry, SignalKind, SignalListEntry, SignalListId, SignalSetEntry, SynonymEntry,
    ValueName,
};
pub use number::next_number;
pub use symbols::SymbolTable;
