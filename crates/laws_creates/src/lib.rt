//! What a serial run creates, when it ends and where its signals go (Z.101: system, agent), as laws of the definitions
//! of `serial_order`.
//!
//! `Creates` says which instances there are, `Steps` why a create gives none and where a signal goes, and `Ends` when a
//! report ends.
#![tactic(auto)]

pub mod laws;
