//! What it means that an instance of a process runs (Z.101: agents; Z.102: transitions, timers, create), as definitions
//! with their laws.
//!
//! `Leads` says which event leads from one place to another, with which calls of the instance's own port and what it
//! does outside; `Runs` is a run of a process on a history of its port, `Goes` how far a piece of work brings an
//! instance, and `HasRun` all that an instance did. What lies outside of an instance is a `World`.
#![tactic(auto)]

pub mod laws;
mod world;

pub use world::World;
