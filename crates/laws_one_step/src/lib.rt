//! A step of an instance can go one way only (Z.101: agent, transition), as laws of the definitions of `run_semantics`.
//!
//! `Unique` says what two steps have in common that begin alike.
#![tactic(auto)]

pub mod laws;
