//! A serial run can go one way only (Z.101: system), as laws of the definitions of `serial_order`.
//!
//! `Same` says what two executions, and two reports, have in common. `Sweeps` says what a sweep is (Z.101: agent instance
//! set), without the marks by which the state of a run tells whose turn it is: the order of the steps, in these words, is a
//! law of its own.
#![tactic(auto)]

pub mod laws;
pub mod sweeps;
