//! What holds of the timers of a serial run (Z.102: timer), as laws of the definitions of `serial_order`.
//!
//! `Fused` says what is asked of the fuse of a timer that runs, and when an expiry is due.
#![tactic(auto)]

pub mod laws;
