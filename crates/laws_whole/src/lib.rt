//! A serial run and a run on several threads are one (Z.101: system): the report of a serial run is whole or cut, as
//! `settle_meaning` says it of both, as a law of the definitions of `serial_order`.
#![tactic(auto)]

pub mod laws;
