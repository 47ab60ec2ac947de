//! What it means that a report is whole or cut, and that nothing was lost (Z.101: system, agent, input port; Z.102: input,
//! output, create, timer).
//!
//! `Report` says of a report, its script and its limit: each instance has a record, each record is a run of its process
//! on a legal history of its port, and what was put there is what the records and the script sent. It speaks of records
//! and histories alone, so it says the same of a run on one thread and of a run on several. Read `Report` first, then
//! `Histories`, `Puts`, `Identities`, `Living` and `Closed`, which it is made of. `Settled` says more of a report of a run
//! on several threads: when things happened (`Times`, `Timers`, `Order`), who started when, and how many live (`Starts`),
//! and with which values (`Given`). `Headline` is what it comes to for each instance. `laws` has what holds of such
//! histories.
#![tactic(auto)]

pub mod laws;
