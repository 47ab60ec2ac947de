//! One order of all of a run (Z.101: system, agent), whoever made it, and a replay that tells one.
//!
//! An `Interleaving` is one list of all that happens in a run of agents with ports of their own: steps of instances,
//! what each of these does outside, one thing after the other, what the environment sends, timers that expire, and
//! moves of the clock. A `Replay` executes a system on a script, and does one happening at each call: whatever leads
//! it, what it does is an interleaving.
#![tactic(auto)]

mod act;
mod answers;
mod chronicle;
mod closing;
mod comparing;
mod entries;
mod hearing;
pub mod laws;
mod member;
mod moving;
mod outbox;
mod pending;
mod replay;
mod replay_world;
mod roster;
mod telling;

pub use act::Act;
pub use answers::Answers;
pub use chronicle::{Chronicle, Ending};
pub use hearing::Heard;
pub use member::{Member, Move};
pub use outbox::Outbox;
pub use pending::Pending;
pub use replay::Replay;
pub use roster::Roster;
