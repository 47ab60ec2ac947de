//! The clock of a run and the timers that wait for it (Z.102, timers; Z.104, time).
//!
//! A clock is one word that never goes down: one ticker moves it on, and readers in any thread read it. No reader
//! reads back, and one that the ticker makes has seen the ticker's time. A wheel holds the fuses of the timers that
//! are set, and gives them out in due order: by their time, then by the number of their port, then by that of their
//! set. Fuses by which no timer runs any more may be taken out before their time (`Wheel::thin`).
#![tactic(auto)]

mod due;
mod reader;
mod rule;
mod slot;
mod spent;
mod ticker;
mod tournament;
mod turn;
mod wheel;

pub use reader::Reader;
pub use spent::SpentFuses;
pub use ticker::{NewClock, Ticker, clock};
pub use wheel::Wheel;
