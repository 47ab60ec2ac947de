//! What an instance did: a list of events, as `specs/Event.antt` has them.
//!
//! A record takes each event into room that was made before, so that noting what happened never fails. An event takes
//! an entry of 16 bytes, and one more if it begins at another time than the one before. It has no memory apart from its
//! record. The values of all events stand in one table, in their order.
//!
//! A record is read from its first event on, each an `Entry` with its values. `evaluation` has what the expressions of a
//! transition give, whose failures a record names.
#![tactic(auto)]

mod entry;
mod evaluation;
mod failure;
mod growing;
mod noting;
mod packed;
mod packing;
mod parts;
mod reader;
mod receivers;
mod record;
mod run_error;

pub use entry::{Entry, Origin, Stimulus};
pub use evaluation::{
    Identity, Knowledge, Store, Variables, evaluate, evaluate_all, evaluate_at, evaluate_key,
    is_true, place, sorts_of,
};
pub use failure::Failure;
pub use reader::{Reader, Told};
pub use receivers::Receivers;
pub use record::{Record, Report};
pub use run_error::RunError;
