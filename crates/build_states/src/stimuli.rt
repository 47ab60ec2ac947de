//! What the stimuli of a process say of signals (Z.101: input, save; Z.102: priority input, enabling condition,
//! continuous signal).
//!
//! A stimulus speaks of signals at words of its own: at the name of a signal, at that of a list, or at an asterisk.
//! Transitions are named by their numbers in the order of the text, and no statement of theirs is read here; so are
//! conditions, which are resolved. `specs/Mentions` has what a stimulus says, `specs/Faulty` a list of the rules that
//! it breaks, and `specs/Reading` a whole process; `specs/StimuliBroken` says of the words of the text which rules are
//! broken, and `laws` that the list says the same. What the states say by their stimuli stands above, in `build_states`.

mod context;
mod inputs;
pub mod laws;
mod mention;
mod reading;
mod saves;
mod signals;
mod subject;
mod transition;
mod variables;

pub use context::Context;
pub use mention::{Manner, Mention, Response};
pub use reading::{ContinuousSignal, Numbering, Part, Reading, read_body};
pub use subject::Subject;
pub use transition::TransitionId;
