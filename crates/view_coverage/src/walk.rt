//! What an event means for coverage.

ghost use Rattle.std.specs.Prelude.{◌≡◌};
ghost use Rattle.run_record.specs.Told.{event_told};
ghost use Rattle.view_coverage.specs.Coverage.{in_state, point_of, state_after};

use crate::point::{Passage, Point};
use run_record::{Entry, Told};
use sdl_system::{ProcessId, StateId};

/// The state of an instance after an event: the one that it entered last, none before the first.
pub fn state_after(state: Option<StateId>, told: Told<'_>) -> Option<StateId>
    ensures { result ≡ state_after state (event_told told.entry) }
{
    match told.entry {
        Entry::NextState { state: entered } => Some(entered),
        _ => state,
    }
}

/// The point that an instance of this process passes with an event in this state. What is discarded passes none, and
/// before the first state there is none to pass.
pub fn point_of(process: ProcessId, state: Option<StateId>, told: Told<'_>) -> Option<Point>
    ensures { result ≡ point_of process state (event_told told.entry) }
{
    match told.entry {
        Entry::NextState { state: entered } => {
            in_state(process, Some(entered), Passage::Entered)
        }
        Entry::Consumed { got, .. } | Entry::Prior { got, .. } => {
            in_state(process, state, Passage::Taken(got.name))
        }
        Entry::Provided { number, .. } => in_state(process, state, Passage::Provided(number)),
        _ => None,
    }
}

/// The point of a passage in this state, if there is one.
fn in_state(process: ProcessId, state: Option<StateId>, passage: Passage) -> Option<Point>
    ensures { result ≡ in_state process state passage }
{
    Some(Point {
        process,
        state: state?,
        passage,
    })
}
