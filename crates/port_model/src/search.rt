//! Searches in what waits.
ghost use Rattle.std.specs.Prelude.{◌≡◌, ◌≤◌, length, take, filter, All, MatchOption};
ghost use Rattle.std.specs.VecDeque.{deque_capacity};
ghost use Rattle.port_model.specs.Search.{IsFirst};
ghost use Rattle.port_model.specs.Timers.{is_signal_of, without_signal};
ghost use Rattle.port_model.specs.Wanted.{IsUnwanted, IsWanted};

use crate::got::Got;
use crate::selection::Selection;
use crate::values::TimerKey;
use crate::wanted::Wanted;
use std::collections::VecDeque;

/// Where the first entry stands that is wanted.
pub fn first_wanted(waiting: &VecDeque<Got>, wanted: Wanted, selection: &Selection) -> Option<usize>
    ensures { MatchOption result (All (IsUnwanted wanted selection.now) waiting.now.items)
        (IsFirst (IsUnwanted wanted selection.now) (IsWanted wanted selection.now) waiting.now.items) }
{
    for place in 0..waiting.len() {
        if wanted.takes(selection.class_of(waiting[place].name())) {
            return Some(place);
        }
    }
    None
}

/// Takes the signal of the timer with this key out of the list. At once where it is the first entry.
pub fn forget(waiting: &mut VecDeque<Got>, key: &TimerKey)
    requires { length (filter (is_signal_of key.now) waiting.old.items) ≤ 1 }
    ensures items { waiting.new.items ≡ without_signal key.now waiting.old.items }
    ensures shorter { length waiting.new.items ≤ length waiting.old.items }
    ensures capacity { deque_capacity waiting.new ≡ deque_capacity waiting.old }
{
    match waiting.front() {
        Some(got) if got.is_signal_of(key) => {
            waiting.pop_front();
        }
        _ => waiting.retain(|got| !got.is_signal_of(key)),
    }
}
