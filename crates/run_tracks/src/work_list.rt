//! Whose record may go on.

ghost use Rattle.std.specs.Prelude.{◌≡◌, ◌<◌, ◌≤◌, ◌∷◌, ℕ, [], Contains, IfOk, MatchOption, OnOk};
ghost use Rattle.std.specs.List.{range_with_len};
ghost use Rattle.run_tracks.specs.WorkList.{IsWoken};

use std::alloc::{AllocError, Global};
use std::collections::VecDeque;
use std::marker::Model;

/// The numbers of the instances whose records may go on.
#[derive(Drop)]
pub struct WorkList {
    queue: VecDeque<u32>,
    /// Whether the number of a place is known to be in the queue.
    queued: Vec<bool>,
}

impl Model for WorkList {
    ghost use Rattle.std.specs.Prelude.{vec_len};
    ghost use Rattle.run_tracks.specs.WorkList.{AreQueued, WorkState};

    ghost Value = { WorkState };

    ghost view = { λ w. record { numbers = vec_len w.queued; waking = w.queue.items } };

    ghost invariant = { λ w. AreQueued w.queued.items w.queue.items };
}

impl WorkList {
    /// All of so many numbers may go on, from 1 on.
    pub fn new(alloc: Global, numbers: u32) -> Result<Self, AllocError>
        ensures numbers { IfOk result (λ list. list.numbers ≡ numbers) }
        ensures all { IfOk result (λ list. list.waking ≡ range_with_len 1 numbers) }
    {
        let mut queue = VecDeque::new(alloc);
        for place in 0..numbers {
            queue.push_back(place + 1)?;
        }
        let queued = vec![in alloc; true; numbers as usize]?;
        Ok(WorkList { queue, queued })
    }

    /// The record of this number may go on. It is noted once, and no other number is.
    pub fn wake(&mut self, number: u32) -> Result<(), AllocError>
        ensures woken { OnOk result (0 < number → number ≤ self.old.numbers → Contains self.new.waking number) }
        ensures others { IsWoken number self.old.waking self.new.waking }
        ensures numbers { self.new.numbers ≡ self.old.numbers }
    {
        let Some(place) = number.checked_sub(1) else {
            return Ok(());
        };
        let Some(queued) = self.queued.get_mut(place as usize) else {
            return Ok(());
        };
        if !*queued {
            self.queue.push_back(number)?;
            *queued = true;
        }
        Ok(())
    }

    /// Takes out the next one.
    pub fn next(&mut self) -> Option<u32>
        ensures next { MatchOption result ((self.old.waking ≡ []) × (self.new.waking ≡ []))
            (λ number. self.old.waking ≡ number ∷ self.new.waking) }
        ensures numbers { self.new.numbers ≡ self.old.numbers }
    {
        let number = self.queue.pop_front()?;
        if let Some(place) = number.checked_sub(1)
            && let Some(queued) = self.queued.get_mut(place as usize)
        {
            *queued = false;
        }
        Some(number)
    }
}
