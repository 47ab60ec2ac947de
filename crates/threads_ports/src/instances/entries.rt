//! The entries of a run's instances.

ghost use Rattle.std.specs.Prelude.{◌≡◌, ◌<◌, ◌≤◌, IfErr, IfSome};

use crate::instances::Entered;
use once_cell::race::OnceBox;
use std::alloc::{AllocError, Global};
use std::marker::Model;

/// How many numbers there are: as many as there may be instances in a run.
const MOST_NUMBERS: usize = 1_000;

/// For each of the numbers 1 to 1,000 a cell that is set at most once. All threads share the cells by `&`, and no call
/// waits.
#[derive(Drop)]
pub struct Entries {
    cells: Vec<OnceBox<Entered>>,
    alloc: Global,
}

impl Model for Entries {
    ghost use Rattle.std.specs.Prelude.{◌≡◌, vec_len};

    ghost Value = { Unit {0} };

    ghost view = { λ _. tt };

    ghost invariant = { λ entries. vec_len entries.cells ≡ 1000 };
}

impl Entries {
    /// Nothing is entered. Refused for lack of memory.
    pub fn new(alloc: Global) -> Result<Self, AllocError> {
        let mut cells = Vec::with_capacity(alloc, MOST_NUMBERS)?;
        for _ in 0..MOST_NUMBERS {
            cells.push(OnceBox::new(alloc))?;
        }
        Ok(Entries { cells, alloc })
    }

    /// Enters an instance under its number. The entry comes back where memory found no room, or where something is
    /// entered under that number.
    pub fn enter(&self, entered: Entered) -> Result<(), Entered>
        requires { (0 < entered.pid) × (entered.pid ≤ 1000) }
        ensures { IfErr result (λ back. back ≡ entered) }
    {
        let Ok(kept) = Box::new(self.alloc, entered) else {
            return Err(entered);
        };
        let cell = &self.cells[entered.pid as usize - 1];
        match cell.set(kept) {
            Ok(()) => Ok(()),
            Err(_) => Err(entered),
        }
    }

    /// Finds the entry of a number, if the calling thread can see it.
    pub fn find(&self, number: u32) -> Option<&Entered>
        ensures { IfSome result (λ entered. entered.now.pid ≡ number) }
    {
        let cell = self.cells.get(number.checked_sub(1)? as usize)?;
        // It is answered only if it has that number: a cell is set through a `&`, so no clause can tie what it holds to
        // its place.
        match cell.get() {
            Some(entered) if entered.pid == number => Some(entered),
            _ => None,
        }
    }
}
