//! Who lives (Z.101: agent instance set).

ghost use Rattle.std.specs.Prelude.{◌≡◌, ◌++◌, ◌∷◌, [], IfOk, OnOk, length, map, replicate};
ghost use Rattle.run_order.specs.Roster.{first_of, numbers_of, with_entered, with_left};

use sdl_system::ProcessId;
use std::alloc::{AllocError, Global};
use std::marker::Model;

/// For each process the numbers of its living instances, and the least of them.
#[derive(Drop)]
pub struct Roster {
    numbers: Vec<Vec<u32>>,
    least: Vec<Option<u32>>,
}

impl Model for Roster {
    ghost use Rattle.run_order.specs.Roster.{AreLeast, RosterValue, lists_of};

    ghost Value = { RosterValue };

    ghost view = { λ r. lists_of r.numbers.items };

    ghost invariant = { λ r. AreLeast r.least.items (lists_of r.numbers.items) };
}

impl Roster {
    /// Nobody lives, of so many processes.
    pub fn new(alloc: Global, processes: usize) -> Result<Self, AllocError>
        ensures { IfOk result (λ roster. roster ≡ replicate processes []) }
    {
        let mut roster = Roster {
            numbers: Vec::new(alloc),
            least: Vec::new(alloc),
        };
        for _ in 0..processes {
            roster.add_process(alloc)?;
        }
        Ok(roster)
    }

    #[tactic(auto, using(crate::proofs::Living::adding))]
    fn add_process(&mut self, alloc: Global) -> Result<(), AllocError>
        ensures { OnOk result (self.new ≡ self.old ++ [] ∷ []) }
    {
        self.least.reserve(1)?;
        self.numbers.push(Vec::new(alloc))?;
        self.least.push_reserved(None);
        Ok(())
    }

    /// For each process by its number, the least number of its living instances.
    pub fn least(&self) -> &[Option<u32>]
        ensures { result.now ≡ map first_of self.now }
    {
        &self.least
    }

    /// How many instances of a process live.
    #[tactic(auto, using(crate::proofs::Living::numbers_at))]
    pub fn count(&self, process: ProcessId) -> usize
        ensures { result ≡ length (numbers_of self.now process) }
    {
        match self.numbers.get(process.0 as usize) {
            Some(numbers) => numbers.len(),
            None => 0,
        }
    }

    /// An instance of the process lives from now on. For lack of memory nothing is known.
    #[tactic(auto, using(crate::proofs::Living::entering))]
    pub fn enter(&mut self, process: ProcessId, number: u32) -> Result<(), AllocError>
        ensures { OnOk result (self.new ≡ with_entered self.old process number) }
    {
        let place = process.0 as usize;
        if place >= self.numbers.len() {
            return Ok(());
        }
        let numbers = &mut self.numbers[place];
        numbers.push(number)?;
        let first = first_in(numbers);
        self.least[place] = first;
        Ok(())
    }

    /// An instance of the process lives no longer.
    #[tactic(auto, using(crate::proofs::Living::leaving))]
    pub fn leave(&mut self, process: ProcessId, number: u32)
        ensures { self.new ≡ with_left self.old process number }
    {
        let place = process.0 as usize;
        if place >= self.numbers.len() {
            return;
        }
        let numbers = &mut self.numbers[place];
        numbers.retain(|other| *other != number);
        let first = first_in(numbers);
        self.least[place] = first;
    }
}

/// The first of these numbers.
fn first_in(numbers: &[u32]) -> Option<u32>
    ensures { result ≡ first_of numbers.now }
{
    match numbers.first() {
        Some(first) => Some(*first),
        None => None,
    }
}
