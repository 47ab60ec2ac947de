//! The order in which synonyms are settled without a second try. Nothing that is proved rests on it.

use std::alloc::{AllocError, Global};

/// Synonyms with what they wait for.
#[derive(Drop)]
struct Waiting {
    /// How many of those that it names aren't there yet, for each synonym.
    open: Vec<usize>,
    /// Those that name it, for each synonym.
    users: Vec<Vec<usize>>,
}

/// The numbers of the synonyms, each behind all that it names. It lacks those on a circle or behind one.
pub fn order(alloc: Global, named: &[Vec<usize>]) -> Result<Vec<usize>, AllocError> {
    let mut waiting = all_waiting(alloc, named)?;
    let mut ready = ready_at_once(alloc, named)?;
    for step in 0..named.len() {
        if step < ready.len() {
            let number = ready[step];
            waiting.release(number, &mut ready)?;
        }
    }
    Ok(ready)
}

/// Those that name no synonym.
fn ready_at_once(alloc: Global, named: &[Vec<usize>]) -> Result<Vec<usize>, AllocError> {
    let mut ready = Vec::new(alloc);
    for (number, numbers) in named.iter().enumerate() {
        if numbers.is_empty() {
            ready.push(number)?;
        }
    }
    Ok(ready)
}

fn all_waiting(alloc: Global, named: &[Vec<usize>]) -> Result<Waiting, AllocError> {
    let mut open = Vec::new(alloc);
    let mut users = Vec::new(alloc);
    for numbers in named {
        open.push(numbers.len())?;
        users.push(Vec::new(alloc))?;
    }
    let mut waiting = Waiting { open, users };
    for (number, numbers) in named.iter().enumerate() {
        waiting.add(number, numbers)?;
    }
    Ok(waiting)
}

impl Waiting {
    /// Adds a synonym to the users of all that it names.
    fn add(&mut self, number: usize, numbers: &[usize]) -> Result<(), AllocError> {
        for other in numbers {
            if *other < self.users.len() {
                self.users[*other].push(number)?;
            }
        }
        Ok(())
    }

    /// One is there: those that wait for no other are ready.
    fn release(&mut self, number: usize, ready: &mut Vec<usize>) -> Result<(), AllocError> {
        if number < self.users.len() {
            for user in &self.users[number] {
                if *user < self.open.len() {
                    if self.open[*user] == 1 {
                        ready.push(*user)?;
                    }
                    self.open[*user] = self.open[*user].saturating_sub(1);
                }
            }
        }
        Ok(())
    }
}
