//! Tests of one instance of a process: a specification and a script, and the record that is wanted. Each case is run
//! over the port of one thread and over a shared port; and two instances are run as instances of a run on
//! threads, with their senders, on one thread.
//!
//! They stand above `sdl_interp`, so that neither it nor the crates under it are proved a second time for their tests;
//! and the cases are tables, so that one more costs no proof.
#![tactic(auto)]

#[cfg(test)]
mod alone;
#[cfg(test)]
mod case;
#[cfg(test)]
mod conditions;
#[cfg(test)]
mod continuous;
#[cfg(test)]
mod creates;
#[cfg(test)]
mod decisions;
#[cfg(test)]
mod failures;
#[cfg(test)]
mod flow;
#[cfg(test)]
mod inputs;
#[cfg(test)]
mod instances;
#[cfg(test)]
mod outputs;
#[cfg(test)]
mod pair;
#[cfg(test)]
mod play;
#[cfg(test)]
mod port;
#[cfg(test)]
mod runtime;
#[cfg(test)]
mod shared;
#[cfg(test)]
mod tasks;
#[cfg(test)]
mod tests;
#[cfg(test)]
mod thread_pair;
#[cfg(test)]
mod timers;
