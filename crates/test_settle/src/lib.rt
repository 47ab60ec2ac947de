//! Tests of runs on threads and of their settling.
//!
//! Rows of whole runs have one text whatever the schedule is; what no text tells is tested by a gate. Each row is run
//! many times, so that what few schedules have, as a wrong text or a hang, is to show. While a worker is held in a step,
//! all instances but that of its job go on. A run that is settled from its start on, so that the calling thread alone
//! makes it, has the text of the serial run. If senders or an instance are lost, or the run was made wrongly, the number is
//! told at which something is missing.
#![tactic(auto)]

#[cfg(test)]
mod by_hand;
#[cfg(test)]
mod cases;
#[cfg(test)]
mod counted;
#[cfg(test)]
mod course;
#[cfg(test)]
mod gates;
#[cfg(test)]
mod given;
#[cfg(test)]
mod held;
#[cfg(test)]
mod lost;
#[cfg(test)]
mod relief;
#[cfg(test)]
mod rest;
#[cfg(test)]
mod rows;
#[cfg(test)]
mod runs;
#[cfg(test)]
mod texts;
#[cfg(test)]
mod turns;
#[cfg(test)]
mod withholding;
#[cfg(test)]
mod wrong;
