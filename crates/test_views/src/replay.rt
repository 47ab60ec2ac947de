//! Tests of the order that is found of a run with workers.
//!
//! Many runs of all kinds of specifications are made by several workers: an order is found of each. What no schedule
//! has for sure is told of records and courses that are written by hand.

#[cfg(test)]
mod by_hand;
#[cfg(test)]
mod failures;
#[cfg(test)]
mod given;
#[cfg(test)]
mod kinds;
#[cfg(test)]
mod races;
#[cfg(test)]
mod told;
#[cfg(test)]
mod written;
