//! Tests of ports, timers and numbers: the port of one thread and that of many senders and one owner, the sending side of
//! an instance, the timers, and the numbers, entries and roster of instances. Calls on their happy paths, whole rows of
//! calls, and calls from several threads. `bench` has the rows `two-senders` and `save-in-port`.
//!
//! They stand above those crates, so that none of them is proved a second time for its tests.

#[cfg(test)]
mod calls;
#[cfg(test)]
mod ends;
#[cfg(test)]
mod entries;
#[cfg(test)]
mod inboxes;
#[cfg(test)]
mod numbers;
#[cfg(test)]
mod peer_ends;
#[cfg(test)]
mod peers;
#[cfg(test)]
mod plain_port;
#[cfg(test)]
mod roster;
#[cfg(test)]
mod senders;
#[cfg(test)]
mod takes;
#[cfg(test)]
mod timers;
#[cfg(test)]
mod values;
