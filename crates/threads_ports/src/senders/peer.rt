//! A sender with the number of the instance into whose port it puts.

use input_port::Sender;

/// A sender with the number of the instance into whose port it puts.
#[derive(Drop)]
pub struct Peer {
    pub number: u32,
    pub sender: Sender,
}
