//! What is kept of a run.

/// A sender: the number of the instance into whose port it puts, and the number that it has among the senders there.
#[derive(Clone, Copy, PartialEq, Eq)]
pub struct SenderInto {
    pub port: u32,
    pub number: u32,
}

/// What is kept of a run, in columns. Each has a row for each record, in the order of the records; before these
/// `senders` has a row for the environment. It acts while all rest, so nothing else is kept of it.
#[derive(Drop)]
pub struct Course {
    /// Of each entry of the port, in the order in which they were put, the number that its sender has there.
    pub puts: Vec<Vec<u32>>,
    /// Of each step that is recorded, in their order, how many entries were drawn from the port after it.
    pub drawn: Vec<Vec<u32>>,
    /// The versions of the roster, in the order of the events: that of each look-up of a path or a process, also of one
    /// whose output found no memory then; that which each create made or found; and that which the end made.
    pub versions: Vec<Vec<u32>>,
    /// The senders: into which ports they put.
    pub senders: Vec<Vec<SenderInto>>,
}
