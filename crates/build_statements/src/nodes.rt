//! Transitions as nodes: the statements of a process with their names resolved, in one table with the place at which
//! the flow goes on behind each (Z.101 and Z.102: transition).
//!
//! `specs/Transitions` says for whole transitions what `build_statements` says of a statement: what it does, and which
//! rules it breaks. `add` notes exactly the faults of a transition, and where nothing in it is refused its body stands
//! in the table. `NodeTable::finish` links the joins: the nodes are then a table of the bodies of the process.
//! `specs/Broken` says of the statements that stand in a transition when a rule is broken, and at which word; `laws`
//! says that these are exactly the faults that are noted.

mod decision;
mod finish;
mod later;
pub mod laws;
mod table;
mod transition;

pub use table::NodeTable;
pub use transition::add;
