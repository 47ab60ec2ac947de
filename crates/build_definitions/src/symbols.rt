//! What the names of a specification stand for (Z.101: scope units and visibility).
//!
//! Each kind of names has a space of its own in each scope: signals and timers; signal lists; channels; blocks and
//! processes; variables, formal parameters and synonyms; states; labels. A name stands for its first declaration in its
//! scope, and a second one is noted as a Duplicate. Only states may be named again.

mod agents;
mod channels;
mod declaration;
mod groups;
mod labels;
pub mod laws;
mod lists;
mod signals;
mod states;
mod symbol_table;
mod values;

pub use symbol_table::SymbolTable;
