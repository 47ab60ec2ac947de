//! The names of one name space, and what they stand for in the scopes of a specification (Z.101: scope units and
//! visibility).
//!
//! The system, each block and each process is a scope with names of its own. At a place of the text those are seen of
//! the scope round it, and of the scopes round that one; a name stands for what it does in the innermost. A name that
//! its scope has already is a Duplicate, and its first declaration counts. `Names` is one scope, `Spaces` has all.

pub mod laws;
mod names;
mod row;
mod scope;
mod spaces;

pub use names::{Names, Outward};
pub use scope::{ScopeId, ScopePath};
pub use spaces::Spaces;
