//! The canonical text of a specification in SDL/PR.
//!
//! `print` writes the words of a tree with one blank between two, and a line end instead of it after each `;`.
//! What it writes is exactly the canonical text, which `specs/Canonical` of `sdl_tree` defines. `canonicalize` reads a
//! text and prints its tree. The canonical text of a tree that some text spells is read as this tree again, but for
//! places and spellings: `reads_again`.
#![tactic(auto)]

mod behaviour;
mod canonical;
mod definitions;
mod expressions;
mod laws;
mod name;
mod process;
mod states;
mod system;
mod text;

pub use laws::{canonical_lexes, canonical_spells_again, reads_again};
pub use system::{canonicalize, print};
