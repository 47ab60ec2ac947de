//! What the synonyms of a specification come to (Z.104: synonyms).
//!
//! A synonym may be used before the place of its definition, so they are settled one after the other: each once all
//! that its expression names are. What never settles is defined by itself, directly or by others, or rests on such a
//! synonym, and has no value. `specs/SettledSynonyms` says which table of constants that is, and the public function
//! answers just that one.

mod known;
pub mod laws;
mod named;
mod order;
mod synonym;
mod synonyms;

pub use synonym::Synonym;
pub use synonyms::synonym_constants;
