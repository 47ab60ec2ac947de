//! Why a text is refused, said for a human: the place as editors read it, a sentence that says what was wanted and what
//! to do, and the line with a mark under the place.
//!
//! `explain_parse`, `explain_build` and `explain_script` make the explanation of a refusal over the text that was
//! refused. What is shown is the line of the place (`explain_syntax::lines`), and if another place matters one before it:
//! for a name that is there again, the place of the same word. The contracts promise so much. Which sentence belongs to
//! which refusal is a table, of which no contract speaks. What a text lacks to be a specification is said by
//! `explain_syntax`, and what was wanted of a name or a sort by the module `advice`.
//!
//! What stands where in a specification is looked up in its tree. `sites_of` lists all places at which something is
//! wanted, each with what that is: a name of some kind, a value for something, an operand. `first_definition` finds where a
//! name is defined first in its scope, and `first_mention` where a state mentions a signal first. No contract says which
//! places they find.
//!
//! `other_faults` and `other_lines` find what else is wrong: each of these is told of the same text, in which what is
//! around the faults before it is left out. `warnings_text` says what is suspicious (`sdl_warnings`) in the same way.
#![tactic(auto)]

mod advice;
mod build;
mod definition;
mod expression_sites;
mod mention;
mod others;
mod parse;
mod refused;
mod script;
mod sentence;
mod shown;
mod site;
mod sites;
mod told;
mod transition_sites;
mod warned;

pub use others::Others;
pub use parse::explain_parse;
pub use told::{faults_text, lines_text};
pub use warned::{warnings_of, warnings_text};
