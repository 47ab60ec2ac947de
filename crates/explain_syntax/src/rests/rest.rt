//! What is left of a specification without the words at which rules are broken.

ghost use Rattle.std.specs.Prelude.{◌≡◌, [], IfOk};
ghost use Rattle.explain_syntax.specs.Gap.{LeavesOutIf, lacks};
ghost use Rattle.explain_syntax.specs.Rest.{IsRestOf};

use crate::rests::filled::fill;
use crate::rests::gap::Gap;
use sdl_lex::Place;
use std::alloc::{AllocError, Global};

/// A specification, in which the bytes that were left out are blank, and the names that may be missed.
#[derive(Drop)]
pub struct Rest {
    pub text: Vec<u8>,
    pub names: Vec<String>,
}

impl Rest {
    /// The whole of a specification.
    pub fn of(alloc: Global, text: &[u8]) -> Result<Rest, AllocError>
        ensures text { IfOk result (λ rest. rest.text.items ≡ text.now) }
        ensures names { IfOk result (λ rest. rest.names.items ≡ []) }
    {
        Ok(Rest {
            text: Vec::from_slice(alloc, text)?,
            names: Vec::new(alloc),
        })
    }

    /// Leaves out what is around the word at this place. It answers whether something was left out.
    #[tactic(auto, using(crate::proofs::RestLemmas::whole))]
    pub fn leave_out(&mut self, alloc: Global, place: Place) -> Result<bool, AllocError>
        ensures rest { IsRestOf self.old.text.items self.new.text.items }
        ensures out { IfOk result (LeavesOutIf place self.old self.new) }
    {
        let Some(gap) = Gap::around(alloc, &self.text, place)? else {
            return Ok(false);
        };
        fill(&mut self.text, gap.from, gap.to, gap.stops);
        for name in gap.names {
            self.names.push(name)?;
        }
        Ok(true)
    }

    /// Whether a name may be missed.
    pub fn lacks(&self, name: &str) -> bool
        ensures { result ≡ lacks self.now name.now }
    {
        self.names.iter().any(|other| other.as_str() == name)
    }
}
