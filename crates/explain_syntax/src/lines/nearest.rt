//! The name that is nearest to a word that is none.

use std::alloc::{AllocError, Global};
use strsim::osa_distance;

/// The nearest of the names that were tried.
#[derive(Clone, Copy)]
pub struct Nearest<'w, 'n> {
    /// The word that is no name, in lower case.
    lower: &'w str,
    pub found: Option<&'n str>,
    /// How many letters a nearer one may differ in, at most.
    most: usize,
}

impl<'w, 'n> Nearest<'w, 'n> {
    /// A name is near if it differs from the word in a third of its letters at most, and capitals aside.
    pub fn to(lower: &'w str) -> Nearest<'w, 'n> {
        Nearest {
            lower,
            found: None,
            most: lower.len() / 3,
        }
    }

    /// Tries another name, and keeps it if it is nearer than all before.
    pub fn try_name(&mut self, alloc: Global, name: &'n str) -> Result<(), AllocError> {
        let other = lowered(alloc, name)?;
        let distance = osa_distance(alloc, self.lower, other.as_str())?;
        let is_nearer = match self.found {
            None => distance <= self.most,
            Some(_) => distance < self.most,
        };
        if is_nearer {
            self.found = Some(name);
            self.most = distance;
        }
        Ok(())
    }
}

/// A text with its ASCII letters in lower case.
pub fn lowered(alloc: Global, text: &str) -> Result<String, AllocError> {
    let mut lower = String::from_str(alloc, text)?;
    lower.make_ascii_lowercase();
    Ok(lower)
}
