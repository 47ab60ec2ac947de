//! Names, to look up whether one is among them.

ghost use Rattle.std.specs.Prelude.{◌≡◌, ◌||◌, IfOk, OnOk, List, ℕ, map, false};
ghost use Rattle.std.specs.Str.{bytes_eq};
ghost use Rattle.sdl_warnings.specs.Heads.{head_value};
ghost use Rattle.sdl_warnings.specs.Sets.{among, has};

use crate::heads::Head;
use indexmap::IndexSet;
use std::alloc::{AllocError, Global};

/// Names, each once.
#[derive(Drop)]
pub struct NameSet<'t> {
    pub names: IndexSet<&'t str>,
}

impl<'t> NameSet<'t> {
    pub fn new(alloc: Global) -> NameSet<'t>
        ensures { (text : List ℕ) → has result text ≡ false }
    {
        NameSet {
            names: IndexSet::new(alloc),
        }
    }

    /// Those of these places.
    pub fn of(alloc: Global, heads: &[Head<'t>]) -> Result<NameSet<'t>, AllocError>
        ensures { IfOk result (λ names. (text : List ℕ) → has names text ≡ among (map head_value heads.now) text) }
    {
        let mut names = NameSet::new(alloc);
        for head in heads {
            names.add(head.name)?;
        }
        Ok(names)
    }

    /// Adds a name.
    pub fn add(&mut self, name: &'t str) -> Result<(), AllocError>
        ensures { OnOk result ((text : List ℕ) → has self.new text ≡ (bytes_eq text name.now || has self.old text)) }
    {
        self.names.insert(name)?;
        Ok(())
    }

    /// Whether a name is among them.
    pub fn has(&self, name: &str) -> bool
        ensures { result ≡ has self.now name.now }
    {
        self.names.contains(name)
    }
}
