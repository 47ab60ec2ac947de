//! The names of scopes that are numbered.

ghost use Rattle.std.specs.Prelude.{◌≡◌, ◌==◌, ◌++◌, ℕ, ◌<◌, [], is_some, length, string_bytes, OnOk};
ghost use Rattle.build_names.specs.Faults.{Notes, fault_if};
ghost use Rattle.build_names.specs.Names.{first_of, names_in};
ghost use Rattle.build_names.specs.declared.faults.fault.Rule.TheVariants.{Duplicate};
ghost use Rattle.build_names.specs.Spaces.{entry_if, names_at};
ghost use Rattle.sdl_tree.specs.Views.{name_value};

use crate::faults::Faults;
use crate::scopes::names::Names;
use sdl_tree::Name;
use std::alloc::{AllocError, Global};

/// The names of scopes of one kind, by their numbers. A number past the end has no names.
#[derive(Drop)]
pub struct Row<'t, T: Copy> {
    names: Vec<Names<'t, T>>,
}

impl<'t, T: Copy> Row<'t, T> {
    /// No names yet.
    pub fn new(alloc: Global) -> Self
        ensures { (number : ℕ) → names_at result number ≡ [] }
    {
        Row {
            names: Vec::new(alloc),
        }
    }

    /// Makes room for the names of a scope.
    fn grow(&mut self, alloc: Global, number: u32) -> Result<(), AllocError>
        ensures within { OnOk result (number < length self.new.names.items) }
        ensures same { OnOk result ((other : ℕ) → names_at self.new other ≡ names_at self.old other) }
    {
        let count = number as usize + 1;
        for _ in self.names.len()..count {
            self.names.push(Names::new(alloc))?;
        }
        Ok(())
    }

    /// Declares a name in the scope of this number.
    pub fn declare(
        &mut self,
        alloc: Global,
        number: u32,
        name: &'t Name,
        what: T,
        faults: &mut Faults<'t>,
    ) -> Result<(), AllocError>
        ensures declared { OnOk result ((other : ℕ) → names_at self.new other
            ≡ names_at self.old other ++ entry_if (number == other) (string_bytes name.now.text) what) }
        ensures noted { OnOk result (Notes faults.old faults.new
            (fault_if (is_some (first_of (names_at self.old number) (string_bytes name.now.text))) Duplicate
            (name_value name.now))) }
    {
        self.grow(alloc, number)?;
        self.names[number as usize].declare(name, what, faults)
    }

    /// The names of the scope of this number.
    pub fn get(&self, number: u32) -> Option<&Names<'t, T>>
        ensures { names_in result ≡ names_at self.now number }
    {
        self.names.get(number as usize)
    }
}
