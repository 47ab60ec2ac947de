//! The names of one name space, by their scopes.

ghost use Rattle.std.specs.Prelude.{◌≡◌, ◌++◌, [], is_some, string_bytes, OnOk};
ghost use Rattle.build_names.specs.Faults.{Notes, fault_if};
ghost use Rattle.build_names.specs.Names.{first_of, names_in};
ghost use Rattle.build_names.specs.declared.faults.fault.Rule.TheVariants.{Duplicate};
ghost use Rattle.build_names.specs.Spaces.{block_names, entry_if, is_same_scope, names_of, process_names, seen_in};
ghost use Rattle.build_names.specs.declared.scopes.scope.ScopeId as scopes;
ghost use Rattle.build_names.specs.declared.scopes.scope.ScopeId.TheVariants as scope;
ghost use Rattle.sdl_tree.specs.Views.{name_value};

use crate::faults::Faults;
use crate::scopes::names::{Names, Outward};
use crate::scopes::row::Row;
use crate::scopes::scope::{ScopeId, ScopePath};
use sdl_system::{BlockId, ProcessId};
use sdl_tree::Name;
use std::alloc::{AllocError, Global};

/// The names of one name space over all scopes of a specification, each with what it stands for.
pub struct Spaces<'t, T: Copy> {
    system: Names<'t, T>,
    blocks: Row<'t, T>,
    processes: Row<'t, T>,
}

/// Written out, so that it is proved here, and not anew in each crate that drops one.
impl<'t, T: Copy> Drop for Spaces<'t, T> {
    fn drop(self) {
        let Spaces {
            system: _,
            blocks: _,
            processes: _,
        } = self;
    }
}

impl<'t, T: Copy> Spaces<'t, T> {
    /// No names yet.
    pub fn new(alloc: Global) -> Self
        ensures { (scope : scopes.ScopeId) → names_of result scope ≡ [] }
    {
        Spaces {
            system: Names::new(alloc),
            blocks: Row::new(alloc),
            processes: Row::new(alloc),
        }
    }

    /// Declares a name in a scope. One that the scope has already is noted as a Duplicate.
    pub fn declare(
        &mut self,
        alloc: Global,
        scope: ScopeId,
        name: &'t Name,
        what: T,
        faults: &mut Faults<'t>,
    ) -> Result<(), AllocError>
        ensures declared { OnOk result ((other : scopes.ScopeId) → names_of self.new other
            ≡ names_of self.old other ++ entry_if (is_same_scope scope other) (string_bytes name.now.text) what) }
        ensures noted { OnOk result (Notes faults.old faults.new
            (fault_if (is_some (first_of (names_of self.old scope) (string_bytes name.now.text))) Duplicate
            (name_value name.now))) }
    {
        match scope {
            ScopeId::System => self.system.declare(name, what, faults),
            ScopeId::Block(block) => self.blocks.declare(alloc, block.0, name, what, faults),
            ScopeId::Process(process) => {
                self.processes.declare(alloc, process.0, name, what, faults)
            }
        }
    }

    /// The names of the scopes on this path: those of the process, of the block and of the system.
    pub fn outward(&self, path: ScopePath) -> Outward<'_, 't, T>
        ensures process { names_in result.process ≡ process_names self.now path.process }
        ensures block { names_in result.block ≡ block_names self.now path.block }
        ensures system { result.system.now ≡ names_of self.now scope.System }
        ensures seen { names_in result.process ++ (names_in result.block ++ result.system.now) ≡ seen_in self.now path }
    {
        Outward {
            process: self.of_process(path.process),
            block: self.of_block(path.block),
            system: &self.system,
        }
    }

    /// The names of a process, where there is one.
    fn of_process(&self, process: Option<ProcessId>) -> Option<&Names<'t, T>>
        ensures { names_in result ≡ process_names self.now process }
    {
        match process {
            None => None,
            Some(number) => self.processes.get(number.0),
        }
    }

    /// The names of a block, where there is one.
    fn of_block(&self, block: Option<BlockId>) -> Option<&Names<'t, T>>
        ensures { names_in result ≡ block_names self.now block }
    {
        match block {
            None => None,
            Some(number) => self.blocks.get(number.0),
        }
    }
}
