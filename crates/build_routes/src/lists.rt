//! Lists of receivers, each kept once.

ghost use Rattle.std.specs.Prelude.{◌≡◌, [], map, slice_get, IfOk};
ghost use Rattle.build_routes.specs.Entries.{Keeps};
ghost use Rattle.build_routes.specs.Table.{AreDistinct};

use crate::network::counted;
use indexmap::IndexSet;
use sdl_system::{ProcessId, ReceiversId};
use std::alloc::{AllocError, Global};
use std::marker::Model;

/// Lists of processes, each kept once, with a number.
#[derive(Drop)]
pub(crate) struct Lists {
    kept: IndexSet<Vec<ProcessId>>,
}

impl Model for Lists {
    ghost use Rattle.std.specs.Prelude.{List, map};
    ghost use Rattle.sdl_system.specs.declared.id.ProcessId.{ProcessId as Process};

    ghost Value = { List (List Process) };

    ghost view = { λ lists. map (λ list. list.items) lists.kept.keys };
}

impl Lists {
    pub(crate) fn new(alloc: Global) -> Self
        ensures { result ≡ [] }
    {
        Lists {
            kept: IndexSet::new(alloc),
        }
    }

    /// The number of the list. It is kept if none like it was.
    pub(crate) fn add(&mut self, list: Vec<ProcessId>) -> Result<ReceiversId, AllocError>
        ensures kept { Keeps self.old self.new }
        ensures stands { IfOk result (λ id. slice_get self.new id.0 ≡ Some list.items) }
    {
        let (number, _) = self.kept.insert_full(list)?;
        Ok(ReceiversId(counted(number)?))
    }

    /// All the lists, by number.
    pub(crate) fn into_vec(self, alloc: Global) -> Result<Vec<Vec<ProcessId>>, AllocError>
        ensures lists { IfOk result (λ lists. map (λ list. list.items) lists.items ≡ self) }
        ensures distinct { AreDistinct self }
    {
        let Lists { kept } = self;
        kept.into_iter().collect(alloc)
    }
}
