//! The tables that are made, by where the names of their states stand.

ghost use Rattle.std.specs.Prelude.{◌≡◌, ◌++◌, ◌∷◌, [], None, OnOk};
ghost use Rattle.build_states.specs.Shared.{known_in};

use crate::outline::Turn;
use indexmap::IndexMap;
use sdl_system::TableId;
use std::alloc::{AllocError, Global};
use std::marker::Model;

/// The tables that are made, by where the names of their states stand.
#[derive(Drop)]
pub struct Known<'l> {
    by_turns: IndexMap<&'l [Turn], TableId>,
}

impl<'l> Model for Known<'l> {
    ghost use Rattle.std.specs.Prelude.{List, map};
    ghost use Rattle.build_states.specs.declared.outline.Turn.{Turn};
    ghost use Rattle.sdl_system.specs.declared.id.TableId.{TableId};

    ghost Value = { List (List Turn × TableId) };

    ghost view = { λ known. map (λ entry. (entry.0.now, entry.1)) known.by_turns.entries };
}

impl<'l> Known<'l> {
    /// No tables.
    pub fn new(alloc: Global) -> Self
        ensures { result ≡ [] }
    {
        Known {
            by_turns: IndexMap::new(alloc),
        }
    }

    /// The table of the states whose names stand there.
    pub fn get(&self, turns: &[Turn]) -> Option<TableId>
        ensures { result ≡ known_in self.now turns.now }
    {
        self.by_turns.get(turns).copied()
    }

    /// Adds a table that isn't known.
    pub fn add(&mut self, turns: &'l [Turn], table: TableId) -> Result<(), AllocError>
        requires { known_in self.old turns.now ≡ None }
        ensures { OnOk result (self.new ≡ self.old ++ (turns.now, table) ∷ []) }
    {
        self.by_turns.insert(turns, table)?;
        Ok(())
    }
}
