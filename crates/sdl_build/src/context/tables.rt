//! The states and labels of a process by their names.

ghost use Rattle.std.specs.Prelude.{◌≡◌, IfOk};
ghost use Rattle.build_process.specs.Numbered.{numbered};
ghost use Rattle.sdl_build.specs.ProcessScope.{numbered_states};
ghost use Rattle.build_names.specs.Labels.{names_listed};

use build_definitions::next_number;
use build_names::{Faults, Names};
use sdl_system::{LabelId, StateId};
use sdl_tree::Name;
use std::alloc::{AllocError, Global};

/// States by their names, in this order.
pub fn state_table<'t>(alloc: Global, names: &[&'t Name]) -> Result<Names<'t, StateId>, AllocError>
    ensures { IfOk result (λ table. table ≡ numbered_states 0 (names_listed names.now)) }
{
    let mut table = Names::new(alloc);
    let mut repeated = Faults::new();
    let mut next = 0;
    for name in names {
        table.declare(name, StateId(next), &mut repeated)?;
        next = next_number(next)?;
    }
    Ok(table)
}

/// Labels by their names, in this order. Of two with one name the first counts.
pub fn label_table<'t>(alloc: Global, names: &[&'t Name]) -> Result<Names<'t, LabelId>, AllocError>
    ensures { IfOk result (λ table. table ≡ numbered 0 (names_listed names.now)) }
{
    let mut table = Names::new(alloc);
    let mut repeated = Faults::new();
    let mut next = 0;
    for name in names {
        table.declare(name, LabelId(next), &mut repeated)?;
        next = next_number(next)?;
    }
    Ok(table)
}
