//! Timers.

ghost use Rattle.std.specs.Prelude.{◌≤◌};
ghost use Rattle.sdl_tree.specs.Views.{timer_value, timers_value};
ghost use Rattle.sdl_parse.specs.Declarations as spec;
ghost use Rattle.parse_expressions.specs.Reads.{Reads};

use crate::declarations::initial;
use crate::place::Defining;
use parse_expressions::parts::{end, sorts};
use parse_expressions::{Cursor, Fault, Production, separated};
use sdl_tree::{Mark, TimerDefinition, TimerDefinitions};
use std::alloc::Global;

impl Production<TimerDefinition> for Defining {
    ghost use Rattle.sdl_tree.specs.Tree as tree;
    ghost use Rattle.sdl_tree.specs.Views.{timer_value};
    ghost use Rattle.sdl_parse.specs.Declarations.{one};

    ghost Node = { tree.TimerDefinition };

    ghost value = { timer_value };

    ghost reads = { λ at. one at.depth };
}

/// `timer = "timer" one {"," one} end`
#[tactic(auto, unfolding(crate::specs::Declarations::timer))]
pub fn timer(
    alloc: Global,
    cursor: &mut Cursor<'_, '_>,
    depth: usize,
) -> Result<TimerDefinitions, Fault>
    requires { depth ≤ 64 }
    ensures { Reads timers_value (spec.timer depth cursor.old) result cursor.new }
{
    let word = cursor.expect(Mark::Timer)?;
    let timers = separated(alloc, cursor, Defining { depth }, one)?;
    end(cursor)?;
    Ok(TimerDefinitions { word, timers })
}

/// `one = NAME [sorts] [":=" expr]`
#[tactic(auto, unfolding(crate::specs::Declarations::one))]
fn one(alloc: Global, cursor: &mut Cursor<'_, '_>, at: Defining) -> Result<TimerDefinition, Fault>
    requires { at.depth ≤ 64 }
    ensures { Reads timer_value (spec.one at.depth cursor.old) result cursor.new }
{
    let name = cursor.name(alloc)?;
    let sorts = sorts(alloc, cursor)?;
    let duration = initial(alloc, cursor, at.depth)?;
    Ok(TimerDefinition {
        name,
        sorts,
        duration,
    })
}
