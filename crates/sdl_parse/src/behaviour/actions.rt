//! Actions but decisions.

ghost use Rattle.std.specs.Prelude.{◌≤◌, option_map};
ghost use Rattle.sdl_tree.specs.Views.{action_value, applied_value, assignment_value, destination_value, group_value};
ghost use Rattle.sdl_parse.specs.Actions as spec;
ghost use Rattle.parse_expressions.specs.Reads.{Reads};

use crate::behaviour::optional::taken;
use crate::behaviour::place::Inside;
use parse_expressions::expressions::{arguments, expression};
use parse_expressions::parts::end;
use parse_expressions::{Cursor, Fault, Production, enclosed, separated};
use sdl_tree::{Action, Applied, Assignment, Destination, Mark, ResetGroup};
use std::alloc::Global;

impl Production<Assignment> for Inside {
    ghost use Rattle.sdl_tree.specs.Tree as tree;
    ghost use Rattle.sdl_tree.specs.Views.{assignment_value};
    ghost use Rattle.sdl_parse.specs.Actions.{assignment};

    ghost Node = { tree.Assignment };

    ghost value = { assignment_value };

    ghost reads = { λ at. assignment at.depth };
}

impl Production<Applied> for Inside {
    ghost use Rattle.sdl_tree.specs.Tree as tree;
    ghost use Rattle.sdl_tree.specs.Views.{applied_value};
    ghost use Rattle.sdl_parse.specs.Actions.{applied};

    ghost Node = { tree.Applied };

    ghost value = { applied_value };

    ghost reads = { λ at. applied at.depth };
}

impl Production<ResetGroup> for Inside {
    ghost use Rattle.std.specs.Prelude.{List};
    ghost use Rattle.sdl_tree.specs.Tree as tree;
    ghost use Rattle.sdl_tree.specs.Views.{group_value};
    ghost use Rattle.sdl_parse.specs.Actions.{keys};

    ghost Node = { List tree.Applied };

    ghost value = { group_value };

    ghost reads = { λ at. keys at.depth };
}

/// `"task" NAME ":=" expr {"," NAME ":=" expr} end`
#[tactic(auto, unfolding(crate::specs::Actions::task))]
pub fn task(alloc: Global, cursor: &mut Cursor<'_, '_>, depth: usize) -> Result<Action, Fault>
    requires { depth ≤ 64 }
    ensures { Reads action_value (spec.task depth cursor.old) result cursor.new }
{
    let word = cursor.expect(Mark::Task)?;
    let assignments = separated(alloc, cursor, Inside { depth }, assignment)?;
    end(cursor)?;
    Ok(Action::Task { word, assignments })
}

/// `NAME ":=" expr`
#[tactic(auto, unfolding(crate::specs::Actions::assignment))]
fn assignment(alloc: Global, cursor: &mut Cursor<'_, '_>, at: Inside) -> Result<Assignment, Fault>
    requires { at.depth ≤ 64 }
    ensures { Reads assignment_value (spec.assignment at.depth cursor.old) result cursor.new }
{
    let variable = cursor.name(alloc)?;
    cursor.expect(Mark::Assign)?;
    let value = expression(alloc, cursor, at.depth)?;
    Ok(Assignment { variable, value })
}

/// `"output" NAME [args] {"," NAME [args]} ["to" expr] end`
#[tactic(auto, unfolding(crate::specs::Actions::output))]
pub fn output(alloc: Global, cursor: &mut Cursor<'_, '_>, depth: usize) -> Result<Action, Fault>
    requires { depth ≤ 64 }
    ensures { Reads action_value (spec.output depth cursor.old) result cursor.new }
{
    let word = cursor.expect(Mark::Output)?;
    let outputs = separated(alloc, cursor, Inside { depth }, applied)?;
    let destination = destination(alloc, cursor, depth)?;
    end(cursor)?;
    Ok(Action::Output {
        word,
        outputs,
        destination,
    })
}

/// `["to" expr]`
#[tactic(auto, unfolding(crate::specs::Actions::destination))]
fn destination(
    alloc: Global,
    cursor: &mut Cursor<'_, '_>,
    depth: usize,
) -> Result<Option<Destination>, Fault>
    requires { depth ≤ 64 }
    ensures { Reads (option_map destination_value) (spec.destination depth cursor.old) result cursor.new }
{
    match taken(cursor, Mark::To) {
        None => Ok(None),
        Some(word) => {
            let value = expression(alloc, cursor, depth)?;
            Ok(Some(Destination { word, value }))
        }
    }
}

/// `"create" NAME [args] end`
#[tactic(auto, unfolding(crate::specs::Actions::create))]
pub fn create(alloc: Global, cursor: &mut Cursor<'_, '_>, depth: usize) -> Result<Action, Fault>
    requires { depth ≤ 64 }
    ensures { Reads action_value (spec.create depth cursor.old) result cursor.new }
{
    let word = cursor.expect(Mark::Create)?;
    let process = applied(alloc, cursor, Inside { depth })?;
    end(cursor)?;
    Ok(Action::Create { word, process })
}

/// `"reset" keys {"," keys} end`
#[tactic(auto, unfolding(crate::specs::Actions::reset))]
pub fn reset(alloc: Global, cursor: &mut Cursor<'_, '_>, depth: usize) -> Result<Action, Fault>
    requires { depth ≤ 64 }
    ensures { Reads action_value (spec.reset depth cursor.old) result cursor.new }
{
    let word = cursor.expect(Mark::Reset)?;
    let groups = separated(alloc, cursor, Inside { depth }, keys)?;
    end(cursor)?;
    Ok(Action::Reset { word, groups })
}

/// `keys = "(" NAME [args] {"," NAME [args]} ")"`
#[tactic(auto, unfolding(crate::specs::Actions::keys))]
fn keys(alloc: Global, cursor: &mut Cursor<'_, '_>, at: Inside) -> Result<ResetGroup, Fault>
    requires { at.depth ≤ 64 }
    ensures { Reads group_value (spec.keys at.depth cursor.old) result cursor.new }
{
    let timers = enclosed(alloc, cursor, at, applied)?;
    Ok(ResetGroup { timers })
}

/// `NAME [args]`, where `args = "(" expr {"," expr} ")"`.
#[tactic(auto, unfolding(crate::specs::Actions::applied))]
pub fn applied(alloc: Global, cursor: &mut Cursor<'_, '_>, at: Inside) -> Result<Applied, Fault>
    requires { at.depth ≤ 64 }
    ensures { Reads applied_value (spec.applied at.depth cursor.old) result cursor.new }
{
    let name = cursor.name(alloc)?;
    let values = arguments(alloc, cursor, at.depth)?;
    Ok(Applied { name, values })
}
