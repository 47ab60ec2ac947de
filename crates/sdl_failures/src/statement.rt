//! The word of a statement that fails.

ghost use Rattle.std.specs.Prelude.{◌≡◌, IfSome, IsErr, true};
ghost use Rattle.run_semantics.specs.Fails.{later};
ghost use Rattle.sdl_failures.specs.Reasons.{IsSo};

use crate::blame::{blame, blame_at, blame_values};
use crate::located::Site;
use crate::operands::Scene;
use crate::place::{action_place, end_place, place_of};
use crate::reason::{Blame, Reason};
use crate::replayed::later;
use port_model::Ticks;
use run_record::Failure;
use sdl_interp::sort_of;
use sdl_lex::Place;
use sdl_system::{
    Assignment, Creation, Decision, Destination, Due, Output, Process, Sending, Setting, Sort,
    Statement, TimerUse,
};
use sdl_tree::{
    Action, Applied, Assignment as WrittenAssignment, Expression as Written, ResetGroup, SetClause,
};

/// The word of a part of a statement that fails by this, and the reason. None: the reason isn't known.
pub fn statement_blame<'t>(
    scene: &Scene<'_>,
    site: Site<'t>,
    statement: &Statement,
    part: usize,
    why: Failure,
) -> Option<Blame<'t>>
    ensures { IfSome result (λ found. IsSo scene.now.process.now scene.now.known.now.store found.reason) }
{
    if why == Failure::TooLong {
        return Some(Blame {
            place: site_place(site),
            reason: Reason::TooLong,
        });
    }
    match (site, statement) {
        (Site::Action(Action::Task { assignments, .. }), Statement::Task(list)) => {
            task_blame(scene, assignments.get(part)?, list.get(part)?)
        }
        (
            Site::Action(
                Action::Output {
                    outputs,
                    destination,
                    ..
                },
            ),
            Statement::Output(output),
        ) => {
            let to = destination.as_ref().map(|to| &to.value);
            output_blame(scene, outputs.get(part)?, to, output, part)
        }
        (Site::Action(Action::Set { clauses, .. }), Statement::Set(list)) => {
            set_blame(scene, clauses.get(part)?, list.get(part)?)
        }
        (Site::Action(Action::Reset { groups, .. }), Statement::Reset(list)) => {
            timer_blame(scene, timer_at(groups, part)?, list.get(part)?)
        }
        (Site::Action(Action::Create { process, .. }), Statement::Create(creation)) => {
            create_blame(scene, process, creation)
        }
        (Site::Action(Action::Decision { question, .. }), Statement::Decision(asked)) => {
            decision_blame(scene, question, asked)
        }
        _ => None,
    }
}

/// The place of the first word of a statement.
pub fn site_place(site: Site<'_>) -> Place {
    match site {
        Site::Action(action) => action_place(action),
        Site::End(end) => end_place(end),
    }
}

fn task_blame<'t>(
    scene: &Scene<'_>,
    written: &'t WrittenAssignment,
    meant: &Assignment,
) -> Option<Blame<'t>>
    ensures { IfSome result (λ found. IsSo scene.now.process.now scene.now.known.now.store found.reason) }
{
    let name = Some(written.variable.text.as_str());
    let sort = sort_of(scene.process, meant.variable);
    blame_at(scene, &written.value, &meant.value, sort, name)
}

/// Whom the output names is evaluated first.
fn output_blame<'t>(
    scene: &Scene<'_>,
    written: &'t Applied,
    to: Option<&'t Written>,
    output: &Output,
    part: usize,
) -> Option<Blame<'t>>
    ensures { IfSome result (λ found. IsSo scene.now.process.now scene.now.known.now.store found.reason) }
{
    if let (Some(written), Some(Destination::Pid(meant))) = (to, &output.to) {
        let found = blame(scene, written, meant);
        if found.is_some() {
            return found;
        }
    }
    let sending: &Sending = output.signals.get(part)?;
    let sorts = scene.sorts_of(sending.signal);
    blame_values(scene, &written.values, &sending.values, sorts)
}

/// When a timer is due is evaluated first.
fn set_blame<'t>(scene: &Scene<'_>, written: &'t SetClause, meant: &Setting) -> Option<Blame<'t>>
    ensures { IfSome result (λ found. IsSo scene.now.process.now scene.now.known.now.store found.reason) }
{
    let found = match (&written.time, &meant.due) {
        (Some(written), Due::At(time)) => blame(scene, written, time),
        (_, Due::After(duration)) => later_blame(scene, written.timer.name.place, *duration),
        _ => None,
    };
    match found {
        Some(found) => Some(found),
        None => timer_blame(scene, &written.timer, &meant.timer),
    }
}

/// A time past 64 bits.
fn later_blame<'t>(scene: &Scene<'_>, place: Place, duration: i64) -> Option<Blame<'t>>
    ensures { IfSome result (λ found. IsSo scene.now.process.now scene.now.known.now.store found.reason) }
{
    let now = scene.now();
    if !is_too_late(now, duration) {
        return None;
    }
    Some(Blame {
        place,
        reason: Reason::Later {
            now: now.get(),
            duration,
        },
    })
}

/// Whether a time so much later is past 64 bits.
fn is_too_late(now: Ticks, duration: i64) -> bool
    ensures { result ≡ true → IsErr (later now duration) }
{
    later(now, duration).is_err()
}

/// The timer of a reset, counted through all its parentheses.
fn timer_at(groups: &[ResetGroup], part: usize) -> Option<&Applied> {
    let mut left = part;
    for group in groups {
        if let Some(timer) = group.timers.get(left) {
            return Some(timer);
        }
        left = left.saturating_sub(group.timers.len());
    }
    None
}

fn timer_blame<'t>(scene: &Scene<'_>, written: &'t Applied, meant: &TimerUse) -> Option<Blame<'t>>
    ensures { IfSome result (λ found. IsSo scene.now.process.now scene.now.known.now.store found.reason) }
{
    let sorts = scene.sorts_of(meant.timer);
    blame_values(scene, &written.values, &meant.values, sorts)
}

fn create_blame<'t>(scene: &Scene<'_>, written: &'t Applied, meant: &Creation) -> Option<Blame<'t>>
    ensures { IfSome result (λ found. IsSo scene.now.process.now scene.now.known.now.store found.reason) }
{
    let created = scene.system.process(meant.process)?;
    let sorts: Vec<Sort> = sorts_of_parameters(scene, created)?;
    blame_values(scene, &written.values, &meant.values, &sorts)
}

fn sorts_of_parameters(scene: &Scene<'_>, process: &Process) -> Option<Vec<Sort>> {
    let parameters = process.variables.iter().take(process.parameters as usize);
    parameters
        .map(|variable| variable.sort)
        .collect(scene.alloc)
        .ok()
}

fn decision_blame<'t>(
    scene: &Scene<'_>,
    written: &'t Written,
    meant: &Decision,
) -> Option<Blame<'t>>
    ensures { IfSome result (λ found. IsSo scene.now.process.now scene.now.known.now.store found.reason) }
{
    match scene.value(&meant.question) {
        Ok(value) => Some(Blame {
            place: place_of(written),
            reason: Reason::NoAnswer(value),
        }),
        Err(_) => blame(scene, written, &meant.question),
    }
}
