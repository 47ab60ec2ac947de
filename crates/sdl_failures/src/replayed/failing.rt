//! The place of a failure.

ghost use Rattle.std.specs.Prelude.{◌≡◌, ◌≤◌, ◌∷◌, [], IfOk, IfSome, Some, slice_get, true};
ghost use Rattle.port_model.specs.Value.{ValueList};
ghost use Rattle.run_record.specs.Entry.{event_of, got_of};
ghost use Rattle.run_record.specs.Event as event;
ghost use Rattle.run_semantics.specs.Fails.{most_statements};
ghost use Rattle.sdl_interp.specs.Walk.{IsPassed};
ghost use Rattle.sdl_failures.specs.Fails.{FailsAt, StateFails};
ghost use Rattle.sdl_failures.specs.Known.{here_by};
ghost use Rattle.sdl_failures.specs.Replay.{StopsAsOf, StopsAt};
ghost use Rattle.sdl_failures.specs.Stands.{IsPlaceOf, IsTaking, identity_of};

use crate::replayed::cause::{is_same, part_fails};
use crate::replayed::condition::failing_condition;
use crate::replayed::create::variables_of;
use crate::replayed::halt::Halt;
use crate::replayed::known::Known;
use crate::replayed::reception::{misfit_of, reception_in};
use crate::replayed::replay::Replay;
use crate::replayed::split::{Goal, events_before};
use crate::replayed::spot::Spot;
use run_record::{Entry, Failure, Identity, Record, Stimulus};
use sdl_system::{ConditionId, Process, StateId, Statement, System};
use std::alloc::{AllocError, Global};
use view_timeline::Cursor;

/// A failure with its place, and what the instance knew there.
#[derive(Drop)]
pub struct Failing<'s> {
    pub process: &'s Process,
    pub who: Identity,
    pub halt: Halt,
    pub known: Known,
    pub why: Failure,
}

/// What failed, and by what.
#[derive(Clone, Copy, PartialEq, Eq)]
pub struct Stop {
    pub halt: Halt,
    pub why: Failure,
}

/// Finds the place at which the instance of a record failed, which is one of the records of a run of the system. None:
/// it didn't fail, or for lack of memory, or the records don't tell where.
pub fn find_failure<'s>(
    alloc: Global,
    system: &'s System,
    records: &'s [Record],
    trace: &'s Record,
) -> Result<Option<Failing<'s>>, AllocError>
    ensures place { IfOk result (λ found. IfSome found (λ at.
        IsPlaceOf system.now records.now trace.now at.halt at.known at.why)) }
    ensures process { IfOk result (λ found. IfSome found (λ at.
        slice_get system.now.processes trace.now.process.0 ≡ Some at.process.now)) }
    ensures who { IfOk result (λ found. IfSome found (λ at. at.who ≡ identity_of trace.now)) }
{
    let number = trace.process();
    let Some(process) = system.process(number) else {
        return Ok(None);
    };
    let before = events_before(trace, Goal::Failure)?;
    let Some(before) = before else {
        return Ok(None);
    };
    let found = variables_of(alloc, system, records, trace)?;
    let Some(variables) = found else {
        return Ok(None);
    };
    let mut replay = Replay::new(alloc, system, process, trace, variables)?;
    let ended = replay.stop(alloc, before, trace.len())?;
    let Some(stop) = ended else {
        return Ok(None);
    };
    Ok(Some(Failing {
        process,
        who: replay.who,
        halt: stop.halt,
        known: replay.known,
        why: stop.why,
    }))
}

impl<'r> Replay<'r> {
    /// What stops the instance, before whose last transition there are so many events. It has no more than so many.
    fn stop(
        &mut self,
        alloc: Global,
        before: usize,
        events: usize,
    ) -> Result<Option<Stop>, AllocError>
        ensures { IfOk result (λ found. IfSome found (λ stop. StopsAsOf self.old self.new stop.halt stop.why)) }
    {
        let told = self.tell_all(alloc, before)?;
        if !told {
            return Ok(None);
        }
        if let Some(stop) = self.stop_between(alloc) {
            return Ok(Some(stop));
        }
        let entered = self.enter(alloc)?;
        if !entered {
            return Ok(None);
        }
        let fits = self.walk(alloc, Goal::Failure, events)?;
        if !fits {
            return Ok(None);
        }
        Ok(self.stop_in_statement(alloc))
    }

    /// What stops it before it begins one more transition.
    fn stop_between(&self, alloc: Global) -> Option<Stop>
        ensures { IfSome result (λ stop. StopsAt self.now stop.halt stop.why) }
    {
        match self.stop_in_state(alloc) {
            Some(stop) => Some(stop),
            None => self.stop_in_reception(),
        }
    }

    /// A condition of the state.
    fn stop_in_state(&self, alloc: Global) -> Option<Stop>
        ensures { IfSome result (λ stop. StopsAt self.now stop.halt stop.why) }
    {
        let Spot::Between(last) = self.spot else {
            return None;
        };
        let state = last?;
        let entry = only_event(&self.left)?;
        let Entry::FailedAt { why, .. } = entry else {
            return None;
        };
        let condition = self.failing_condition(alloc, state, why)?;
        let halt = Halt::Condition { state, condition };
        Some(Stop { halt, why })
    }

    /// The condition of a state that fails here by this.
    fn failing_condition(&self, alloc: Global, state: StateId, why: Failure) -> Option<ConditionId>
        ensures { let here = here_by self.now.system.now self.now.who self.now.known in
            IfSome result (λ number. StateFails self.now.process.now here state number why) }
    {
        match why {
            Failure::Memory => None,
            _ => {
                let table = self.process.table(state)?;
                let knowledge = self.known.knowledge(self.system, self.who);
                failing_condition(alloc, self.process, &knowledge, table, why)
            }
        }
    }

    /// A value that the instance takes with a signal.
    fn stop_in_reception(&self) -> Option<Stop>
        ensures { IfSome result (λ stop. StopsAt self.now stop.halt stop.why) }
    {
        let Spot::Between(last) = self.spot else {
            return None;
        };
        let state = last?;
        let next = self.left.next()?;
        let got = taken_by(next.entry)?;
        let why = last_failure(&next.rest)?;
        let reception = reception_in(self.process, Some(state), got.name)?;
        let misfit = misfit_of(self.process, &reception.variables, next.values)?;
        if !is_same(misfit.why, why) {
            return None;
        }
        let halt = Halt::Reception {
            state,
            signal: got.name,
            misfit,
        };
        Some(Stop { halt, why })
    }

    /// A part of the statement at which it is.
    fn stop_in_statement(&self, alloc: Global) -> Option<Stop>
        ensures { IfSome result (λ stop. StopsAt self.now stop.halt stop.why) }
    {
        let Spot::At { node, part } = self.spot else {
            return None;
        };
        let why = last_failure(&self.left)?;
        let found = self.process.node(node)?;
        if !self.fails_at(alloc, &found.statement, part, why) {
            return None;
        }
        let halt = Halt::Statement { node, part };
        Some(Stop { halt, why })
    }

    /// Whether a part of a statement fails here by this.
    fn fails_at(&self, alloc: Global, statement: &Statement, part: usize, why: Failure) -> bool
        ensures { result ≡ true → FailsAt self.now.system.now self.now.process.now
            (here_by self.now.system.now self.now.who self.now.known) self.now.known.store statement.now part why }
    {
        match why {
            Failure::Memory => false,
            Failure::TooLong => self.is_too_long(statement, part),
            _ => {
                let knowledge = self.known.knowledge(self.system, self.who);
                part_fails(alloc, self.process, &knowledge, statement, part, why)
            }
        }
    }

    /// Whether a statement is one too many for its transition, which counts as it begins.
    fn is_too_long(&self, statement: &Statement, part: usize) -> bool
        ensures { result ≡ true →
            (part ≡ 0) × IsPassed statement.now × (most_statements ≤ self.now.known.store.done) }
    {
        part == 0 && is_passed(statement) && self.known.is_full()
    }
}

/// Whether a statement is no end of a transition.
fn is_passed(statement: &Statement) -> bool
    ensures { result ≡ true → IsPassed statement.now }
{
    !matches!(
        statement,
        Statement::NextState(_) | Statement::SameState | Statement::Stop
    )
}

/// What an event takes that begins a transition. Its values say nothing.
fn taken_by(entry: Entry) -> Option<Stimulus>
    ensures { IfSome result (λ got. (values : ValueList) → IsTaking (event_of entry values) (got_of got values)) }
{
    match entry {
        Entry::Consumed { got, .. } => Some(got),
        Entry::Prior { got, .. } => Some(got),
        _ => None,
    }
}

/// The failure of a transition, if that alone is left of a record.
fn last_failure(left: &Cursor<'_>) -> Option<Failure>
    ensures { IfSome result (λ why. left.now.left ≡ event.Failed why ∷ []) }
{
    match only_event(left)? {
        Entry::Failed { why } => Some(why),
        _ => None,
    }
}

/// The event that alone is left of a record.
fn only_event(left: &Cursor<'_>) -> Option<Entry>
    ensures { IfSome result (λ entry. (values : ValueList) × (left.now.left ≡ event_of entry values ∷ [])) }
{
    let next = left.next()?;
    match next.rest.next() {
        Some(_) => None,
        None => Some(next.entry),
    }
}
