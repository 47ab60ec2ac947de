//! The rest of a run.

ghost use Rattle.std.specs.Prelude.{◌≡◌, ◌<◌, OnOk};
ghost use Rattle.serial_sweeps.specs.Sweeps.{IsNothingDue, moment_of};
ghost use Rattle.settle_rest.specs.Woken.{AreNumbers};

use crate::begin::{all_entered, end_of, put_fuses, take_fuses};
use crate::instances::Rest;
use port_model::Ticks;
use run_record::RunError;
use serial_sweeps::{Agenda, Scheduler};
use std::sync::Wait;
use threads_ports::Run;
use threads_shared::{Environment, Own, Shared};

/// Goes on with a run on one thread, from the time `from` on: the instances step in sweeps by ascending number, and the
/// clock moves only if all rest, until all rest, the script is at its end and no timer is due by then, or until `left`
/// more transitions are made, which are added to the sum of all. Answers the time at which it stands. All threads of the
/// run are joined: the caller's condition. What came of it is for the caller to check, since no clause says it. Refused
/// for lack of memory.
pub fn run_rest<J: Run, R: Wait + Copy>(
    shared: &Shared<'_, '_, '_, J, R>,
    own: &mut Own<J>,
    environment: &mut Environment<'_, J>,
    from: Ticks,
    left: u64,
) -> Result<Ticks, RunError>
    ensures { OnOk result (environment.new.lines ≡ environment.old.lines) }
{
    if left == 0 {
        return Ok(from);
    }
    let alloc = shared.alloc;
    let all = all_entered(alloc, &shared.common.entries)?;
    let agenda = Agenda {
        clock: from,
        ready: all.ready,
        fuses: take_fuses(alloc, shared.rt, &shared.tables.wheel),
    };
    // Whose ticket is in hand is entered, and so is ready.
    shared.queue_all(&mut own.hand);
    let lines = environment.lines();
    let heard = environment.line();
    let script = match lines.get(heard..) {
        Some(script) => script,
        None => &[],
    };
    let mut sweeps = Scheduler::new(agenda, script, all.greatest, left);
    let mut rest = Rest {
        shared,
        own,
        environment,
        given: all.greatest,
    };
    let has_begun = heard > 0 || from > Ticks::new(0);
    catch_up(&mut sweeps, &mut rest, has_begun)?;
    let _whole = sweeps.run(alloc, &mut rest, end_of(lines))?;
    let made = left.saturating_sub(sweeps.left);
    let _ = shared.tables.signs.add_moves(made);
    let Agenda { clock, fuses, .. } = sweeps.agenda;
    put_fuses(shared.rt, &shared.tables.wheel, fuses);
    Ok(clock)
}

/// Does what is due at the time from which the run goes on, if all have rested before and the script has begun.
fn catch_up<J: Run, R: Wait + Copy>(
    sweeps: &mut Scheduler<'_>,
    rest: &mut Rest<'_, '_, '_, '_, '_, J, R>,
    has_begun: bool,
) -> Result<(), RunError>
    requires fits { AreNumbers sweeps.old.agenda.ready }
    requires due { IsNothingDue (moment_of sweeps.old) }
    requires left { 0 < sweeps.old.left }
    ensures fits { OnOk result (AreNumbers sweeps.new.agenda.ready) }
    ensures due { OnOk result (IsNothingDue (moment_of sweeps.new)) }
    ensures reference { OnOk result (rest.new.environment.ghost_name ≡ rest.old.environment.ghost_name) }
    ensures lines { OnOk result (rest.new.environment.now.lines ≡ rest.old.environment.now.lines) }
{
    if has_begun {
        sweeps.begun = true;
        sweeps.catch_up(rest)?;
    }
    Ok(())
}
