//! The last step of an instance, and the close of its record.

ghost use Rattle.std.specs.Prelude.{◌≡◌, ◌⊎◌, [], false, IfErr, IfOk, IsOk, IsTrue, OnOk};
ghost use Rattle.run_record.specs.declared.run_error.RunError.TheVariants.{Lost};
ghost use Rattle.run_semantics.specs.ControlPoint.{Definition};
ghost use Rattle.sdl_interp.specs.Instance.{IsAtRest, IsRunAs, Keeps};
ghost use Rattle.sdl_interp.specs.declared.instance.Stepped.TheVariants.{Ended, Idle};
ghost use Rattle.settle_closing.specs.Left.{HasNoMore, IsClosedNow};
ghost use Rattle.settle_closing.specs.Noted.{HasNotedRest, IsClosedWith};
ghost use Rattle.threads_shared.specs.Noting.{StepsAt};

use crate::closing::Closing;
use input_port::Held;
use port_model::Ticks;
use run_record::RunError;
use sdl_interp::Stepped;
use std::sync::Wait;
use threads_instance::ThreadInstance;
use threads_ports::Run;
use threads_shared::{Own, Seated, Shared, StepRuntime, note_stepped};

/// Closes the record of an instance. In a `whole` run it makes one step more, at this time, by which it shows that it
/// rests: the step finds nothing to do and sets no timer, or the instance has ended, and no transition was made.
/// Lost, with its number: it doesn't rest. A run that is cut loses nothing here. Where the course of the run is kept, a
/// step that is recorded is noted, as a failure is by which the instance ends.
pub fn close<'s, 'p, J: Run, R: Wait + Copy>(
    seated: Seated<'s, 'p, J, R>,
    shared: &Shared<'_, 's, 'p, J, R>,
    own: &mut Own<J>,
    whole: bool,
    at: Ticks,
) -> Result<Closing<'p, J, R>, RunError>
    ensures closed { IfOk result (λ closing. IsClosedNow seated.entry.value.instance closing.trace) }
    ensures whole { IfOk result (λ closing. closing.whole ≡ whole) }
    ensures fuses { OnOk result (IsTrue whole → own.new.fuses.items ≡ []) }
    ensures lost { IfErr result (λ error. error ≡ Lost seated.entry.value.instance.who.pid) }
    ensures cut { whole ≡ false → IsOk result }
    ensures unstepped { IfOk result (λ closing. whole ≡ false
        → IsClosedWith (λ old last. last ≡ old) seated.entry.value closing) }
    ensures off { IfOk result (λ closing. shared.now.keeps_course ≡ false
        → closing.course ≡ seated.entry.value.course) }
    ensures noted { IfOk result (λ closing. IsTrue whole → IsTrue shared.now.keeps_course
        → IsClosedWith HasNotedRest seated.entry.value closing) }
{
    let mut seated = seated;
    if whole {
        rest(&mut seated, shared, own, at)?;
    }
    Ok(closed(Box::into_inner(seated), whole))
}

/// Makes the step by which an instance shows that it rests, and notes it. Lost: it doesn't rest.
fn rest<'s, 'p, J: Run, R: Wait + Copy>(
    seated: &mut Seated<'s, 'p, J, R>,
    shared: &Shared<'_, 's, 'p, J, R>,
    own: &mut Own<J>,
    at: Ticks,
) -> Result<(), RunError>
    ensures keeps { Keeps seated.old.value.instance seated.new.value.instance }
    ensures rests { OnOk result (IsAtRest seated.new.value.instance) }
    ensures events { OnOk result ((d : Definition) → IsRunAs seated.old.value.instance d
        → HasNoMore seated.old.value.instance.events seated.new.value.instance.events) }
    ensures fuses { OnOk result (own.new.fuses.items ≡ []) }
    ensures lost { IfErr result (λ error. error ≡ Lost seated.old.value.instance.who.pid) }
    ensures off { shared.now.keeps_course ≡ false → seated.new.value.course ≡ seated.old.value.course }
    ensures noted { IsTrue shared.now.keeps_course → OnOk result (HasNotedRest seated.old.value seated.new.value) }
{
    let told = seated.trace().len();
    let stepped = step_to_rest(seated, shared, own, at)?;
    note_stepped(shared, own, seated, stepped, told);
    Ok(())
}

/// Makes the step by which an instance shows that it rests. Lost: it doesn't.
fn step_to_rest<'s, 'p, J: Run, R: Wait + Copy>(
    seated: &mut Seated<'s, 'p, J, R>,
    shared: &Shared<'_, 's, 'p, J, R>,
    own: &mut Own<J>,
    at: Ticks,
) -> Result<Stepped, RunError>
    ensures keeps { Keeps seated.old.value.instance seated.new.value.instance }
    ensures rests { OnOk result (IsAtRest seated.new.value.instance) }
    ensures events { OnOk result ((d : Definition) → IsRunAs seated.old.value.instance d
        → HasNoMore seated.old.value.instance.events seated.new.value.instance.events) }
    ensures fuses { OnOk result (own.new.fuses.items ≡ []) }
    ensures lost { IfErr result (λ error. error ≡ Lost seated.old.value.instance.who.pid) }
    ensures course { seated.new.value.course ≡ seated.old.value.course }
    ensures steps { IfOk result (λ stepped. StepsAt at stepped seated.old.value seated.new.value) }
    ensures quiet { IfOk result (λ stepped. (stepped ≡ Idle) ⊎ (stepped ≡ Ended false)) }
{
    let number = seated.who().pid;
    let mut runtime = StepRuntime { shared, own };
    let stepped = seated.step(shared.alloc, shared.rt, &mut runtime, at);
    if !own.fuses.is_empty() {
        return Err(RunError::Lost(number));
    }
    match stepped {
        Stepped::Idle => Ok(stepped),
        Stepped::Ended { counts: false } => Ok(stepped),
        _ => Err(RunError::Lost(number)),
    }
}

/// Closes the record, and keeps what is known of the instance.
fn closed<'s, 'p, J: Run, R: Wait + Copy>(
    instance: ThreadInstance<'s, J, Held<'p, R>>,
    whole: bool,
) -> Closing<'p, J, R>
    requires { IsTrue whole → IsAtRest instance.instance }
    ensures closed { IsClosedNow instance.entry.instance result.trace }
    ensures whole { result.whole ≡ whole }
    ensures owner { result.owner ≡ instance.entry.instance.owner }
    ensures peers { result.peers ≡ instance.entry.peers }
    ensures course { result.course ≡ instance.entry.course }
{
    instance.has_put();
    instance.has_run();
    instance.is_seated();
    let left = instance.close(whole);
    Closing::new(whole, left)
}
