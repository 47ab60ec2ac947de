//! Packing an event into an entry.

ghost use Rattle.std.specs.Prelude.{◌≡◌, ◌∷◌, [], ℕ, IsTrue};
ghost use Rattle.port_model.specs.Value.{ValueList};
ghost use Rattle.run_record.specs.Entry.{got_from};
ghost use Rattle.run_record.specs.Event as event;
ghost use Rattle.run_record.specs.Event.{values_got};
ghost use Rattle.run_record.specs.Packed.{count_of, is_event, origin_of, target_of, told_at};
ghost use Rattle.sdl_system.specs.declared.route.Dest.TheVariants as to;

use crate::entry::Stimulus;
use crate::packed::Packed;
use crate::parts::{OriginKind, TargetKind};
use port_model::{Got, Pid, SignalId, Value};
use sdl_system::{Dest, Target, VariableId};

impl Packed {
    /// The input of what was got, which has so many values.
    #[inline(always)]
    pub fn consumed(got: &Got, count: u16) -> Packed
        ensures told { (time : ℕ) → told_at time result (values_got got.now) ≡ event.Consumed time got.now ∷ [] }
        ensures counts { count_of result ≡ count }
        ensures event { IsTrue (is_event result) }
    {
        let (name, origin, from) = parts_of(got);
        Packed::Consumed {
            origin,
            count,
            name,
            from,
        }
    }

    /// The priority input of what was got, which has so many values.
    #[inline(always)]
    pub fn prior(got: &Got, count: u16) -> Packed
        ensures told { (time : ℕ) → told_at time result (values_got got.now) ≡ event.Prior time got.now ∷ [] }
        ensures counts { count_of result ≡ count }
        ensures event { IsTrue (is_event result) }
    {
        let (name, origin, from) = parts_of(got);
        Packed::Prior {
            origin,
            count,
            name,
            from,
        }
    }

    /// The end of what was got, which has so many values, and is neither input nor saved.
    #[inline(always)]
    pub fn discarded(got: &Got, count: u16) -> Packed
        ensures told { (time : ℕ) → told_at time result (values_got got.now) ≡ event.Discarded time got.now ∷ [] }
        ensures counts { count_of result ≡ count }
        ensures event { IsTrue (is_event result) }
    {
        let (name, origin, from) = parts_of(got);
        Packed::Discarded {
            origin,
            count,
            name,
            from,
        }
    }

    /// An assignment of a task.
    #[inline(always)]
    pub fn task(variable: VariableId, value: Value) -> Packed
        ensures told { (time : ℕ) → told_at time result [] ≡ event.Task variable value ∷ [] }
        ensures counts { count_of result ≡ 0 }
        ensures event { IsTrue (is_event result) }
    {
        match value {
            Value::Int(value) => Packed::TaskInt { variable, value },
            Value::Bool(value) => Packed::TaskBool { value, variable },
            Value::Pid(value) => Packed::TaskPid { variable, value },
            Value::Time(value) => Packed::TaskTime { variable, value },
            Value::Duration(value) => Packed::TaskDuration { variable, value },
        }
    }

    /// The output of a signal with so many values.
    #[inline(always)]
    pub fn output(signal: SignalId, to: Dest, count: u16, target: Target) -> Packed
        ensures told { (values : ValueList) (time : ℕ) →
            told_at time result values ≡ event.Output signal to values target ∷ [] }
        ensures counts { count_of result ≡ count }
        ensures event { IsTrue (is_event result) }
    {
        let (reached, target) = TargetKind::of(target);
        match to {
            Dest::Path => Packed::OutputOnPath {
                reached,
                count,
                signal,
                target,
            },
            Dest::Process(process) => Packed::OutputToProcess {
                reached,
                count,
                signal,
                process,
                target,
            },
            Dest::Pid(pid) => Packed::output_to(signal, pid, count, reached, target),
        }
    }

    /// The output of a signal to a Pid. Whom it reached is in two parts.
    #[inline(always)]
    fn output_to(signal: SignalId, pid: Pid, count: u16, reached: TargetKind, target: u32) -> Packed
        ensures told { (values : ValueList) (time : ℕ) → told_at time result values
            ≡ event.Output signal (to.Pid pid) values (target_of reached target) ∷ [] }
        ensures counts { count_of result ≡ count }
        ensures event { IsTrue (is_event result) }
    {
        match pid {
            Pid::Null => Packed::OutputToNull {
                reached,
                count,
                signal,
                target,
            },
            Pid::Env => Packed::OutputToEnv {
                reached,
                count,
                signal,
                target,
            },
            Pid::Of(pid) => Packed::OutputToInstance {
                reached,
                count,
                signal,
                pid,
                target,
            },
        }
    }
}

/// A stimulus that was got, in three parts: its name, and those of its origin.
#[inline(always)]
fn parts_of(got: &Got) -> (SignalId, OriginKind, u32)
    ensures { got_from (origin_of result.1 result.2) result.0 (values_got got.now) ≡ got.now }
{
    let Stimulus { name, origin } = Stimulus::of(got);
    let (kind, number) = OriginKind::of(origin);
    (name, kind, number)
}
