//! Events as a reader of a record tells them: their values stand beside them.

ghost use Rattle.std.specs.Prelude.{◌≡◌};
ghost use Rattle.port_model.specs.Value.{ValueList};
ghost use Rattle.run_record.specs.Event.{values_got};
ghost use Rattle.run_record.specs.Entry.{got_from, got_of, sender_of, signal_got};
ghost use Rattle.port_model.specs.declared.values.item.SignalId.{SignalId};

use crate::failure::Failure;
use port_model::{Got, Pid, SignalId, Value};
use sdl_system::{Dest, ProcessId, StateId, Target, VariableId};

/// An event without its values. `at` and `due` are in ticks.
#[derive(Clone, Copy)]
pub enum Entry {
    Start {
        at: u64,
    },
    Consumed {
        at: u64,
        got: Stimulus,
    },
    Prior {
        at: u64,
        got: Stimulus,
    },
    Discarded {
        at: u64,
        got: Stimulus,
    },
    Provided {
        at: u64,
        number: u32,
    },
    FailedAt {
        at: u64,
        why: Failure,
    },
    Task {
        variable: VariableId,
        value: Value,
    },
    Output {
        signal: SignalId,
        to: Dest,
        target: Target,
    },
    Set {
        timer: SignalId,
        due: u64,
    },
    Reset {
        timer: SignalId,
    },
    Create {
        process: ProcessId,
        pid: Option<u32>,
    },
    NextState {
        state: StateId,
    },
    Stop,
    Failed {
        why: Failure,
    },
    Rest {
        state: StateId,
    },
    Cut {
        state: Option<StateId>,
    },
}

/// A stimulus that was got from the port, without its values.
#[derive(Clone, Copy)]
pub struct Stimulus {
    pub name: SignalId,
    pub origin: Origin,
}

/// Where it came from: a timer of the instance itself, or the sender of a signal.
#[derive(Clone, Copy)]
pub enum Origin {
    Timer,
    Null,
    Env,
    Instance(u32),
}

impl Stimulus {
    /// The stimulus that was got.
    #[inline(always)]
    pub fn of(got: &Got) -> Stimulus
        ensures { got_of result (values_got got.now) ≡ got.now }
    {
        let (name, origin) = match got {
            Got::Signal(item) => (item.name, Origin::of_sender(item.sender)),
            Got::Timer(key) => (key.name, Origin::Timer),
        };
        Stimulus { name, origin }
    }
}

/// The values that came with a signal or a timer.
pub fn values_got(got: &Got) -> &[Value]
    ensures { result.now ≡ values_got got.now }
{
    match got {
        Got::Signal(item) => item.values.as_slice(),
        Got::Timer(key) => key.values.as_slice(),
    }
}

impl Origin {
    /// Who sent it, in an instance of this number.
    pub fn sender(self, own: u32) -> Pid
        ensures { (name : SignalId) (values : ValueList) → sender_of own (got_from self name values) ≡ result }
    {
        match self {
            Origin::Timer => Pid::Of(own),
            Origin::Null => Pid::Null,
            Origin::Env => Pid::Env,
            Origin::Instance(number) => Pid::Of(number),
        }
    }

    /// Where a signal of this sender came from.
    fn of_sender(sender: Pid) -> Origin
        ensures { (name : SignalId) (values : ValueList) → got_from result name values ≡ signal_got name values sender }
    {
        match sender {
            Pid::Null => Origin::Null,
            Pid::Env => Origin::Env,
            Pid::Of(number) => Origin::Instance(number),
        }
    }
}
