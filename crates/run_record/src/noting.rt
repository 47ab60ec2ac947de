//! What a record takes, an event a call.

ghost use Rattle.std.specs.Prelude.{◌≡◌, ◌<◌, ◌≤◌, length};
ghost use Rattle.run_record.specs.Event as event;
ghost use Rattle.run_record.specs.Event.{values_got};
ghost use Rattle.run_record.specs.Record.{noted};

use crate::entry::values_got;
use crate::failure::Failure;
use crate::packed::Packed;
use crate::record::Record;
use port_model::{Got, SignalId, Ticks, TimerKey, Value};
use sdl_system::{Dest, ProcessId, StateId, Target, VariableId};

impl Record {
    /// Notes that the start transition begins.
    pub fn start(&mut self, at: Ticks)
        requires { 0 < self.old.room }
        ensures { self.new ≡ noted self.old (event.Start at) }
    {
        self.begin(at, Packed::Start, &[]);
    }

    /// Notes that an input begins.
    pub fn consumed(&mut self, at: Ticks, got: &Got)
        requires room { 0 < self.old.room }
        requires values_room { length (values_got got.now) ≤ self.old.values_room }
        ensures { self.new ≡ noted self.old (event.Consumed at got.now) }
    {
        let values = values_got(got);
        let count = self.count(values);
        self.begin(at, Packed::consumed(got, count), values);
    }

    /// Notes that a priority input begins.
    pub fn prior(&mut self, at: Ticks, got: &Got)
        requires room { 0 < self.old.room }
        requires values_room { length (values_got got.now) ≤ self.old.values_room }
        ensures { self.new ≡ noted self.old (event.Prior at got.now) }
    {
        let values = values_got(got);
        let count = self.count(values);
        self.begin(at, Packed::prior(got, count), values);
    }

    /// Notes that what the state neither inputs nor saves is gone.
    pub fn discarded(&mut self, at: Ticks, got: &Got)
        requires room { 0 < self.old.room }
        requires values_room { length (values_got got.now) ≤ self.old.values_room }
        ensures { self.new ≡ noted self.old (event.Discarded at got.now) }
    {
        let values = values_got(got);
        let count = self.count(values);
        self.begin(at, Packed::discarded(got, count), values);
    }

    /// Notes that the transition of a continuous signal begins, by its number among those of the state, from 1 in the
    /// order of the text.
    pub fn provided(&mut self, at: Ticks, number: u32)
        requires { 0 < self.old.room }
        ensures { self.new ≡ noted self.old (event.Provided at number) }
    {
        self.begin(at, Packed::Provided { number }, &[]);
    }

    /// Notes that a condition or a take fails the instance.
    pub fn failed_at(&mut self, at: Ticks, why: Failure)
        requires { 0 < self.old.room }
        ensures { self.new ≡ noted self.old (event.FailedAt at why) }
    {
        self.begin(at, Packed::FailedAt { why }, &[]);
    }

    /// Notes an assignment of a task.
    pub fn task(&mut self, variable: VariableId, value: Value)
        requires { 0 < self.old.room }
        ensures { self.new ≡ noted self.old (event.Task variable value) }
    {
        self.note(Packed::task(variable, value), &[]);
    }

    /// Notes that a signal is sent to the destination that the output names, and whom it reached.
    pub fn output(&mut self, signal: SignalId, to: Dest, values: &[Value], target: Target)
        requires room { 0 < self.old.room }
        requires values_room { length values.now ≤ self.old.values_room }
        ensures { self.new ≡ noted self.old (event.Output signal to values.now target) }
    {
        let count = self.count(values);
        self.note(Packed::output(signal, to, count, target), values);
    }

    /// Notes that a timer is set for the time `due`.
    pub fn set(&mut self, key: &TimerKey, due: Ticks)
        requires room { 0 < self.old.room }
        requires values_room { length key.now.values ≤ self.old.values_room }
        ensures { self.new ≡ noted self.old (event.Set key.now due) }
    {
        let values = key.values.as_slice();
        let timer = key.name;
        let count = self.count(values);
        let due = due.get();
        self.note(Packed::Set { count, timer, due }, values);
    }

    /// Notes that a timer is reset.
    pub fn reset(&mut self, key: &TimerKey)
        requires room { 0 < self.old.room }
        requires values_room { length key.now.values ≤ self.old.values_room }
        ensures { self.new ≡ noted self.old (event.Reset key.now) }
    {
        let values = key.values.as_slice();
        let timer = key.name;
        let count = self.count(values);
        self.note(Packed::Reset { count, timer }, values);
    }

    /// Notes that a create made the instance of this number, or none.
    pub fn create(&mut self, process: ProcessId, pid: Option<u32>)
        requires { 0 < self.old.room }
        ensures { self.new ≡ noted self.old (event.Create process pid) }
    {
        self.note(Packed::Create { process, pid }, &[]);
    }

    /// Notes that the transition ends in this state.
    pub fn next_state(&mut self, state: StateId)
        requires { 0 < self.old.room }
        ensures { self.new ≡ noted self.old (event.NextState state) }
    {
        self.note(Packed::NextState { state }, &[]);
    }

    /// Notes that the instance ends by itself.
    pub fn stop(&mut self)
        requires { 0 < self.old.room }
        ensures { self.new ≡ noted self.old event.Stop }
    {
        self.note(Packed::Stop, &[]);
    }

    /// Notes that a transition fails the instance.
    pub fn failed(&mut self, why: Failure)
        requires { 0 < self.old.room }
        ensures { self.new ≡ noted self.old (event.Failed why) }
    {
        self.note(Packed::Failed { why }, &[]);
    }

    /// Notes that the run is whole, and the instance waits in this state.
    pub fn rest(&mut self, state: StateId)
        requires { 0 < self.old.room }
        ensures { self.new ≡ noted self.old (event.Rest state) }
    {
        self.note(Packed::Rest { state }, &[]);
    }

    /// Notes that the run was cut, in this state, or before the start.
    pub fn cut(&mut self, state: Option<StateId>)
        requires { 0 < self.old.room }
        ensures { self.new ≡ noted self.old (event.Cut state) }
    {
        self.note(Packed::Cut { state }, &[]);
    }
}
