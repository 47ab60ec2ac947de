//! Outputs (Z.102: output).

ghost use Rattle.std.specs.Prelude.{◌≡◌, ◌⊎◌, ◌<◌, ◌≤◌, ◌∷◌, [], IfErr, IfOk, List, length, OnErr, OnOk, Ok, Err, map, option_copied};
ghost use Rattle.std.specs.Option.{option_map};
ghost use Rattle.run_record.specs.Knowledge.{environment_of};
ghost use Rattle.run_record.specs.Memory.{FailsAs, list_wants_memory};
ghost use Rattle.run_record.specs.Value.{values_at};
ghost use Rattle.run_semantics.specs.Fails.{named_by};
ghost use Rattle.sdl_interp.specs.Output.{Sends};
ghost use Rattle.sdl_interp.specs.Running.{GoesOn, StaysAmid, WorksSame};
ghost use Rattle.sdl_interp.specs.Work.{FailsHere, WorksAmiss, WorksTo, amid};
ghost use Rattle.sdl_system.specs.Body as body;
ghost use Rattle.sdl_system.specs.Table.{sending, whither_of};
ghost use Rattle.sdl_system.specs.Term.{term_of};

use crate::transitions::machine::make_room;
use crate::transitions::running::Core;
use port_model::{Inbox, Item, Pid, SignalId, Value, Values};
use run_record::{Failure, Knowledge, evaluate_all, evaluate_at, sorts_of};
use run_semantics::World;
use sdl_system::{Dest, Destination, Expression, Output, Sending, Sort, Target, pid_of};
use std::alloc::Global;

impl<'s, P: Inbox + Drop> Core<'s, P> {
    /// Sends each signal, one after the other.
    pub(crate) fn send_all<W: World>(
        &mut self,
        alloc: Global,
        output: &Output,
        world: &mut W,
    ) -> Result<(), Failure>
        requires { GoesOn P.owning P.since self.old }
        ensures amid { StaysAmid P.owning P.since self.old self.new }
        ensures ok { let all = map sending output.now.signals.items in
            let to = option_map whither_of output.now.to in
            OnOk result (WorksTo P.owning (amid (body.output all to)) self.old (W.value world.old)
            (amid (body.output [] to)) self.new (W.value world.new)) }
        ensures err { let all = map sending output.now.signals.items in
            let to = option_map whither_of output.now.to in
            IfErr result (WorksAmiss P.owning (amid (body.output all to)) self.old (W.value world.old)
            self.new (W.value world.new)) }
    {
        let to = output.to.as_ref();
        for sending in &output.signals {
            self.send(alloc, sending, to, world)?;
        }
        Ok(())
    }

    /// Whom the output names is evaluated first, then the values, and then it is asked whom the signal reaches.
    fn send<W: World>(
        &mut self,
        alloc: Global,
        one: &Sending,
        to: Option<&Destination>,
        world: &mut W,
    ) -> Result<(), Failure>
        requires { GoesOn P.owning P.since self.old }
        ensures amid { StaysAmid P.owning P.since self.old self.new }
        ensures ok { let whom = option_map whither_of (option_copied to.entry) in
            OnOk result ((more : List body.Sending)
            → WorksTo P.owning (amid (body.output (sending one.now ∷ more) whom)) self.old (W.value world.old)
            (amid (body.output more whom)) self.new (W.value world.new)) }
        ensures err { let whom = option_map whither_of (option_copied to.entry) in
            IfErr result (λ why. (more : List body.Sending)
            → FailsHere P.owning (amid (body.output (sending one.now ∷ more) whom)) self.old why) }
        ensures same { OnErr result (WorksSame P.owning self.old self.new) }
        ensures quiet { OnErr result (W.value world.new ≡ W.value world.old) }
    {
        let named = named_by(alloc, to, &self.knowledge())?;
        let sorts = sorts_of(self.system, one.signal);
        if let [expression] = one.values.as_slice() {
            let value = only_value(alloc, expression, sorts, &self.knowledge())?;
            make_room(&mut self.machine, 1)?;
            self.send_value(alloc, one.signal, named, value, world)?;
            return Ok(());
        }
        let values = evaluate_all(alloc, &one.values, sorts, &self.knowledge())?;
        make_room(&mut self.machine, values.len())?;
        self.send_values(one.signal, named, values, world)?;
        Ok(())
    }

    /// Sends a signal of one value, and answers whom it reaches. What was sent is recorded.
    #[inline(always)]
    fn send_value<W: World>(
        &mut self,
        alloc: Global,
        signal: SignalId,
        named: Dest,
        value: Value,
        world: &mut W,
    ) -> Result<Target, Failure>
        requires room { 0 < self.old.machine.trace.room }
        requires values_room { 0 < self.old.machine.trace.values_room }
        ensures sent { IfOk result (Sends P.owning P.since signal named (value ∷ [])
            self.old (W.value world.old) self.new (W.value world.new)) }
        ensures err { IfErr result (λ why. why ≡ Failure.Memory) }
        ensures same { OnErr result (self.new ≡ self.old) }
        ensures quiet { OnErr result (W.value world.new ≡ W.value world.old) }
    {
        let mut values = Values::none(alloc);
        if let Err(_) = values.push(value) {
            return Err(Failure::Memory);
        }
        self.deliver(signal, named, values, &[value], world)
    }

    /// Sends a signal with its values, and answers whom it reaches. What was sent is recorded.
    #[inline(always)]
    fn send_values<W: World>(
        &mut self,
        signal: SignalId,
        named: Dest,
        values: Values,
        world: &mut W,
    ) -> Result<Target, Failure>
        requires room { 0 < self.old.machine.trace.room }
        requires values_room { length values ≤ self.old.machine.trace.values_room }
        ensures sent { IfOk result (Sends P.owning P.since signal named values
            self.old (W.value world.old) self.new (W.value world.new)) }
        ensures err { IfErr result (λ why. why ≡ Failure.Memory) }
        ensures same { OnErr result (self.new ≡ self.old) }
        ensures quiet { OnErr result (W.value world.new ≡ W.value world.old) }
    {
        let copy = values.copied().map_err(|_| Failure::Memory)?;
        self.deliver(signal, named, copy, values.as_slice(), world)
    }

    /// Sends a signal to whom it reaches, and records it with these values, which are its own.
    #[inline(always)]
    fn deliver<W: World>(
        &mut self,
        signal: SignalId,
        named: Dest,
        values: Values,
        told: &[Value],
        world: &mut W,
    ) -> Result<Target, Failure>
        requires told { told.now ≡ values }
        requires room { 0 < self.old.machine.trace.room }
        requires values_room { length values ≤ self.old.machine.trace.values_room }
        ensures sent { IfOk result (Sends P.owning P.since signal named values
            self.old (W.value world.old) self.new (W.value world.new)) }
        ensures err { IfErr result (λ why. why ≡ Failure.Memory) }
        ensures same { OnErr result (self.new ≡ self.old) }
        ensures quiet { OnErr result (W.value world.new ≡ W.value world.old) }
    {
        let process = self.machine.trace.process();
        let target = world.route(self.system, signal, process, named);
        let item = Item {
            name: signal,
            values,
            sender: Pid::Of(self.machine.trace.pid()),
        };
        world.send(target, item).map_err(|_| Failure::Memory)?;
        self.machine.trace.output(signal, named, told, target);
        Ok(target)
    }
}

/// Evaluates the one value of a signal at its place.
#[inline(always)]
fn only_value<P: Inbox>(
    alloc: Global,
    expression: &Expression,
    sorts: &[Sort],
    knowledge: &Knowledge<'_, P>,
) -> Result<Value, Failure>
    ensures ok { let terms = term_of expression.now ∷ [] in
        IfOk result (λ value. values_at (environment_of knowledge.now) sorts.now terms ≡ Ok (value ∷ [])) }
    ensures err { let here = environment_of knowledge.now in
        let terms = term_of expression.now ∷ [] in
        IfErr result (λ why. FailsAs (list_wants_memory terms) (values_at here sorts.now terms) why) }
{
    let sort = sorts.first().copied();
    evaluate_at(alloc, expression, sort, knowledge)
}

/// Whom an output names.
fn named_by<P: Inbox>(
    alloc: Global,
    to: Option<&Destination>,
    knowledge: &Knowledge<'_, P>,
) -> Result<Dest, Failure>
    ensures ok { let whom = option_map whither_of (option_copied to.entry) in
        IfOk result (λ named. named_by (environment_of knowledge.now) whom ≡ Ok named) }
    ensures err { let whom = option_map whither_of (option_copied to.entry) in
        IfErr result (λ why. (why ≡ Failure.Memory) ⊎ (named_by (environment_of knowledge.now) whom ≡ Err why)) }
{
    match to {
        None => Ok(Dest::Path),
        Some(Destination::Process(process)) => Ok(Dest::Process(*process)),
        Some(Destination::Pid(expression)) => {
            if let Some(Value::Pid(pid)) = knowledge.known(expression) {
                return Ok(Dest::Pid(pid));
            }
            let value = evaluate_at(alloc, expression, Some(Sort::Pid), knowledge)?;
            Ok(Dest::Pid(pid_of(value)))
        }
    }
}
