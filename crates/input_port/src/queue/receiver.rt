//! What draws from a port, for an owner that lives and for one that has stopped. The atomic steps are those of `steps`.
ghost use Rattle.std.specs.Prelude.{◌≡◌, ◌↔◌, ◌<◌, ◌+◌, ◌-◌, ◌^◌, [], ◌∷◌, ◌≤◌, true, None, length, count_by, Contains, IfErr, IfOk, IfSome, IsErrOf, MatchOption};
ghost use Rattle.input_port.specs.QueueWords.{after_draw, after_draws, after_reset, after_stop, armed_left, due_times, is_active, is_signal, left_with, newborn, owner, popped_list, signals_drawn, AreWaiting, DrainIs, GatherIs, HasDrawn, IsDrawn, IsGathered, IsKnowing, IsLeast, IsSegPassOf, MeetIs, MOST_SETS, NextIs, NothingWaits, PullIs, SetIs, TakeIs, TakesIn};
ghost use Rattle.input_port.specs.Kept.{senders_of, NotesSenders};
ghost use Rattle.port_model.specs.Take.{Takes};
ghost use Rattle.port_model.specs.declared.selection.Class.TheVariants as class;

use crate::queue::finished::Finished;
use crate::queue::refused::refused;
use crate::queue::rule::{Pass, Queue};
use crate::queue::sender::Sender;
use crate::queue::shared::Port;
use crate::queue::steps;
use port_model::inbox::fused;
use port_model::{
    Entry, Fuse, KeptWords, Placed, PlainPort, PortError, Refused, Selection, Taken, Ticks,
    TimerKey,
};
use std::alloc::Global;
use std::marker::Model;
use std::sync::Wait;

/// The receiver of a port, for an owner that lives and for one that has stopped. It has its pass, its own port of one
/// thread, and the counts of the senders gathered and of the signals drawn. Where that was asked for, `puts` has the
/// number of the sender of each entry that was drawn.
#[derive(Drop)]
pub struct Receiver {
    alloc: Global,
    pid: u32,
    pass: Pass,
    plain: PlainPort,
    gathered: u64,
    signals: u64,
    puts: KeptWords,
}

impl Model for Receiver {
    ghost use Rattle.std.specs.Prelude.{◌≡◌, None};
    ghost use Rattle.port_model.specs.Ends.{OwnerState};
    ghost use Rattle.input_port.specs.QueueEnds.{IsOfOwner};
    ghost use Rattle.input_port.specs.Kept.{senders_of};
    ghost use Rattle.port_model.specs.KeptWords.{IsKeptOf};

    ghost Value = { OwnerState };

    ghost view = { λ o. record {
      port = record { web = o.pass.web; heap = o.pass.heap };
      pid = o.pid;
      drawn = o.pass.me.view.client.drawn;
      known = o.pass.me.view.client.seen;
      gathered = o.pass.me.view.client.gathered;
      state = o.plain.state;
      armed = o.plain.armed;
    } };

    ghost invariant = { λ o. IsOfOwner o.pass.me.view.client o.gathered o.signals × (o.pass.me.hand ≡ None)
        × (o.pass.me.spare ≡ None) × IsKeptOf o.puts (senders_of o.pass.me.view.client.drawn) };
}

impl Receiver {
    /// A receiver that has drawn nothing and knows of nothing, from the pass of an owner.
    pub fn new(alloc: Global, pid: u32, pass: Pass) -> Self
        requires view { pass.me.view.client ≡ owner [] [] [] [] }
        requires free { (pass.me.hand ≡ None) × (pass.me.spare ≡ None) }
        ensures { result ≡ newborn (record { web = pass.web; heap = pass.heap }) pid }
    {
        Receiver {
            alloc,
            pid,
            pass,
            plain: PlainPort::new(alloc),
            gathered: 0,
            signals: 0,
            puts: KeptWords::off(),
        }
    }

    /// From now on the number of the sender of each entry is kept that is drawn, as far as there is memory for it. That
    /// nothing was drawn is the caller's condition.
    pub fn keep_puts(&mut self)
        requires { self.old.drawn ≡ [] }
        ensures { self.new ≡ self.old }
    {
        self.puts = KeptWords::new(self.alloc);
    }

    /// How many entries have been drawn. None: the numbers of their senders aren't kept.
    pub fn drawn(&self) -> Option<u32>
        ensures { IfSome result (λ count. count ≡ length self.now.drawn) }
    {
        self.puts.count()
    }

    /// Of each entry that was drawn the number of its sender, in the order in which they were drawn. None: the numbers
    /// aren't kept.
    pub fn into_puts(self) -> Option<Vec<u32>>
        ensures { IfSome result (λ puts. puts.items ≡ senders_of self.drawn) }
    {
        self.puts.into_list()
    }

    /// How many senders have been gathered and not handed back.
    pub fn gathered(&self) -> u64
        ensures { result ≡ length self.now.gathered }
    {
        self.gathered
    }

    /// How many signals have been drawn.
    pub fn signals(&self) -> u64
        ensures { result ≡ signals_drawn self.now }
    {
        self.signals
    }

    /// How many entries wait in the port that are drawn.
    pub fn waiting(&self) -> usize
        ensures { result ≡ length self.now.state.waiting }
    {
        self.plain.waiting_len()
    }

    /// Shows what every owner knows, as a fact.
    pub fn knows(&self)
        ensures { IsKnowing self.now }
    {
        let _ = &self.gathered;
    }

    /// Whether nothing waits, by a look: neither among what is drawn nor, at one moment of the call, in the queue. Nothing
    /// changes. That it is the owner's port is the caller's condition.
    #[inline(always)]
    pub fn is_quiet(&mut self, port: &Port) -> bool
        requires { self.old.port ≡ port.now.queue }
        ensures same { self.new ≡ self.old }
        ensures quiet { result ≡ true → NothingWaits self.old }
    {
        if !self.plain.is_empty() {
            return false;
        }
        steps::is_empty(&port.queue, &mut self.pass)
    }

    /// Takes from the port (Z.102, priority input, save): draws entries until the selection takes one, or until none
    /// is left. After `Nothing` all that the owner knows of is drawn. In a state with a priority input everything is
    /// drawn first. For lack of memory nothing is taken, and what was drawn stays in the port. That it is the owner's
    /// port is the caller's condition.
    pub fn take<R: Wait>(
        &mut self,
        rt: &R,
        port: &Port,
        selection: &Selection,
    ) -> Result<Taken, PortError>
        requires { self.old.port ≡ port.now.queue }
        ensures port { self.new.port ≡ self.old.port }
        ensures take { TakeIs selection.now self.old self.new result }
    {
        if selection.has_priority() {
            return self.take_urgent(rt, port, selection);
        }
        if self.plain.is_empty() {
            return self.take_drawn(rt, port, selection);
        }
        self.take_waiting(rt, port, selection)
    }

    /// Takes where nothing waits: the next entry of the queue, if there is one, and if it isn't saved. That it is the
    /// owner's port, that nothing waits, and that no priority input is selected, is the caller's condition.
    #[inline(always)]
    #[tactic(auto, using(crate::proofs::QueueDrawing::taken_none, crate::proofs::QueueDrawing::taken_next, crate::proofs::QueueDrawing::taken_on))]
    fn take_drawn<R: Wait>(
        &mut self,
        rt: &R,
        port: &Port,
        selection: &Selection,
    ) -> Result<Taken, PortError>
        requires port { self.old.port ≡ port.now.queue }
        requires ordinary { Contains selection.now class.Priority → ⊥ }
        requires empty { self.old.state.waiting ≡ [] }
        ensures port { self.new.port ≡ self.old.port }
        ensures take { TakeIs selection.now self.old self.new result }
    {
        let Some(next) = self.take_next(rt, port, selection)? else {
            return Ok(Taken::Nothing);
        };
        match next {
            // It is saved.
            Taken::Nothing => self.take_waiting(rt, port, selection),
            taken => Ok(taken),
        }
    }

    /// Draws one entry, if the queue has one, where nothing waits, and takes it at once, if it isn't saved. None: the
    /// queue has none. For lack of memory nothing is drawn. That it is the owner's port, and that nothing waits, is the
    /// caller's condition.
    #[inline(always)]
    fn take_next<R: Wait>(
        &mut self,
        rt: &R,
        port: &Port,
        selection: &Selection,
    ) -> Result<Option<Taken>, PortError>
        requires port { self.old.port ≡ port.now.queue }
        requires empty { self.old.state.waiting ≡ [] }
        ensures port { self.new.port ≡ self.old.port }
        ensures next { NextIs selection.now self.old self.new result }
    {
        if steps::is_empty(&port.queue, &mut self.pass) {
            return Ok(None);
        }
        if self.signals == u64::MAX || self.plain.reserve().is_err() {
            return Err(PortError::Memory);
        }
        let Some(placed) = steps::pop(rt, &port.queue, &mut self.pass) else {
            return Ok(None);
        };
        self.signals += placed.signals();
        note_put(&mut self.puts, &placed);
        let taken = fused::take_drawn(&mut self.plain, self.pid, placed, selection);
        Ok(Some(taken))
    }

    /// Takes from what waits, and else draws entries until the selection takes one, or until none is left. That it is
    /// the owner's port, and that no priority input is selected, is the caller's condition.
    #[inline(never)]
    fn take_waiting<R: Wait>(
        &mut self,
        rt: &R,
        port: &Port,
        selection: &Selection,
    ) -> Result<Taken, PortError>
        requires port { self.old.port ≡ port.now.queue }
        requires ordinary { Contains selection.now class.Priority → ⊥ }
        ensures port { self.new.port ≡ self.old.port }
        ensures take { TakeIs selection.now self.old self.new result }
    {
        for _ in rt.forever() {
            match self.choose(selection) {
                Taken::Nothing => {}
                taken => return Ok(taken),
            }
            if !self.pull(rt, port)? {
                return Ok(Taken::Nothing);
            }
        }
        unreachable!()
    }

    /// In a state with a priority input: where an entry of one is drawn already, takes it. Else draws all that the
    /// queue holds first.
    fn take_urgent<R: Wait>(
        &mut self,
        rt: &R,
        port: &Port,
        selection: &Selection,
    ) -> Result<Taken, PortError>
        requires { self.old.port ≡ port.now.queue }
        ensures port { self.new.port ≡ self.old.port }
        ensures take { TakeIs selection.now self.old self.new result }
    {
        match self.plain.take_priority(selection) {
            Some(got) => Ok(Taken::Consumed(got)),
            None => self.take_fresh(rt, port, selection),
        }
    }

    /// Draws all that the queue holds, and takes then.
    fn take_fresh<R: Wait>(
        &mut self,
        rt: &R,
        port: &Port,
        selection: &Selection,
    ) -> Result<Taken, PortError>
        requires { self.old.port ≡ port.now.queue }
        ensures port { self.new.port ≡ self.old.port }
        ensures take { TakeIs selection.now self.old self.new result }
    {
        self.drain(rt, port)?;
        Ok(self.choose(selection))
    }

    /// Draws all that the queue holds, up to a fresh point. For lack of memory it stops before. That it is the owner's
    /// port is the caller's condition.
    pub fn drain<R: Wait>(&mut self, rt: &R, port: &Port) -> Result<(), PortError>
        requires { self.old.port ≡ port.now.queue }
        ensures port { self.new.port ≡ self.old.port }
        ensures drawn { HasDrawn self.old self.new }
        ensures fresh { DrainIs self.new result }
    {
        for _ in rt.forever() {
            if !self.pull(rt, port)? {
                return Ok(());
            }
        }
        unreachable!()
    }

    /// Takes from what is drawn.
    fn choose(&mut self, selection: &Selection) -> Taken
        ensures take { Takes selection.now self.old.state result self.new.state }
        ensures same { self.new ≡ record self.old { state = self.new.state; armed = armed_left result self.old.armed } }
    {
        self.plain.take(selection)
    }

    /// Draws one entry, if the queue has one. The room for it is made first, so that no entry is lost for lack of
    /// memory. An empty queue costs a look.
    fn pull<R: Wait>(&mut self, rt: &R, port: &Port) -> Result<bool, PortError>
        requires { self.old.port ≡ port.now.queue }
        ensures port { self.new.port ≡ self.old.port }
        ensures pulled { PullIs self.old self.new result }
    {
        if steps::is_empty(&port.queue, &mut self.pass) {
            return Ok(false);
        }
        if self.signals == u64::MAX || self.plain.reserve().is_err() {
            return Err(PortError::Memory);
        }
        match steps::pop(rt, &port.queue, &mut self.pass) {
            None => Ok(false),
            Some(placed) => {
                self.signals += placed.signals();
                note_put(&mut self.puts, &placed);
                fused::draw(&mut self.plain, self.pid, placed);
                Ok(true)
            }
        }
    }

    /// Takes a sender in: the owner then knows all that the sender had seen. For lack of memory the sender comes back.
    /// That the port is that of both is the caller's condition.
    pub fn gather<R: Wait>(
        &mut self,
        rt: &R,
        port: &Port,
        sender: Sender,
    ) -> Result<(), Refused<Sender>>
        requires owner { self.old.port ≡ port.now.queue }
        requires sender { sender.port ≡ port.now.queue }
        ensures port { self.new.port ≡ self.old.port }
        ensures gather { GatherIs self.old self.new sender result }
    {
        if self.gathered == u64::MAX || self.signals == u64::MAX {
            return Err(refused(sender));
        }
        if self.plain.reserve().is_err() {
            return Err(refused(sender));
        }
        let popped = take_in(rt, &port.queue, &mut self.pass, sender.into_pass());
        self.signals += signals_in(&popped);
        note_popped(&mut self.puts, &popped);
        draw_popped(&mut self.plain, self.pid, popped);
        self.gathered += 1;
        Ok(())
    }

    /// Takes a sender in and gives it back: the owner then knows all that the sender had seen, and the sender has seen
    /// all that the owner knows. For lack of memory the sender comes back as it was. That the port is that of both is
    /// the caller's condition.
    pub fn meet<R: Wait>(
        &mut self,
        rt: &R,
        port: &Port,
        sender: Sender,
    ) -> Result<Sender, Refused<Sender>>
        requires owner { self.old.port ≡ port.now.queue }
        requires sender { sender.port ≡ port.now.queue }
        ensures port { self.new.port ≡ self.old.port }
        ensures meet { MeetIs self.old self.new sender result }
    {
        if self.signals == u64::MAX || self.plain.reserve().is_err() {
            return Err(refused(sender));
        }
        let tally = sender.tally();
        let popped = take_in(rt, &port.queue, &mut self.pass, sender.into_pass());
        self.signals += signals_in(&popped);
        note_popped(&mut self.puts, &popped);
        draw_popped(&mut self.plain, self.pid, popped);
        let pass = steps::split_again(&port.queue, &mut self.pass);
        Ok(Sender::again(pass, tally))
    }

    /// Sets a timer for the time `due`, after a reset. Refused with `SetsSpent` after 2^62 sets, and for lack of
    /// memory; the key is dropped then, and nothing changes.
    pub fn set(&mut self, key: TimerKey, due: Ticks) -> Result<Fuse, PortError>
        ensures port { self.new.port ≡ self.old.port }
        ensures set { SetIs self.old self.new key due result }
        ensures spent { IsErrOf result PortError.SetsSpent ↔ (self.old.state.sets ≡ MOST_SETS) }
    {
        fused::set(&mut self.plain, self.pid, key, due)
    }

    /// Resets a timer: it isn't active any more, and its signal doesn't wait.
    pub fn reset(&mut self, key: &TimerKey)
        ensures { self.new ≡ after_reset self.old key.now }
    {
        self.plain.reset(key);
    }

    /// Whether a timer is active.
    pub fn active(&self, key: &TimerKey) -> bool
        ensures { result ≡ is_active key.now self.now.state.timers }
    {
        self.plain.active(key)
    }

    /// The least due time of a timer that is set and has not expired.
    pub fn next_due(&self) -> Option<Ticks>
        ensures { IsLeast (due_times self.now.state.timers) result }
    {
        self.plain.next_due()
    }

    /// Ends the port (Z.101, stop): what waits is discarded, no timer is active, and later entries have no effect.
    /// Takes no memory.
    pub fn stop(&mut self)
        ensures { self.new ≡ after_stop self.old }
    {
        self.plain.stop();
    }

    /// The list of what is drawn after the stop. Takes no memory.
    pub fn nothing_since(&self) -> Vec<Entry>
        ensures { result.items ≡ [] }
    {
        Vec::new(self.alloc)
    }

    /// An entry popped after the stop, which has no effect on the port. That it is the owner's port is the caller's
    /// condition.
    pub fn pop<R: Wait>(&mut self, rt: &R, port: &Port) -> Option<Placed>
        requires port { self.old.port ≡ port.now.queue }
        requires fewer { signals_drawn self.old < 2 ^ 64 - 1 }
        ensures port { self.new.port ≡ self.old.port }
        ensures state { self.new.state ≡ self.old.state }
        ensures popped { MatchOption result ((self.new ≡ self.old) × (self.new.known ≡ self.new.drawn))
            (λ placed. IsDrawn self.old
            (record self.new { state = after_draw self.old.pid self.old.state placed }) (placed ∷ [])) }
    {
        let popped = steps::pop(rt, &port.queue, &mut self.pass);
        self.signals += signals_in(&popped);
        note_popped(&mut self.puts, &popped);
        popped
    }

    /// A gathering after the stop, with the entry popped on the way. That the port is that of both is the caller's
    /// condition.
    pub fn absorb<R: Wait>(&mut self, rt: &R, port: &Port, sender: Sender) -> Option<Placed>
        requires owner { self.old.port ≡ port.now.queue }
        requires sender { sender.port ≡ port.now.queue }
        requires fewer { length self.old.gathered < 2 ^ 64 - 1 }
        requires few { signals_drawn self.old < 2 ^ 64 - 1 }
        ensures port { self.new.port ≡ self.old.port }
        ensures state { self.new.state ≡ self.old.state }
        ensures gather { IsGathered self.old
            (record self.new { state = after_draws self.old.pid self.old.state (popped_list result) })
            sender (popped_list result) }
    {
        let popped = take_in(rt, &port.queue, &mut self.pass, sender.into_pass());
        self.gathered += 1;
        self.signals += signals_in(&popped);
        note_popped(&mut self.puts, &popped);
        popped
    }

    /// The end: these entries are left.
    pub fn leave(self, entries: Vec<Entry>) -> Finished
        ensures { result ≡ left_with self entries.items }
    {
        Finished::new(entries, self.pass)
    }

    /// The end: what waits in the port of the standard is left, in order, each timer's signal with its fuse. For want
    /// of memory it comes back as it was.
    pub fn leave_waiting(mut self) -> Result<Finished, Receiver>
        ensures left { IfOk result (λ end. end ≡ left_with self end.entries) }
        ensures waiting { IfOk result (λ end. AreWaiting self.state.waiting self.pid self.armed end.entries) }
        ensures back { IfErr result (λ back. back ≡ self) }
    {
        match fused::into_entries(self.alloc, self.pid, self.plain) {
            Ok(list) => Ok(Finished::new(list, self.pass)),
            Err(plain) => {
                self.plain = plain;
                Err(self)
            }
        }
    }
}

/// How many signals were popped.
fn signals_in(popped: &Option<Placed>) -> u64
    ensures few { result ≤ 1 }
    ensures count { result ≡ count_by is_signal (popped_list popped.now) }
{
    match popped {
        None => 0,
        Some(placed) => placed.signals(),
    }
}

/// Notes the number of the sender of an entry that is drawn.
#[inline(always)]
fn note_put(puts: &mut KeptWords, placed: &Placed)
    ensures { NotesSenders puts.old (placed.now ∷ []) puts.new }
{
    puts.note(placed.number.get());
}

/// Notes the number of the sender of what was popped.
#[inline(always)]
fn note_popped(puts: &mut KeptWords, popped: &Option<Placed>)
    ensures { NotesSenders puts.old (popped_list popped.now) puts.new }
{
    match popped {
        None => {}
        Some(placed) => note_put(puts, placed),
    }
}

/// Takes a sender's pass in, and pops one entry, if the queue has one: this pop tells that what the two had seen are
/// both beginnings of the put list.
fn take_in<R: Wait>(rt: &R, queue: &Queue, pass: &mut Pass, other: Pass) -> Option<Placed>
    requires queue { IsSegPassOf queue.now pass.old × IsSegPassOf queue.now other }
    requires rights { (pass.old.me.view.client.takes ≡ true) × (other.me.view.client.sends ≡ true) }
    ensures queue { IsSegPassOf queue.now pass.new }
    ensures taken { TakesIn pass.old.me.view.client other.me.view.client pass.new.me.view.client (popped_list result) }
{
    steps::take_back(queue, pass, other);
    steps::pop(rt, queue, pass)
}

/// Puts what was popped into the owner's port, into the room that was made.
fn draw_popped(plain: &mut PlainPort, pid: u32, popped: Option<Placed>)
    requires { 0 < plain.old.room }
    ensures state { plain.new.state ≡ after_draws pid plain.old.state (popped_list popped) }
    ensures armed { plain.new.armed ≡ plain.old.armed }
{
    if let Some(placed) = popped {
        fused::draw(plain, pid, placed);
    }
}
