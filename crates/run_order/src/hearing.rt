//! What the environment does: the script, timers that expire, and the clock.

ghost use Rattle.std.specs.Prelude.{◌≡◌, ◌↔◌, ◌+◌, ◌∷◌, ℕ, [], IfNone, IfOk, IfSome, IsTrue, MatchOption, false, is_some};
ghost use Rattle.run_order.specs.Interleaving.{Around, IsNothingDue};
ghost use Rattle.run_order.specs.Kept.{IsFirstFuseOf, IsFixed, IsNextTime, IsNoLineNow, IsSooner, LeadsIf, SaysHeard, is_heard};
ghost use Rattle.run_order.specs.Noted.{IsNoTick};
ghost use Rattle.serial_order.specs.Execution.{IsNoFuseBefore, IsNoLineBefore};

use crate::replay::Replay;
use port_model::{Item, Ticks};
use sdl_script::ScriptLine;
use sdl_system::{Source, Target};
use std::alloc::AllocError;

/// What was heard of the script.
#[derive(Clone, Copy)]
pub enum Heard {
    /// No line is to be heard now.
    Nothing,
    /// A line without a signal.
    Time,
    /// A signal, which goes to this target.
    Signal(Target),
}

impl<'s> Replay<'s> {
    /// The first fuse in due order expires, if its time has come, in the port of the instance with this number. None:
    /// none is due. Nothing has changed then. For lack of memory nothing is known of the run any more.
    pub fn expire(&mut self) -> Result<Option<u32>, AllocError>
        ensures leads { IfOk result (λ expired. LeadsIf (is_some expired) self.old.order [] Around self.new.order) }
        ensures none { IfOk result (λ expired. IfNone expired
            (IsNoFuseBefore self.old.order.until self.old.order.fuses)) }
        ensures number { IfOk result (λ expired. IfSome expired (IsFirstFuseOf self.old.order.fuses)) }
        ensures fixed { IsFixed self.old.order self.new.order }
    {
        if !self.begun {
            return Ok(None);
        }
        let Some(fuse) = self.agenda.fuses.fire(self.agenda.clock) else {
            return Ok(None);
        };
        let number = fuse.pid();
        self.fire(fuse)?;
        Ok(Some(number))
    }

    /// Hears the next line of the script: its signal goes where the routes lead it by those who live now. Nothing:
    /// no line is to be heard now. Nothing has changed then. For lack of memory nothing is known of the run any more.
    pub fn hear(&mut self) -> Result<Heard, AllocError>
        ensures leads { IfOk result (λ heard. LeadsIf (is_heard heard) self.old.order (0 ∷ []) Around self.new.order) }
        ensures none { IfOk result (λ heard. is_heard heard ≡ false → IsNoLineNow self.old.order) }
        ensures heard { IfOk result (SaysHeard self.old.order self.old.order.script) }
        ensures fixed { IsFixed self.old.order self.new.order }
    {
        if !self.begun {
            return Ok(Heard::Nothing);
        }
        if !self.is_no_fuse_by(self.agenda.clock) {
            return Ok(Heard::Nothing);
        }
        let Some((line, later)) = self.script.split_first() else {
            return Ok(Heard::Nothing);
        };
        if self.agenda.clock < line.at {
            return Ok(Heard::Nothing);
        }
        let Some(signal) = &line.signal else {
            self.script = later;
            return Ok(Heard::Time);
        };
        let item = Item {
            name: signal.item.name,
            values: signal.item.values.copied()?,
            sender: signal.item.sender,
        };
        let living = self.roster.least();
        let target = self
            .system
            .route(signal.item.name, Source::Env, signal.to, living);
        self.script = later;
        self.send(target, item)?;
        Ok(Heard::Signal(target))
    }

    /// Moves the clock to the next time. False: somebody may have something to do, something is due, or there is
    /// nothing to wait for. Nothing has changed then.
    pub fn tick(&mut self) -> bool
        ensures leads { LeadsIf result self.old.order [] Around self.new.order }
        ensures none { result ≡ false → IsNoTick self.old.order self.old.noted }
        ensures noted { self.new.noted ≡ self.old.noted }
        ensures fixed { IsFixed self.old.order self.new.order }
    {
        if !self.is_nothing_due() {
            return false;
        }
        if !self.is_still() {
            return false;
        }
        let Some(time) = self.next_time() else {
            return false;
        };
        self.agenda.clock = time;
        self.begun = true;
        true
    }

    /// The sooner of the least time of a fuse and the next line's. None: nothing is left, or no line is left and all
    /// fuses are due after the last one.
    fn next_time(&self) -> Option<Ticks>
        ensures { MatchOption result ((time : ℕ) → IsNextTime self.now.order time → ⊥) (IsNextTime self.now.order) }
    {
        sooner(self.agenda.fuses.next_due(), self.script, self.end)
    }

    /// Whether the environment has nothing to do now.
    pub(crate) fn is_nothing_due(&self) -> bool
        ensures { IsTrue result ↔ IsNothingDue self.now.order }
    {
        if !self.begun {
            return true;
        }
        if !self.is_no_fuse_by(self.agenda.clock) {
            return false;
        }
        self.is_no_line_by(self.agenda.clock)
    }

    /// Whether no fuse is due by a time.
    pub(crate) fn is_no_fuse_by(&self, last: Ticks) -> bool
        ensures { IsTrue result ↔ IsNoFuseBefore (last + 1) self.now.order.fuses }
    {
        let Some(due) = self.agenda.fuses.next_due() else {
            return true;
        };
        if due <= last {
            return false;
        }
        true
    }

    /// Whether no line is to be heard by a time.
    fn is_no_line_by(&self, last: Ticks) -> bool
        ensures { IsTrue result ↔ IsNoLineBefore (last + 1) self.now.order.script }
    {
        let Some(line) = self.script.first() else {
            return true;
        };
        if line.at <= last {
            return false;
        }
        true
    }
}

/// The sooner of a time, if there is one, and the next line's. None: there is neither, or no line is left and the time
/// is past the end.
fn sooner(due: Option<Ticks>, script: &[ScriptLine], end: Ticks) -> Option<Ticks>
    ensures { MatchOption result ((time : ℕ) → IsSooner due script.now end time → ⊥) (IsSooner due script.now end) }
{
    let Some(line) = script.first() else {
        return match due {
            None => None,
            Some(due) if end < due => None,
            Some(due) => Some(due),
        };
    };
    match due {
        Some(due) => Some(Ticks::earlier_of(due, line.at)),
        None => Some(line.at),
    }
}
