//! The order in which a replay tells the events.

ghost use Rattle.std.specs.Prelude.{◌≡◌, ◌↔◌, ◌∷◌, [], IfNone, IfOk, IfSome, IsTrue, List, false, is_some, true};
ghost use Rattle.std.specs.List.{AllZip};
ghost use Rattle.run_order.specs.Chronicle.{replay_of, run_of, run_with};
ghost use Rattle.run_order.specs.Comparing.{SaySame};
ghost use Rattle.run_order.specs.Endings.{IfPart, IsNotOf, tellers_in};
ghost use Rattle.run_order.specs.Interleaving.{Around, Within};
ghost use Rattle.run_order.specs.Kept.{IsFirstFuseOf, IsNoLineNow, IsNoLook, IsNoStep, IsNoTell, LeadsBy, LeadsIf, SaysHeard, is_heard};
ghost use Rattle.run_order.specs.Noted.{IsNoTick, IsNotedNoMore};
ghost use Rattle.run_order.specs.OneOrder.{EndsSo};
ghost use Rattle.run_order.specs.OrderState.{beginning};
ghost use Rattle.run_semantics.specs.Behaves.{AreBehaviours};
ghost use Rattle.sdl_system.specs.Behaviour.{Behaviour};
ghost use Rattle.serial_order.specs.Execution.{IsNoFuseBefore};

use crate::answers::Answers;
use crate::comparing::say_same;
use crate::hearing::Heard;
use crate::member::Move;
use crate::replay::Replay;
use port_model::Ticks;
use run_record::{Record, Report};
use sdl_script::{Script, ScriptLine};
use sdl_system::System;
use std::alloc::{AllocError, Global};
use std::marker::Model;

/// A replay, and whose events it has told, one after the other. Whatever calls are made, in whatever order, what is
/// told is a run in one order.
#[derive(Drop)]
pub struct Chronicle<'s> {
    system: &'s System,
    /// All lines of the script.
    lines: &'s [ScriptLine],
    replay: Replay<'s>,
    /// The number of the instance for each event that is told, 0 for a line of the script.
    tellers: Vec<u32>,
    /// The environment has done nothing since the last transition began, or since the beginning.
    in_transition: bool,
    /// Memory lacked, and nothing is known any more.
    lost: bool,
}

/// How far a report is told: the number of the instance whose event is told, for each event, one after the other; 0 for
/// a line of the script.
#[derive(Drop)]
pub enum Ending {
    /// All its events are told, and no others.
    Whole(Vec<u32>),
    /// What was told isn't all that the report says, or is something else.
    Part(Vec<u32>),
}

impl<'s> Model for Chronicle<'s> {
    ghost use Rattle.std.specs.Coded.{codes};
    ghost use Rattle.run_order.specs.Chronicle.{ChronicleState, IsChronicle};
    ghost use Rattle.sdl_system.specs.contracts.expression.Expression as expression;

    ghost Value = { ChronicleState };

    ghost coded = { Prim.hlevel (codes, expression.the_row.coded) };

    ghost view = { λ c. record {
      system = c.system.now;
      lines = c.lines.now;
      now = c.replay.order;
      noted = c.replay.noted;
      tellers = c.tellers.items;
      in_transition = c.in_transition;
      lost = c.lost;
    } };

    ghost invariant = { λ c. IsChronicle (record {
      system = c.system.now;
      lines = c.lines.now;
      now = c.replay.order;
      noted = c.replay.noted;
      tellers = c.tellers.items;
      in_transition = c.in_transition;
      lost = c.lost;
    }) };
}

impl<'s> Chronicle<'s> {
    /// A run before its first step: nothing is told.
    pub fn new(alloc: Global, system: &'s System, script: &'s Script) -> Result<Self, AllocError>
        ensures run { IfOk result (λ chronicle. run_of chronicle ≡ run_with system.now script.now.lines.items) }
        ensures begins { IfOk result (λ chronicle. chronicle.now ≡ beginning system.now script.now.lines.items) }
        ensures untold { IfOk result (λ chronicle. chronicle.tellers ≡ []) }
        ensures known { IfOk result (λ chronicle. chronicle.lost ≡ false) }
    {
        Ok(Chronicle {
            system,
            lines: script.lines.as_slice(),
            replay: Replay::new(alloc, system, script)?,
            tellers: Vec::new(alloc),
            in_transition: true,
            lost: false,
        })
    }

    /// The replay.
    pub fn replay(&self) -> &Replay<'s>
        ensures { result.now ≡ replay_of self.now }
    {
        &self.replay
    }

    /// One step of the instance with this number, as `Replay::make_step` does it.
    pub fn make_step(
        &mut self,
        alloc: Global,
        number: u32,
        answers: &mut Answers<'_>,
    ) -> Result<Move, AllocError>
        ensures leads { IfOk result (λ made. LeadsBy made self.old.now number self.new.now) }
        ensures none { IfOk result (λ made. made ≡ Move.Nothing → IsNoStep self.old.now number) }
        ensures noted { IfOk result (λ made. made ≡ Move.Nothing
            → IsNotedNoMore (replay_of self.old) number (replay_of self.new)) }
        ensures known { IfOk result (λ made. self.new.lost ≡ self.old.lost) }
        ensures same { run_of self.new ≡ run_of self.old }
    {
        self.tellers.reserve(1)?;
        let was_lost = self.lost;
        self.lost = true;
        let made = self.replay.make_step(alloc, number, answers)?;
        self.lost = was_lost;
        if let Move::Began = made {
            self.tellers.push_reserved(number);
            self.in_transition = true;
            return Ok(made);
        }
        Ok(made)
    }

    /// Looks up where the next output of an instance goes, as `Replay::look_up` does it.
    pub fn look_up(&mut self, number: u32) -> bool
        ensures leads { LeadsIf result self.old.now [] Within self.new.now }
        ensures none { result ≡ false → IsNoLook self.old.now number }
        ensures known { self.new.lost ≡ self.old.lost }
        ensures same { run_of self.new ≡ run_of self.old }
    {
        self.replay.look_up(number)
    }

    /// Tells the next event of an instance, as `Replay::tell` does it.
    pub fn tell(&mut self, alloc: Global, number: u32) -> Result<bool, AllocError>
        ensures leads { IfOk result (λ told. LeadsIf told self.old.now (number ∷ []) Within self.new.now) }
        ensures none { IfOk result (λ told. told ≡ false → IsNoTell self.old.now number) }
        ensures known { IfOk result (λ told. self.new.lost ≡ self.old.lost) }
        ensures same { run_of self.new ≡ run_of self.old }
    {
        self.tellers.reserve(1)?;
        let was_lost = self.lost;
        self.lost = true;
        let told = self.replay.tell(alloc, number)?;
        self.lost = was_lost;
        if told {
            self.tellers.push_reserved(number);
            return Ok(true);
        }
        Ok(false)
    }

    /// The first fuse in due order expires, as `Replay::expire` does it.
    pub fn expire(&mut self) -> Result<Option<u32>, AllocError>
        ensures leads { IfOk result (λ expired. LeadsIf (is_some expired) self.old.now [] Around self.new.now) }
        ensures none { IfOk result (λ expired. IfNone expired (IsNoFuseBefore self.old.now.until self.old.now.fuses)) }
        ensures number { IfOk result (λ expired. IfSome expired (IsFirstFuseOf self.old.now.fuses)) }
        ensures known { IfOk result (λ expired. self.new.lost ≡ self.old.lost) }
        ensures same { run_of self.new ≡ run_of self.old }
    {
        let was_lost = self.lost;
        self.lost = true;
        let expired = self.replay.expire()?;
        self.lost = was_lost;
        match expired {
            Some(number) => {
                self.in_transition = false;
                Ok(Some(number))
            }
            None => Ok(None),
        }
    }

    /// Hears the next line of the script, as `Replay::hear` does it.
    pub fn hear(&mut self) -> Result<Heard, AllocError>
        ensures leads { IfOk result (λ heard. LeadsIf (is_heard heard) self.old.now (0 ∷ []) Around self.new.now) }
        ensures none { IfOk result (λ heard. is_heard heard ≡ false → IsNoLineNow self.old.now) }
        ensures heard { IfOk result (SaysHeard self.old.now self.old.now.script) }
        ensures known { IfOk result (λ heard. self.new.lost ≡ self.old.lost) }
        ensures same { run_of self.new ≡ run_of self.old }
    {
        self.tellers.reserve(1)?;
        let was_lost = self.lost;
        self.lost = true;
        let heard = self.replay.hear()?;
        self.lost = was_lost;
        if let Heard::Nothing = heard {
            return Ok(heard);
        }
        self.in_transition = false;
        self.tellers.push_reserved(0);
        Ok(heard)
    }

    /// Moves the clock to the next time, as `Replay::tick` does it.
    pub fn tick(&mut self) -> bool
        ensures leads { LeadsIf result self.old.now [] Around self.new.now }
        ensures none { result ≡ false → IsNoTick self.old.now self.old.noted }
        ensures known { self.new.lost ≡ self.old.lost }
        ensures same { run_of self.new ≡ run_of self.old }
    {
        if self.replay.tick() {
            self.in_transition = false;
            return true;
        }
        false
    }

    /// Whose events were told, one after the other, and whether these are all events of a report. Refused for lack of
    /// memory alone, now or before.
    pub fn finish(self, alloc: Global, report: &Report) -> Result<Ending, AllocError>
        ensures ends { IfOk result (λ ending. (ps : List Behaviour) → AreBehaviours self.entry.system ps
            → EndsSo ps self.entry.system self.entry.lines report.now ending) }
        ensures told { IfOk result (λ ending. tellers_in ending ≡ self.entry.tellers) }
        ensures part { IfOk result (λ ending. (ps : List Behaviour) → AreBehaviours self.entry.system ps
            → IfPart ending (IsNotOf ps self.entry report.now)) }
    {
        let Chronicle {
            replay,
            tellers,
            in_transition,
            lost,
            ..
        } = self;
        if lost {
            return Err(AllocError);
        }
        if !replay.is_over(report.whole) {
            return Ok(Ending::Part(tellers));
        }
        let end = replay.end_of_run(report.whole);
        if !is_same_time(end, report.end) {
            return Ok(Ending::Part(tellers));
        }
        if !ends_well(report.whole, in_transition) {
            return Ok(Ending::Part(tellers));
        }
        let records = replay.close(alloc, report.whole)?;
        if !all_say_same(&records, &report.records) {
            return Ok(Ending::Part(tellers));
        }
        Ok(Ending::Whole(tellers))
    }
}

/// Whether the two are the same.
fn is_same_time(one: Ticks, other: Ticks) -> bool
    ensures { IsTrue result ↔ (one ≡ other) }
{
    one == other
}

/// Whether a run may end so: where it is cut, the environment has done nothing since the last transition began.
fn ends_well(whole: bool, in_transition: bool) -> bool
    ensures { IsTrue result ↔ (whole ≡ false → in_transition ≡ true) }
{
    whole || in_transition
}

/// Whether the records of two lists say the same, one by one.
fn all_say_same(left: &[Record], right: &[Record]) -> bool
    ensures { IsTrue result ↔ AllZip SaySame left.now right.now }
{
    if left.len() != right.len() {
        return false;
    }
    for place in 0..left.len() {
        if !say_same(&left[place], &right[place]) {
            return false;
        }
    }
    true
}
