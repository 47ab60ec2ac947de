//! A timeline, as far as it is told when the environment sends.

ghost use Rattle.std.specs.Prelude.{◌≡◌, ◌<◌, ◌++◌, List, [], IfOk, IsFalse, IsTrue, OnOk};
ghost use Rattle.std.specs.List.{AllByRecursion};
ghost use Rattle.run_record.specs.Record.{RecordValue};
ghost use Rattle.sdl_system.specs.System.{SystemValue};
ghost use Rattle.view_text.specs.Course.{GoesOn, IsAfter, StandsAt, steps_left};
ghost use Rattle.view_text.specs.Living.{living_in};
ghost use Rattle.view_text.specs.Sending.{after, before, is_sent, is_there, sending_of, sending_value};
ghost use Rattle.view_text.specs.Walk.{StepValue, all_steps};
ghost use Rattle.view_timeline.specs.Moves.{IsPart};
ghost use Rattle.view_timeline.specs.Timeline.{AreBegun};

use crate::heard::{closes_record, comes_after};
use crate::living::Living;
use crate::sending::Sending;
use crate::walk::{Step, Walk};
use port_model::Ticks;
use run_record::Report;
use sdl_script::ScriptSignal;
use sdl_system::{Source, System, Target};
use std::alloc::{AllocError, Global};
use view_timeline::Timeline;

/// A timeline of which some steps are told: the next one and those after it, who lives, and how many are told.
#[derive(Drop)]
pub struct Course<'t> {
    pub next: Option<Step<'t>>,
    pub walk: Walk<'t>,
    pub living: Living<'t>,
    pub place: usize,
}

impl<'t> Course<'t> {
    /// Nothing is told.
    pub fn new(
        alloc: Global,
        system: &System,
        report: &'t Report,
        told: &'t Timeline,
    ) -> Result<Self, AllocError>
        requires parts { AllByRecursion (IsPart report.now.records.items) told.now.moves.items }
        requires begun { AreBegun report.now.records.items told.now }
        ensures { IfOk result (IsAfter system.now report.now.records.items []
            (all_steps report.now.records.items told.now)) }
    {
        let mut walk = Walk::new(alloc, report, told)?;
        let living = Living::new(alloc, system, report)?;
        let next = walk.next();
        Ok(Course {
            next,
            walk,
            living,
            place: 0,
        })
    }

    /// Tells what comes before that which is sent at this time.
    pub fn go_to(&mut self, at: Ticks) -> Result<(), AllocError>
        ensures { (system : SystemValue) (records : List RecordValue) (told left : List StepValue)
            → IsAfter system records told left self.old
            → OnOk result (IsAfter system records (told ++ before at left) (after at left) self.new) }
    {
        'steps: loop {
            let told = self.tell(at)?;
            if !told {
                return Ok(());
            }
        }
    }

    /// Tells the next step, if it comes before what is sent at this time. Says whether it does.
    fn tell(&mut self, at: Ticks) -> Result<bool, AllocError>
        ensures told { (system : SystemValue) (records : List RecordValue) (told left : List StepValue)
            → IsAfter system records told left self.old
            → IfOk result (λ goes. IsTrue goes → GoesOn system records told left at self.new) }
        ensures not_told { (system : SystemValue) (records : List RecordValue) (told left : List StepValue)
            → IsAfter system records told left self.old
            → IfOk result (λ goes. IsFalse goes → StandsAt system records told left at self.new) }
        ensures fewer { IfOk result (λ goes. IsTrue goes → steps_left self.new < steps_left self.old) }
    {
        let Some(step) = &self.next else {
            return Ok(false);
        };
        if comes_after(at, &step.entry) {
            return Ok(false);
        }
        self.living.note(step.record.pid(), &step.entry)?;
        self.place = self.place.checked_add(1).ok_or(AllocError)?;
        self.next = self.walk.next();
        Ok(true)
    }

    /// Whether something is sent now: the run is whole, or a transition comes next.
    pub fn sends(&self, whole: bool) -> bool
        ensures { (system : SystemValue) (records : List RecordValue) (told left : List StepValue)
            → IsAfter system records told left self.now → result ≡ is_sent whole left }
    {
        match &self.next {
            Some(step) => whole || !closes_record(&step.entry),
            None => whole,
        }
    }

    /// What is sent at this time.
    pub fn sending<'s>(&self, system: &System, at: Ticks, signal: &'s ScriptSignal) -> Sending<'s>
        ensures { (records : List RecordValue) (told left : List StepValue)
            → IsAfter system.now records told left self.now
            → sending_value result ≡ sending_of system.now records told at signal.now }
    {
        let target = system.route(signal.item.name, Source::Env, signal.to, &self.living.least);
        Sending {
            at: at.get(),
            item: &signal.item,
            target,
            arrives: self.is_there(target),
            place: self.place,
        }
    }

    /// Whether a target is an instance that lives.
    fn is_there(&self, target: Target) -> bool
        ensures { result ≡ is_there (living_in self.now.living) target }
    {
        match target {
            Target::Instance(number) => self.living.lives(number),
            Target::Env | Target::Null | Target::Nobody => false,
        }
    }
}
