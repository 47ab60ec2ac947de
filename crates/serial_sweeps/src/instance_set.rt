//! What the sweeps of a run ask of its instances.

ghost use Rattle.std.specs.Prelude.{◌≡◌, ◌+◌, ◌<◌, ◌≤◌, ◌⊎◌, ◌∷◌, ℕ, List, Contains, IfOk, IsTrue, OnOk, length};

use crate::agenda::Agenda;
use port_model::Fuse;
use sdl_script::ScriptLine;
use std::alloc::Global;

/// The result of a turn.
#[derive(Clone, Copy, PartialEq, Eq)]
pub enum Made {
    /// There was nothing to do.
    Nothing,
    /// The instance failed in a state, which is no transition.
    Failure,
    /// A transition, or a discard.
    Transition,
}

/// The instances of a run, each with a number from 1 on. They may be of any make: what a run of them comes to is theirs
/// to say, by `Reaches`, and the sweeps keep it.
pub trait InstanceSet {
    ghost use Rattle.serial_sweeps.specs.Sweeps.{IsNoFuseBefore, IsTick, IsTime, Moment, after, at_agenda, ticked};
    ghost use Rattle.serial_sweeps.specs.declared.instance_set.Made.TheVariants.{Transition};

    /// Why the run can't go on.
    type Error: Drop;

    /// The instances fit the marks: all with other numbers rest.
    ghost Fits: { List ℕ → Self → Type 0 };

    /// All rest.
    ghost AllRest: { Self → Type 0 };

    /// How many numbers were given.
    ghost numbers: { Self → ℕ };

    /// With a script that ends at this time, something led from the instances at one moment to those at another.
    ghost Reaches: { ℕ → Moment → Self → Moment → Self → Type 0 };

    /// How many numbers were given.
    fn given(&self) -> u32
        ensures { result ≡ numbers self.now };

    /// One step of the instance with this number, and all that it does outside. Says what came of it: where it was no
    /// transition one fewer may have something to do. After an error nothing is known.
    fn step(&mut self, alloc: Global, agenda: &mut Agenda, number: u32) -> Result<Made, Self::Error>
        requires fits { Fits agenda.old.ready self.old }
        requires ready { Contains agenda.old.ready number }
        ensures fits { OnOk result (Fits agenda.new.ready self.new) }
        ensures clock { agenda.new.clock ≡ agenda.old.clock }
        ensures fuses { (until : ℕ) → until ≤ agenda.old.clock + 1 → IsNoFuseBefore until agenda.old.fuses
            → OnOk result (IsNoFuseBefore until agenda.new.fuses) }
        ensures fewer { IfOk result (λ made. (made ≡ Transition) ⊎ (length agenda.new.ready < length agenda.old.ready)) }
        ensures runs { (last bound : ℕ) (m : Moment)
            → IsTime agenda.old.ready (at_agenda m agenda.old) (numbers self.old) number bound
            → IfOk result (λ made. Reaches last (at_agenda m agenda.old) self.old
            (after made number bound (at_agenda m agenda.new)) self.new) };

    /// A fuse whose time has come expires in the port of its instance.
    fn expire(&mut self, agenda: &mut Agenda, fuse: Fuse) -> Result<(), Self::Error>
        requires fits { Fits agenda.old.ready self.old }
        requires due { fuse.due ≤ agenda.old.clock }
        ensures fits { OnOk result (Fits agenda.new.ready self.new) }
        ensures clock { agenda.new.clock ≡ agenda.old.clock }
        ensures fuses { agenda.new.fuses ≡ agenda.old.fuses }
        ensures runs { (last : ℕ) (m : Moment) → 0 < m.left → IsTrue m.begun
            → OnOk result (Reaches last (record (at_agenda m agenda.old) { fuses = fuse ∷ agenda.old.fuses }) self.old
            (at_agenda m agenda.new) self.new) };

    /// Puts what the environment sends in a line of the script, whose time has come, into the port of its target. No
    /// fuse is due any more.
    fn hear(&mut self, agenda: &mut Agenda, line: &ScriptLine) -> Result<(), Self::Error>
        requires fits { Fits agenda.old.ready self.old }
        requires due { line.now.at ≤ agenda.old.clock }
        requires no_fuse { IsNoFuseBefore (agenda.old.clock + 1) agenda.old.fuses }
        ensures fits { OnOk result (Fits agenda.new.ready self.new) }
        ensures clock { agenda.new.clock ≡ agenda.old.clock }
        ensures fuses { agenda.new.fuses ≡ agenda.old.fuses }
        ensures runs { (last : ℕ) (m : Moment) → 0 < m.left → IsTrue m.begun
            → OnOk result (Reaches last (record (at_agenda m agenda.old) { script = line.now ∷ m.script }) self.old
            (at_agenda m agenda.new) self.new) };

    /// No instance has the number 0.
    ghost from_one: { (ready : List ℕ) (a : Self) (number : ℕ) → Fits ready a → Contains ready number → 0 < number };

    /// Where nobody may have something to do all rest.
    ghost none_ready: { (ready : List ℕ) (a : Self) → Fits ready a → ((number : ℕ) → Contains ready number → ⊥)
        → AllRest a };

    /// Where all rest the clock may move.
    ghost ticks: { (last time : ℕ) (ready : List ℕ) (m : Moment) (a : Self) → Fits ready a → AllRest a
        → IsTick last m time → Reaches last m a (ticked m time (numbers a)) a };

    /// Nothing happened.
    ghost stays: { (last : ℕ) (m : Moment) (a : Self) → Reaches last m a m a };

    /// One thing happened, and then another.
    ghost goes_on: { (last : ℕ) (m n o : Moment) (a b c : Self) → Reaches last m a n b → Reaches last n b o c
        → Reaches last m a o c };
}
