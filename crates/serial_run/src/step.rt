//! A step of an instance of the run, with all that it does to others.

ghost use Rattle.std.specs.Prelude.{◌≡◌, ◌⊎◌, ◌+◌, ◌-◌, ◌<◌, ◌≤◌, ℕ, Contains, IfOk, OnOk, Some, length, replicate, slice_get, vec_len};
ghost use Rattle.serial_run.specs.Serial.{IsSerial};
ghost use Rattle.serial_run.specs.Advances.{Reaches};
ghost use Rattle.sdl_interp.specs.Instance.{InstanceValue};
ghost use Rattle.serial_run.specs.Told.{NotesThese};
ghost use Rattle.serial_sweeps.specs.Sweeps.{IsNoFuseBefore, IsTime, Moment, after, at_agenda};
ghost use Rattle.serial_sweeps.specs.declared.instance_set.Made.TheVariants.{Transition};

use crate::instances::Instances;
use crate::world::{Effects, SerialWorld};
use port_model::KeptWords;
use sdl_interp::{Ahead, Position, Stepped};
use serial_sweeps::{Agenda, Made};
use std::alloc::{AllocError, Global};

/// One step of the instance with this number, and all that it does outside. Its acts lie in `effects` meanwhile. For each
/// event of the step the number is noted in `order`, if that is kept.
pub fn step(
    instances: &mut Instances<'_>,
    alloc: Global,
    agenda: &mut Agenda,
    number: u32,
    effects: &mut Effects,
    order: &mut KeptWords,
) -> Result<Made, AllocError>
    requires fits { IsSerial agenda.old.ready instances.old }
    requires ready { Contains agenda.old.ready number }
    ensures fits { OnOk result (IsSerial agenda.new.ready instances.new) }
    ensures clock { agenda.new.clock ≡ agenda.old.clock }
    ensures fuses { (until : ℕ) → until ≤ agenda.old.clock + 1 → IsNoFuseBefore until agenda.old.fuses
        → OnOk result (IsNoFuseBefore until agenda.new.fuses) }
    ensures fewer { IfOk result (λ made. (made ≡ Transition) ⊎ (length agenda.new.ready < length agenda.old.ready)) }
    ensures runs { (last bound : ℕ) (m : Moment)
        → IsTime agenda.old.ready (at_agenda m agenda.old) instances.old.living.given number bound
        → IfOk result (λ made. Reaches last (at_agenda m agenda.old) instances.old order.old
        (after made number bound (at_agenda m agenda.new)) instances.new order.new) }
{
    let Some(place) = instances.place_of(number) else {
        return Ok(Made::Nothing);
    };
    if let Position::Ended = instances.instances[place].position() {
        agenda.ready.rest(number);
        return Ok(Made::Nothing);
    }
    instances.instances[place].draws_nothing();
    let told = count_of(instances, place);
    effects.clear();
    let mut world = SerialWorld::new(instances.system, agenda.clock, &instances.living, effects);
    let stepped = instances.instances[place].step(alloc, &mut world);
    instances.instances[place].draws_nothing();
    let SerialWorld {
        effects,
        changed,
        ..
    } = world;
    drop(changed);
    note_turn(order, number, instances, place, told);
    match stepped {
        Stepped::Idle => {
            agenda.ready.rest(number);
            Ok(Made::Nothing)
        }
        Stepped::Moved => {
            unmark_resting(instances, agenda, place, number);
            instances.perform_all(alloc, agenda, effects)?;
            Ok(Made::Transition)
        }
        Stepped::Ended { counts } => {
            agenda.ready.rest(number);
            instances.leave(place);
            if !counts {
                return Ok(Made::Failure);
            }
            instances.perform_all(alloc, agenda, effects)?;
            Ok(Made::Transition)
        }
    }
}

/// How many events the instance at this place has recorded.
fn count_of(instances: &Instances<'_>, place: usize) -> usize
    requires { place < vec_len instances.now.instances }
    ensures { (i : InstanceValue) → slice_get instances.now.instances.items place ≡ Some i
        → result ≡ length i.events }
{
    instances.instances[place].trace().len()
}

/// Notes a number for each event that the instance at this place has recorded since it had so many, if that is kept.
fn note_turn(
    order: &mut KeptWords,
    number: u32,
    instances: &Instances<'_>,
    place: usize,
    told: usize,
)
    requires { place < vec_len instances.now.instances }
    ensures { (i : InstanceValue) → slice_get instances.now.instances.items place ≡ Some i
        → NotesThese order.old (replicate (length i.events - told) number) order.new }
{
    let more = count_of(instances, place).saturating_sub(told);
    note_times(order, number, more);
}

/// Notes a number so many times, if that is kept.
fn note_times(order: &mut KeptWords, number: u32, times: usize)
    ensures { NotesThese order.old (replicate times number) order.new }
{
    for _ in 0..times {
        order.note(number);
    }
}

/// An instance that plainly is at rest isn't asked again.
#[inline(always)]
fn unmark_resting(instances: &mut Instances<'_>, agenda: &mut Agenda, place: usize, number: u32)
    requires fits { IsSerial agenda.old.ready instances.old }
    requires place { (place + 1 ≡ number) × (place < vec_len instances.old.instances) }
    ensures fits { IsSerial agenda.new.ready instances.new }
    ensures system { instances.new.system ≡ instances.old.system }
    ensures living { instances.new.living ≡ instances.old.living }
    ensures items { instances.new.instances.items ≡ instances.old.instances.items }
    ensures clock { agenda.new.clock ≡ agenda.old.clock }
    ensures fuses { agenda.new.fuses ≡ agenda.old.fuses }
{
    if let Ahead::Nothing = instances.instances[place].ahead() {
        agenda.ready.rest(number);
    }
}
