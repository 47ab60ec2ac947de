//! What an instance has still to do outside.

ghost use Rattle.std.specs.Prelude.{◌≡◌, map};
ghost use Rattle.run_order.specs.Woven.{IsNextPending, IsOwn, is_inside};
ghost use Rattle.serial_run.specs.StepWorld.{effect_of};

use crate::act::Act;
use port_model::{Fuse, Item, Values};
use sdl_system::{Dest, ProcessId, Target};
use serial_run::{Effect, Effects};

/// An event of a step that is still to be told, with what it does outside.
#[derive(Drop)]
pub enum Pending {
    /// A signal is sent to the destination that the output names, and reaches this target.
    Send {
        to: Dest,
        target: Target,
        item: Item,
    },
    /// A timer is set.
    Arm(Fuse),
    /// An instance of the process is made, with this number and these values of its parameters. `parent` is the number
    /// of its creator.
    Create {
        process: ProcessId,
        number: u32,
        parent: u32,
        values: Values,
    },
    /// A create of an instance of this process makes none.
    Full(ProcessId),
    /// The instance ends.
    End,
    /// Nothing is done outside.
    Inside,
}

impl Pending {
    /// Whether nothing is done outside.
    pub fn is_inside(&self) -> bool
        ensures { result ≡ is_inside self.now }
    {
        match self {
            Pending::Inside => true,
            _ => false,
        }
    }
}

/// What an act has still to do, where the next of these effects is its own. None: the next effect is another one.
pub fn next_pending(act: Act, effects: &mut Effects) -> Option<Pending>
    ensures { IsNextPending act (map effect_of effects.old.items) result (map effect_of effects.new.items) }
{
    match act {
        Act::Send(to) => own_send(to, effects.pop_front()?),
        Act::Arm => own_arm(effects.pop_front()?),
        Act::Create => own_create(effects.pop_front()?),
        Act::Full(process) => Some(Pending::Full(process)),
        Act::End => Some(Pending::End),
        Act::Inside => Some(Pending::Inside),
    }
}

fn own_send(to: Dest, effect: Effect) -> Option<Pending>
    ensures { IsOwn (Act.Send to) (effect_of effect) result }
{
    match effect {
        Effect::Send { target, item } => Some(Pending::Send { to, target, item }),
        _ => None,
    }
}

fn own_arm(effect: Effect) -> Option<Pending>
    ensures { IsOwn Act.Arm (effect_of effect) result }
{
    match effect {
        Effect::Arm(fuse) => Some(Pending::Arm(fuse)),
        _ => None,
    }
}

fn own_create(effect: Effect) -> Option<Pending>
    ensures { IsOwn Act.Create (effect_of effect) result }
{
    match effect {
        Effect::Create {
            process,
            number,
            parent,
            values,
        } => Some(Pending::Create {
            process,
            number,
            parent,
            values,
        }),
        _ => None,
    }
}
