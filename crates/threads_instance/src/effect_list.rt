//! What an instance has done outside of itself, as a list that only proofs read.

ghost use Rattle.std.specs.Prelude.{◌≡◌, [], ◌∷◌, ◌++◌};
ghost use Rattle.run_semantics.specs.Effect as effect;

use crate::sent::SentList;
use port_model::{Arm, Fuse, Item, Pid, SignalId, Ticks, Values};
use sdl_system::{ProcessId, Target};
use std::marker::Model;

/// One thing that an instance has done outside of itself, beside the values that it carries.
#[derive(Clone, Copy)]
pub enum Doing {
    /// A signal was sent.
    Sent {
        target: Target,
        name: SignalId,
        sender: Pid,
    },
    /// A timer was set.
    Armed {
        pid: u32,
        name: SignalId,
        arm: Arm,
        due: Ticks,
    },
    /// An instance was created.
    Created {
        process: ProcessId,
        number: u32,
        parent: u32,
    },
}

/// All that an instance has done outside of itself, in order. It takes no memory.
#[derive(Drop)]
pub struct EffectList {
    done: SentList<Doing, Values>,
}

impl Model for EffectList {
    ghost use Rattle.std.specs.Prelude.{List};
    ghost use Rattle.run_semantics.specs.Effect.{Effect};
    ghost use Rattle.threads_instance.specs.Doings.{effects_in};

    ghost Value = { List Effect };

    ghost view = { λ l. effects_in l.done.items };
}

impl EffectList {
    /// Nothing was done.
    pub fn new() -> Self
        ensures { result ≡ [] }
    {
        EffectList {
            done: SentList::new(),
        }
    }

    /// The same, and then this signal was sent to this target.
    #[tactic(auto, using(crate::proofs::EffectLemmas::effects_more))]
    pub fn and_sent(&self, target: Target, item: &Item) -> Self
        ensures { result ≡ self.now ++ effect.Send target item.now ∷ [] }
    {
        let doing = Doing::Sent {
            target,
            name: item.name,
            sender: item.sender,
        };
        EffectList {
            done: self.done.and(&doing, &item.values),
        }
    }

    /// The same, and then a timer was set whose fuse this is.
    #[tactic(auto, using(crate::proofs::EffectLemmas::armed_more))]
    pub fn and_armed(&self, fuse: &Fuse) -> Self
        ensures { result ≡ self.now ++ effect.Arm fuse.now ∷ [] }
    {
        let key = fuse.key();
        let doing = Doing::Armed {
            pid: fuse.pid(),
            name: key.name,
            arm: fuse.arm(),
            due: fuse.due(),
        };
        EffectList {
            done: self.done.and(&doing, &key.values),
        }
    }

    /// The same, and then this instance was created.
    #[tactic(auto, using(crate::proofs::EffectLemmas::effects_more))]
    pub fn and_created(&self, process: ProcessId, number: u32, parent: u32, values: &Values) -> Self
        ensures { result ≡ self.now ++ effect.Create process number parent values.now ∷ [] }
    {
        let doing = Doing::Created {
            process,
            number,
            parent,
        };
        EffectList {
            done: self.done.and(&doing, values),
        }
    }
}
