//! What the two instances of a small run on threads see of it.

ghost use Rattle.std.specs.Prelude.{◌≡◌, ℕ, false, nat_eq, nat_lt, vec_capacity, vec_len, [], IfOk};
ghost use Rattle.threads_ports.specs.Peers.{put_by};

use input_port::{Desk, Port, Sender};
use port_model::{Fuse, SignalId, Values};
use sdl_system::{Dest, ProcessId, Source, System, Target};
use std::alloc::AllocError;
use std::marker::PhantomData;
use threads_instance::Runtime;
use threads_ports::Run;

/// The number of the instance that is there from the start, of the first process.
pub const FIRST: u32 = 3;

/// The number of the instance that is made, of the second process.
pub const SECOND: u32 = 7;

/// The greatest number of an instance.
const MOST_INSTANCES: u32 = 1000;

/// A run of two instances, of which the first makes the second. The first one's port stands for those of all other
/// numbers.
#[derive(Drop)]
pub struct Pair<'a, J: Run> {
    pub first: &'a Port,
    pub first_desk: Desk,
    pub second: &'a Port,
    pub second_desk: Desk,
    pub is_made: bool,
    pub kept: Vec<Fuse>,
    pub of: PhantomData<J>,
    ghost first_is: { (n : ℕ) → nat_eq n 7 ≡ false → first.now.queue ≡ J.ports n },
    ghost second_is: { second.now.queue ≡ J.ports 7 },
    ghost first_desk_is: { first_desk.port ≡ first.now.queue },
    ghost second_desk_is: { second_desk.port ≡ second.now.queue },
}

impl<J: Run> Runtime<J> for Pair<'_, J> {
    ghost prepared = { λ w. nat_lt (vec_len w.kept) (vec_capacity w.kept) };

    ghost kept = { λ w. w.kept.items };

    fn route(&mut self, system: &System, signal: SignalId, from: ProcessId, to: Dest) -> Target {
        let second = if self.is_made { Some(SECOND) } else { None };
        system.route(signal, Source::Process(from), to, &[Some(FIRST), second])
    }

    fn port(&self, number: u32) -> Option<&Port> {
        if number < 1 || number > MOST_INSTANCES {
            return None;
        }
        if number == SECOND {
            return Some(self.second);
        }
        Some(self.first)
    }

    fn is_entered(&mut self, number: u32) -> bool {
        number == FIRST || (number == SECOND && self.is_made)
    }

    fn sender(&mut self, number: u32) -> Result<Sender, AllocError> {
        if number == SECOND {
            return sender_of(&mut self.second_desk, self.second);
        }
        sender_of(&mut self.first_desk, self.first)
    }

    fn prepare(&mut self) -> Result<(), AllocError> {
        self.kept.reserve(1)
    }

    fn keep(&mut self, fuse: Fuse) {
        self.kept.push_reserved(fuse);
    }

    fn create(
        &mut self,
        _process: ProcessId,
        _parent: u32,
        _values: Values,
    ) -> Result<Option<u32>, AllocError> {
        self.is_made = true;
        Ok(Some(SECOND))
    }
}

/// One more sender of the port.
fn sender_of(desk: &mut Desk, port: &Port) -> Result<Sender, AllocError>
    requires { desk.old.port ≡ port.now.queue }
    ensures desk { desk.new.port ≡ desk.old.port }
    ensures named { IfOk result (λ sender. sender.port ≡ port.now.queue) }
    ensures fresh { IfOk result (λ sender. put_by sender ≡ []) }
{
    let Ok(sender) = desk.sender(port) else {
        return Err(AllocError);
    };
    Ok(sender)
}
