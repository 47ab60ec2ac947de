//! The environment of a run.

ghost use Rattle.std.specs.Prelude.{◌≡◌, ◌+◌, ◌<◌, ◌≤◌, [], true, All, IfOk, IfSome, OnErr, OnOk, length, slice_get};
ghost use Rattle.std.specs.Option.{option_map};
ghost use Rattle.run_semantics.specs.World.{has_port};
ghost use Rattle.threads_shared.specs.Environment.{HearsNext, HearsNothing, IsHeardBy, IsOfEnv};
ghost use Rattle.threads_shared.specs.Sending.{ArePutAlike, Expires};

use crate::hearing::hear_signal;
use crate::sending::expire;
use crate::shared::Shared;
use port_model::{Fuse, Ticks};
use sdl_script::ScriptLine;
use sdl_system::Target;
use std::alloc::{AllocError, Global};
use std::marker::Model;
use std::sync::Wait;
use threads_ports::{Peers, Run};

/// The environment of the run `J`: the lines of the script, how many of them are heard, where the signal of each of these
/// went, and the senders. What they have put into each port is the end of what went to its instance.
#[derive(Drop)]
pub struct Environment<'l, J: Run> {
    lines: &'l [ScriptLine],
    line: usize,
    targets: Vec<Target>,
    peers: Peers<J>,
}

impl<'l, J: Run> Model for Environment<'l, J> {
    ghost use Rattle.std.specs.Prelude.{All};
    ghost use Rattle.threads_shared.specs.Environment.{EnvironmentState, IsHeardBy, IsOfEnv, IsRouted};
    ghost use Rattle.threads_shared.specs.Sending.{HavePorts};

    ghost Value = { EnvironmentState };

    ghost view = { λ e. record { lines = e.lines.now; line = e.line; targets = e.targets.items; peers = e.peers } };

    ghost invariant = { λ e. All IsOfEnv e.lines.now × IsHeardBy e.lines.now e.line e.targets.items e.peers
        × HavePorts e.peers };
}

impl<'l, J: Run> Environment<'l, J> {
    /// The environment at the start of a script: no line is heard, and there is no sender. That each signal of the lines
    /// has the environment as its sender is the caller's condition. Takes no memory.
    pub fn new(alloc: Global, lines: &'l [ScriptLine]) -> Self
        requires { All IsOfEnv lines.now }
        ensures { result ≡ record { lines = lines.now; line = 0; targets = []; peers = [] } }
    {
        Environment {
            lines,
            line: 0,
            targets: Vec::new(alloc),
            peers: Peers::new(alloc),
        }
    }

    /// The time of the next line. None: all lines are heard.
    pub fn next_at(&self) -> Option<Ticks>
        ensures at { result ≡ option_map (λ line. line.at) (slice_get self.now.lines self.now.line) }
        ensures left { IfSome result (λ at. self.now.line < length self.now.lines) }
    {
        match self.lines.get(self.line) {
            Some(line) => Some(line.at),
            None => None,
        }
    }

    /// Hears the next line: its signal goes where the routes lead it by those that live now, which is noted. It is put
    /// into the port of an instance if there is a sender into that port, or the instance is entered, which answers the
    /// instance, to be woken. Else the signal is gone. That a line is left is the caller's condition. For lack of memory
    /// nothing is heard, and nothing was put.
    pub fn hear<R: Wait + Copy>(
        &mut self,
        shared: &Shared<'_, '_, '_, J, R>,
    ) -> Result<Option<u32>, AllocError>
        requires { self.old.line < length self.old.lines }
        ensures lines { self.new.lines ≡ self.old.lines }
        ensures line { OnOk result (self.new.line ≡ self.old.line + 1) }
        ensures heard { IfOk result (λ woken. HearsNext shared.now.system.now woken self.old self.new) }
        ensures err { OnErr result (HearsNothing self.old self.new) }
    {
        let Some(line) = self.lines.get(self.line) else {
            unreachable!()
        };
        let woken = hear_signal(shared, &line.signal, &mut self.targets, &mut self.peers)?;
        self.line += 1;
        Ok(woken)
    }

    /// Puts the expiry of a timer into the port of its instance, at the time `at`, and answers the instance, to be woken.
    /// That its time has come is the caller's condition. Nothing is put where no instance can have the number. For lack of
    /// memory nothing was put, and the fuse is gone.
    pub fn expire<R: Wait + Copy>(
        &mut self,
        shared: &Shared<'_, '_, '_, J, R>,
        fuse: Fuse,
        at: Ticks,
    ) -> Result<u32, AllocError>
        requires { fuse.due ≤ at }
        ensures lines { self.new.lines ≡ self.old.lines }
        ensures line { self.new.line ≡ self.old.line }
        ensures targets { self.new.targets ≡ self.old.targets }
        ensures signals { ArePutAlike self.old.peers self.new.peers }
        ensures instance { IfOk result (λ number. number ≡ fuse.pid) }
        ensures put { OnOk result (has_port fuse.pid ≡ true → Expires fuse at self.old.peers self.new.peers) }
    {
        let number = fuse.pid();
        expire(shared, &mut self.peers, fuse, at)?;
        Ok(number)
    }

    /// That what was put is the end of what was heard, as a fact.
    pub fn is_heard(&self)
        ensures { IsHeardBy self.now.lines self.now.line self.now.targets self.now.peers }
    {
        let _peers = &self.peers;
    }

    /// The lines of the script.
    pub fn lines(&self) -> &'l [ScriptLine]
        ensures { result.now ≡ self.now.lines }
    {
        self.lines
    }

    /// How many lines are heard.
    pub fn line(&self) -> usize
        ensures { result ≡ self.now.line }
    {
        self.line
    }

    /// Where the signal of each line that is heard went, in the order of the lines.
    pub fn targets(&self) -> &[Target]
        ensures { result.now ≡ self.now.targets }
    {
        self.targets.as_slice()
    }

    /// The senders.
    pub fn into_peers(self) -> Peers<J>
        ensures { result ≡ self.entry.peers }
    {
        self.peers
    }
}
