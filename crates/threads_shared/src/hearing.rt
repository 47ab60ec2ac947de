//! How the environment hears the signal of a line.

ghost use Rattle.std.specs.Prelude.{◌≡◌, IfOk, OnErr};
ghost use Rattle.threads_shared.specs.Environment.{HearsLine, IsRouted};
ghost use Rattle.threads_shared.specs.Sending.{ArePutAlike, HavePorts};

use crate::sending::send;
use crate::shared::Shared;
use sdl_script::ScriptSignal;
use sdl_system::{Source, Target};
use std::alloc::AllocError;
use std::sync::Wait;
use threads_ports::{Peers, Run};

/// Hears the signal of a line, if it has one: sends it where the routes lead it, and notes its target. Answers the
/// instance into whose port it was put. For lack of memory nothing is noted, and nothing was put.
pub fn hear_signal<J: Run, R: Wait + Copy>(
    shared: &Shared<'_, '_, '_, J, R>,
    signal: &Option<ScriptSignal>,
    targets: &mut Vec<Target>,
    peers: &mut Peers<J>,
) -> Result<Option<u32>, AllocError>
    requires { HavePorts peers.old }
    ensures ports { HavePorts peers.new }
    ensures heard { IfOk result (λ woken. HearsLine shared.now.system.now signal.now woken targets.old.items
        targets.new.items peers.old peers.new) }
    ensures err_targets { OnErr result (targets.new.items ≡ targets.old.items) }
    ensures err_peers { OnErr result (ArePutAlike peers.old peers.new) }
{
    let Some(signal) = signal else {
        return Ok(None);
    };
    // So that nothing is put that can't be noted.
    targets.reserve(1)?;
    let target = route(shared, signal);
    let woken = send(shared, peers, target, &signal.item)?;
    targets.push_reserved(target);
    Ok(woken)
}

/// Where a signal of the script goes, by those that live now.
fn route<J: Run, R: Wait + Copy>(shared: &Shared<'_, '_, '_, J, R>, signal: &ScriptSignal) -> Target
    ensures { IsRouted shared.now.system.now signal.now result }
{
    // Before: who lives may change at any time. After: it was so for a moment. An instance that ends after it has its port
    // still.
    let roster = shared.tables.roster.lock(shared.rt);
    shared
        .system
        .route(signal.item.name, Source::Env, signal.to, roster.living())
}
