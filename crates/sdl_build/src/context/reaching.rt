//! Which signals reach a receiver from a process.

ghost use Rattle.std.specs.Prelude.{◌≡◌, IfOk};
ghost use Rattle.sdl_build.specs.ProcessScope.{is_reaching, reaching};

use port_model::SignalId;
use sdl_system::{ProcessId, Routes, Source};
use std::alloc::{AllocError, Global};

/// For each of the first so many signals whether a path leads it from the process to another or to the environment.
pub fn reaching(
    alloc: Global,
    routes: &Routes,
    process: ProcessId,
    signals: u32,
) -> Result<Vec<bool>, AllocError>
    ensures { IfOk result (λ reaches. reaches.items ≡ reaching routes.now process signals) }
{
    let mut reaches = Vec::new(alloc);
    for number in 0..signals {
        reaches.push(is_reaching(routes, process, SignalId(number)))?;
    }
    Ok(reaches)
}

fn is_reaching(routes: &Routes, process: ProcessId, signal: SignalId) -> bool
    ensures { result ≡ is_reaching routes.now process signal }
{
    let from = Source::Process(process);
    routes.reaches_process(signal, from) || routes.reaches_env(signal, from)
}
