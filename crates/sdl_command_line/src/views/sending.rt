//! What a run sends to the environment.

ghost use Rattle.std.specs.Prelude.{◌≡◌, IfErr, IfOk, false, true};
ghost use Rattle.std.specs.String.{string_bytes};
ghost use Rattle.sdl_command_line.specs.Sent.{SaysSent};

use crate::expected::{outputs, outputs_by_sender};
use sdl_engine::{Run, TextFault, order_of};
use std::alloc::Global;

/// The text of what a run sends to the environment, and the instance that can't go on, if the order of the run isn't
/// known to the end.
#[derive(Drop)]
pub struct Sent {
    pub text: String,
    pub stuck: Option<u32>,
}

/// What a run sends to the environment. With workers the order of what one instance sends is fixed, and no other, so
/// that of each instance is by itself.
pub fn sent_signals(alloc: Global, run: &Run, has_workers: bool) -> Result<Sent, TextFault>
    ensures ok { IfOk result (λ sent. SaysSent has_workers run.now sent.stuck (string_bytes sent.text)) }
    ensures err { IfErr result (λ fault. fault ≡ TextFault.Memory) }
{
    if has_workers {
        sent_singly(alloc, run)
    } else {
        sent_in_order(alloc, run)
    }
}

/// What each instance sends, by itself.
fn sent_singly(alloc: Global, run: &Run) -> Result<Sent, TextFault>
    ensures ok { IfOk result (λ sent. SaysSent true run.now sent.stuck (string_bytes sent.text)) }
    ensures err { IfErr result (λ fault. fault ≡ TextFault.Memory) }
{
    match outputs_by_sender(alloc, &run.report, &run.system) {
        Ok(text) => Ok(Sent { text, stuck: None }),
        Err(_) => Err(TextFault::Memory),
    }
}

/// What is sent, in the order of the run.
fn sent_in_order(alloc: Global, run: &Run) -> Result<Sent, TextFault>
    ensures ok { IfOk result (λ sent. SaysSent false run.now sent.stuck (string_bytes sent.text)) }
    ensures err { IfErr result (λ fault. fault ≡ TextFault.Memory) }
{
    let order = order_of(alloc, run)?;
    match outputs(alloc, &run.report, &order.told, &run.system) {
        Ok(text) => Ok(Sent {
            text,
            stuck: order.stuck,
        }),
        Err(_) => Err(TextFault::Memory),
    }
}
