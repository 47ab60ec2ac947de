//! A run on the thread that calls. No call here waits, so each returns.

ghost use Rattle.sdl_engine.specs.Log.{IsLogOf};

use crate::runner::{Ran, Runner};
use port_model::KeptWords;
use run_record::{Report, RunError};
use sdl_report::{WriteFault, write_report};
use sdl_script::Script;
use sdl_system::System;
use serial_run::{Listener, SerialRun, run_serial_heard, run_serial_noted};
use std::alloc::Global;
use std::io::Write;
use view_run::OrderLog;

/// The thread that calls, and no other.
#[derive(Drop)]
pub struct Serial;

impl Runner for Serial {
    ghost use Rattle.std.specs.Prelude.{false};

    ghost threaded = { false };

    fn run<L: Listener>(
        &self,
        alloc: Global,
        system: &System,
        script: &Script,
        _workers: Option<u8>,
        limit: u64,
        keeps_order: bool,
        listener: L,
    ) -> Result<Ran, RunError> {
        if !keeps_order {
            let report = run_serial_heard(alloc, system, script, limit, listener)?;
            return Ok(Ran { report, log: None });
        }
        let SerialRun { report, order } = run_serial_noted(
            alloc, system, script, limit, listener, true,
        )?;
        Ok(Ran {
            report,
            log: log_of(order),
        })
    }

    fn write_report<W: Write>(
        &self,
        alloc: Global,
        _workers: Option<u8>,
        report: &Report,
        system: &System,
        writer: &mut W,
    ) -> Result<(), WriteFault> {
        write_report(alloc, report, system, writer)
    }
}

/// What is kept for the order of a serial run: whose events it told, unless there was no memory for that.
fn log_of(order: KeptWords) -> Option<OrderLog>
    ensures { IsLogOf order result }
{
    order.into_list().map(OrderLog::Tellers)
}
