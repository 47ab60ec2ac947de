//! The heading of a record.

ghost use Rattle.std.specs.Prelude.{◌≡◌, ◌++◌, OnOk};
ghost use Rattle.std.specs.String.{string_bytes};
ghost use Rattle.sdl_report.specs.ReportText.{heading_text, line};

use crate::names::process_name;
use run_record::Record;
use sdl_system::System;
use std::alloc::AllocError;

/// Appends the line `instance #7 P parent null`.
pub fn push_heading(text: &mut String, record: &Record, system: &System) -> Result<(), AllocError>
    ensures { OnOk result (string_bytes text.new ≡ string_bytes text.old
        ++ line (heading_text system.now «record».now)) }
{
    let number = record.pid();
    let process = process_name(system, record.process());
    let parent = record.parent();
    writeln!(text, "instance #{number} {process} parent {parent}")
}
