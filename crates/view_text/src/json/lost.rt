//! The line of a signal of the script that is lost.

ghost use Rattle.std.specs.Prelude.{◌≡◌, ◌++◌, OnOk};
ghost use Rattle.std.specs.String.{string_bytes};
ghost use Rattle.view_text.specs.JsonText.{lost_json};
ghost use Rattle.view_text.specs.Sending.{sending_value};

use crate::json::pieces::{push_fate, push_key, push_target, push_text, push_values};
use crate::lost::lost_fate;
use crate::sending::Sending;
use sdl_report::{push_number, signal_name};
use sdl_system::System;
use std::alloc::AllocError;
use view_timeline::Timeline;

/// Appends when a signal of the script is sent that nobody took, to whom, and what became of it.
pub fn push_lost(
    text: &mut String,
    lost: &Sending<'_>,
    told: &Timeline,
    system: &System,
) -> Result<(), AllocError>
    ensures { OnOk result (string_bytes text.new ≡ string_bytes text.old
        ++ lost_json system.now told.now (sending_value lost.now)) }
{
    text.push_str("{\"at\":")?;
    push_number(text, lost.at)?;
    push_text(text, "lost", signal_name(system, lost.item.name))?;
    push_values(text, lost.item.values.as_slice())?;
    push_key(text, "to")?;
    push_target(text, lost.target)?;
    push_fate(text, lost_fate(told, lost))?;
    text.push_str("}\n")
}
