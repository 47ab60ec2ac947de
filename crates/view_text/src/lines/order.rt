//! Where the order of a run ends.

ghost use Rattle.std.specs.Prelude.{◌≡◌, ◌++◌, OnOk};
ghost use Rattle.std.specs.String.{string_bytes};
ghost use Rattle.view_text.specs.LinesText.{order_text};

use std::alloc::AllocError;

/// Appends `order: not known from #7 on`, if that instance is stuck.
pub fn push_order(text: &mut String, stuck: Option<u32>) -> Result<(), AllocError>
    ensures { OnOk result (string_bytes text.new ≡ string_bytes text.old ++ order_text stuck) }
{
    match stuck {
        None => Ok(()),
        Some(number) => writeln!(text, "order: not known from #{number} on"),
    }
}
