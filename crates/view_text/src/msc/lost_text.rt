//! The text of a signal of the script that is lost.

ghost use Rattle.std.specs.Prelude.{◌≡◌, ◌++◌, OnOk};
ghost use Rattle.std.specs.String.{string_bytes};
ghost use Rattle.view_text.specs.LostText.{became_text, begun_text, lost_text, missed_text, missing_text};
ghost use Rattle.view_text.specs.Sending.{sending_value};

use crate::fate::Fate;
use crate::lost::lost_fate;
use crate::msc::names::{Cast, push_message, push_party_name};
use crate::sending::Sending;
use sdl_report::push_number;
use sdl_system::Target;
use std::alloc::AllocError;
use view_timeline::Link;

/// Appends a signal of the script that nobody took, on a line of its own. The environment has no events in a chart, so
/// this is a text between them.
pub fn push_lost_text(
    text: &mut String,
    lost: &Sending<'_>,
    cast: &Cast<'_>,
) -> Result<(), AllocError>
    ensures { OnOk result (string_bytes text.new ≡ string_bytes text.old
        ++ lost_text cast.now.system.now cast.now.report.now.records.items cast.now.told.now
        (sending_value lost.now)) }
{
    let values = lost.item.values.as_slice();
    push_begun(text, lost.at)?;
    push_message(text, cast.system, lost.item.name, Link::Plain, values)?;
    push_missed(text, lost.target, lost_fate(cast.told, lost), cast)
}

/// Appends when it is sent.
fn push_begun(text: &mut String, at: u64) -> Result<(), AllocError>
    ensures { OnOk result (string_bytes text.new ≡ string_bytes text.old ++ begun_text at) }
{
    text.push_str("\ntext 'at ")?;
    push_number(text, at)?;
    text.push_str(": env: out ")
}

/// Appends who was to take it, what became of it, and the end of the text.
fn push_missed(
    text: &mut String,
    target: Target,
    fate: Option<Fate>,
    cast: &Cast<'_>,
) -> Result<(), AllocError>
    ensures { OnOk result (string_bytes text.new ≡ string_bytes text.old
        ++ missed_text cast.now.system.now cast.now.report.now.records.items target fate) }
{
    text.push_str(" to lost")?;
    push_missing(text, target, cast)?;
    push_became(text, fate)?;
    text.push_str("';")
}

/// Appends the instance that was to take it, if it was one.
fn push_missing(text: &mut String, target: Target, cast: &Cast<'_>) -> Result<(), AllocError>
    ensures { OnOk result (string_bytes text.new ≡ string_bytes text.old
        ++ missing_text cast.now.system.now cast.now.report.now.records.items target) }
{
    match target {
        Target::Instance(number) => {
            text.push(' ')?;
            push_party_name(text, number, cast)
        }
        Target::Env | Target::Null | Target::Nobody => Ok(()),
    }
}

/// Appends what became of it.
fn push_became(text: &mut String, fate: Option<Fate>) -> Result<(), AllocError>
    ensures { OnOk result (string_bytes text.new ≡ string_bytes text.old ++ became_text fate) }
{
    match fate {
        None => Ok(()),
        Some(fate) => {
            text.push_str(", ")?;
            text.push_str(fate.word())
        }
    }
}
