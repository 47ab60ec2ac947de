//! The rows of the plain text.

ghost use Rattle.std.specs.Prelude.{◌≡◌, ◌++◌, OnOk};
ghost use Rattle.std.specs.String.{string_bytes};
ghost use Rattle.view_coverage.specs.Plain.{item_row, item_rows, missed_row, missed_row_if, missed_rows, missed_section};

use crate::sections::column::{Widths, push_column};
use crate::sections::group::{Group, is_missed};
use crate::sections::item::{Item, Section};
use std::alloc::AllocError;

/// Adds a row for each item of the group that was never covered.
pub fn push_missed(
    text: &mut String,
    sections: &[Section<'_>],
    group: Group,
    widths: Widths,
) -> Result<(), AllocError>
    ensures { OnOk result (string_bytes text.new ≡ string_bytes text.old ++ missed_rows widths group sections.now) }
{
    for section in sections {
        push_missed_section(text, section, group, widths)?;
    }
    Ok(())
}

fn push_missed_section(
    text: &mut String,
    section: &Section<'_>,
    group: Group,
    widths: Widths,
) -> Result<(), AllocError>
    ensures { OnOk result (string_bytes text.new ≡ string_bytes text.old ++ missed_section widths group section.now) }
{
    let process = section.process;
    for item in &section.items {
        push_missed_if(text, process, item, group, widths)?;
    }
    Ok(())
}

fn push_missed_if(
    text: &mut String,
    process: &str,
    item: &Item,
    group: Group,
    widths: Widths,
) -> Result<(), AllocError>
    ensures { OnOk result (string_bytes text.new ≡ string_bytes text.old
        ++ missed_row_if widths group process.now item.now) }
{
    if is_missed(item, group) {
        push_missed_row(text, process, item, widths)
    } else {
        Ok(())
    }
}

fn push_missed_row(
    text: &mut String,
    process: &str,
    item: &Item,
    widths: Widths,
) -> Result<(), AllocError>
    ensures { OnOk result (string_bytes text.new ≡ string_bytes text.old
        ++ missed_row widths process.now item.now) }
{
    text.push_str("  ")?;
    push_column(text, item.at.as_str(), widths.at)?;
    push_column(text, process, widths.process)?;
    push_column(text, item.owner.as_str(), widths.owner)?;
    text.push_str(item.what.as_str())?;
    text.push('\n')
}

/// Adds a row for each item, with how often it was covered.
pub fn push_items(text: &mut String, items: &[Item], widths: Widths) -> Result<(), AllocError>
    ensures { OnOk result (string_bytes text.new ≡ string_bytes text.old ++ item_rows widths items.now) }
{
    for item in items {
        push_item(text, item, widths)?;
    }
    Ok(())
}

fn push_item(text: &mut String, item: &Item, widths: Widths) -> Result<(), AllocError>
    ensures { OnOk result (string_bytes text.new ≡ string_bytes text.old ++ item_row widths item.now) }
{
    text.push_str("  ")?;
    push_column(text, item.at.as_str(), widths.at)?;
    push_column(text, item.owner.as_str(), widths.owner)?;
    push_column(text, item.what.as_str(), widths.what)?;
    let times = item.times;
    writeln!(text, "{times}")
}
