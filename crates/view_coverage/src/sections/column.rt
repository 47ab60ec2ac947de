//! Columns.

ghost use Rattle.std.specs.Prelude.{◌≡◌, ◌++◌, OnOk, replicate};
ghost use Rattle.std.specs.String.{string_bytes};
ghost use Rattle.view_coverage.specs.Plain.{column};

use crate::sections::item::{Item, Section};
use std::alloc::AllocError;

/// The widths of the columns, without the blanks between them.
#[derive(Clone, Copy)]
pub struct Widths {
    pub at: usize,
    pub process: usize,
    pub owner: usize,
    pub what: usize,
}

impl Widths {
    /// The widths that all items fit into.
    pub fn of(sections: &[Section<'_>]) -> Widths {
        let mut widths = Widths {
            at: 0,
            process: 0,
            owner: 0,
            what: 0,
        };
        for section in sections {
            widths.process = widths.process.max(section.process.len());
            widths = widths.with(&section.items);
        }
        widths
    }

    /// Those that these items fit into, too.
    fn with(self, items: &[Item]) -> Widths {
        let mut widths = self;
        for item in items {
            widths.at = widths.at.max(item.at.len());
            widths.owner = widths.owner.max(item.owner.len());
            widths.what = widths.what.max(item.what.len());
        }
        widths
    }
}

/// Adds a text at the left of a column, and goes to the next one.
pub fn push_column(text: &mut String, cell: &str, width: usize) -> Result<(), AllocError>
    ensures { OnOk result (string_bytes text.new ≡ string_bytes text.old ++ column cell.now width) }
{
    text.push_str(cell)?;
    push_blanks(text, width.saturating_sub(cell.len()))?;
    text.push_str("  ")
}

fn push_blanks(text: &mut String, count: usize) -> Result<(), AllocError>
    ensures { OnOk result (string_bytes text.new ≡ string_bytes text.old ++ replicate count 32) }
{
    for _blank in 0..count {
        text.push(' ')?;
    }
    Ok(())
}
