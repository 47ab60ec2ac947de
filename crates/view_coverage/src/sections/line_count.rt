//! The lines of stimuli and decisions, with the sums of their counts.

ghost use Rattle.std.specs.Prelude.{◌≡◌, ◌+◌, ◌++◌, [], ◌∷◌, IfOk, OnOk};
ghost use Rattle.std.specs.List.{flat_map};
ghost use Rattle.std.specs.List.Sorted.{IsNonDecreasingBy};
ghost use Rattle.view_coverage.specs.Lcov.{AreInOrder, AreUpTo, SumsUp, is_passed, item_line, lines_in};

use crate::sections::item::{Item, Kind, Section};
use std::alloc::{AllocError, Global};

/// A line of the text, and how often what is in it came.
#[derive(Clone, Copy)]
pub struct LineCount {
    pub line: usize,
    pub times: u64,
}

/// Whether something in the line came.
pub fn is_passed(count: &LineCount) -> bool
    ensures { result ≡ is_passed count.now }
{
    count.times != 0
}

/// The lines of stimuli and decisions, each once, in their order.
pub fn lines_of(alloc: Global, sections: &[Section<'_>]) -> Result<Vec<LineCount>, AllocError>
    ensures sums { IfOk result (λ lines. SumsUp (lines_in sections.now) lines.items) }
    ensures order { IfOk result (λ lines. AreInOrder lines.items) }
{
    let mut counts = Vec::new(alloc);
    for section in sections {
        add_lines(&mut counts, &section.items)?;
    }
    counts.sort_by_key(|count| count.line)?;
    let lines = merged(alloc, &counts)?;
    Ok(lines)
}

fn add_lines(counts: &mut Vec<LineCount>, items: &[Item]) -> Result<(), AllocError>
    ensures { OnOk result (counts.new.items ≡ counts.old.items ++ flat_map item_line items.now) }
{
    for item in items {
        add_line(counts, item)?;
    }
    Ok(())
}

fn add_line(counts: &mut Vec<LineCount>, item: &Item) -> Result<(), AllocError>
    ensures { OnOk result (counts.new.items ≡ counts.old.items ++ item_line item.now) }
{
    let line = match item.kind {
        Kind::State => return Ok(()),
        Kind::Stimulus(branch) | Kind::Answer(branch) => branch.place.line,
    };
    counts.push(LineCount {
        line,
        times: item.times,
    })?;
    Ok(())
}

/// One for all of the same line. They come by their lines.
fn merged(alloc: Global, counts: &[LineCount]) -> Result<Vec<LineCount>, AllocError>
    requires { IsNonDecreasingBy (λ count. count.line) counts.now }
    ensures sums { IfOk result (λ lines. SumsUp counts.now lines.items) }
    ensures order { IfOk result (λ lines. AreInOrder lines.items) }
{
    let mut lines = Vec::new(alloc);
    for count in counts {
        add_count(&mut lines, *count)?;
    }
    Ok(lines)
}

/// Adds a count, to the last one if that has the same line.
fn add_count(lines: &mut Vec<LineCount>, count: LineCount) -> Result<(), AllocError>
    ensures sums { OnOk result (SumsUp (lines.old.items ++ count ∷ []) lines.new.items) }
    ensures order { AreUpTo count.line lines.old.items → OnOk result (AreUpTo count.line lines.new.items) }
{
    match lines.pop() {
        None => {
            lines.push(count)?;
            Ok(())
        }
        Some(last) => add_after(lines, last, count),
    }
}

fn add_after(
    lines: &mut Vec<LineCount>,
    last: LineCount,
    count: LineCount,
) -> Result<(), AllocError>
    ensures sums { OnOk result (SumsUp (lines.old.items ++ last ∷ count ∷ []) lines.new.items) }
    ensures order { AreUpTo count.line (lines.old.items ++ last ∷ [])
        → OnOk result (AreUpTo count.line lines.new.items) }
{
    if last.line == count.line {
        let times = sum(last.times, count.times)?;
        lines.push(LineCount {
            line: last.line,
            times,
        })?;
    } else {
        lines.push(last)?;
        lines.push(count)?;
    }
    Ok(())
}

/// The sum. So many events that it passes its type take more memory than there is.
fn sum(one: u64, other: u64) -> Result<u64, AllocError>
    ensures { IfOk result (λ sum. sum ≡ one + other) }
{
    one.checked_add(other).ok_or(AllocError)
}
