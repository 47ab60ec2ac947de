//! The coverage of a run as a tracefile of LCOV.

ghost use Rattle.std.specs.Prelude.{◌≡◌, ◌++◌, IfOk, OnOk};
ghost use Rattle.std.specs.List.{flat_map};
ghost use Rattle.std.specs.String.{string_bytes};
ghost use Rattle.view_coverage.specs.Lcov.{IsTracefile, branch_row, branches_text, heading_text, item_branch, line_row, lines_text, section_branches, test_name, tracefile_text};

use crate::sections::group::{Group, all_of, missed_of};
use crate::sections::item::{Branch, Item, Kind, Knowledge, Section};
use crate::sections::line_count::{LineCount, is_passed, lines_of};
use crate::sections::source::push_source;
use std::alloc::{AllocError, Global};

/// The tracefile: `BRDA` for each way, which is a state with a stimulus or a part of a decision, and `DA` for each line
/// in which a stimulus or a decision is.
pub fn tracefile(
    alloc: Global,
    sections: &[Section<'_>],
    knowledge: Knowledge,
    source: &str,
) -> Result<String, AllocError>
    ensures { IfOk result (λ text. IsTracefile knowledge source.now sections.now (string_bytes text)) }
{
    let lines = lines_of(alloc, sections)?;
    let text = text_with(alloc, sections, knowledge, source, &lines)?;
    Ok(text)
}

/// The tracefile with the counts of these lines.
fn text_with(
    alloc: Global,
    sections: &[Section<'_>],
    knowledge: Knowledge,
    source: &str,
    lines: &[LineCount],
) -> Result<String, AllocError>
    ensures { IfOk result (λ text. string_bytes text
        ≡ tracefile_text knowledge source.now sections.now lines.now) }
{
    let mut text = String::new(alloc);
    push_heading(&mut text, knowledge, source)?;
    push_branches(&mut text, sections)?;
    push_lines(&mut text, lines)?;
    text.push_str("end_of_record")?;
    text.push('\n')?;
    Ok(text)
}

/// Adds the name of the test, which says if answers are not known, and that of the file.
fn push_heading(text: &mut String, knowledge: Knowledge, source: &str) -> Result<(), AllocError>
    ensures { OnOk result (string_bytes text.new ≡ string_bytes text.old ++ heading_text knowledge source.now) }
{
    let name = test_name(knowledge);
    writeln!(text, "TN:{name}")?;
    text.push_str("SF:")?;
    push_source(text, source)?;
    text.push('\n')
}

fn test_name(knowledge: Knowledge) -> &'static str
    ensures { result.now ≡ test_name knowledge }
{
    match knowledge {
        Knowledge::Known => "",
        Knowledge::NotOfThreads | Knowledge::OtherRun => "answers_not_known",
    }
}

/// Adds the ways, how many there are, and how many were gone.
fn push_branches(text: &mut String, sections: &[Section<'_>]) -> Result<(), AllocError>
    ensures { OnOk result (string_bytes text.new ≡ string_bytes text.old ++ branches_text sections.now) }
{
    push_rows(text, sections)?;
    let all = all_of(sections, Group::Choices)?;
    let covered = all.saturating_sub(missed_of(sections, Group::Choices)?);
    writeln!(text, "BRF:{all}")?;
    writeln!(text, "BRH:{covered}")
}

fn push_rows(text: &mut String, sections: &[Section<'_>]) -> Result<(), AllocError>
    ensures { OnOk result (string_bytes text.new
        ≡ string_bytes text.old ++ flat_map section_branches sections.now) }
{
    for section in sections {
        push_items(text, &section.items)?;
    }
    Ok(())
}

fn push_items(text: &mut String, items: &[Item]) -> Result<(), AllocError>
    ensures { OnOk result (string_bytes text.new ≡ string_bytes text.old ++ flat_map item_branch items.now) }
{
    for item in items {
        push_item(text, item)?;
    }
    Ok(())
}

/// Adds an item that is a way.
fn push_item(text: &mut String, item: &Item) -> Result<(), AllocError>
    ensures { OnOk result (string_bytes text.new ≡ string_bytes text.old ++ item_branch item.now) }
{
    match item.kind {
        Kind::Stimulus(branch) | Kind::Answer(branch) => push_branch(text, branch, item.times),
        Kind::State => Ok(()),
    }
}

fn push_branch(text: &mut String, branch: Branch, times: u64) -> Result<(), AllocError>
    ensures { OnOk result (string_bytes text.new ≡ string_bytes text.old ++ branch_row branch times) }
{
    let line = branch.place.line;
    let column = branch.place.column;
    let number = branch.number;
    writeln!(text, "BRDA:{line},{column},{number},{times}")
}

/// Adds the lines, how many there are, and how many were passed.
fn push_lines(text: &mut String, lines: &[LineCount]) -> Result<(), AllocError>
    ensures { OnOk result (string_bytes text.new ≡ string_bytes text.old ++ lines_text lines.now) }
{
    push_line_rows(text, lines)?;
    let all = lines.len();
    let covered = lines.iter().filter(|count| is_passed(count)).count();
    writeln!(text, "LF:{all}")?;
    writeln!(text, "LH:{covered}")
}

fn push_line_rows(text: &mut String, lines: &[LineCount]) -> Result<(), AllocError>
    ensures { OnOk result (string_bytes text.new ≡ string_bytes text.old ++ flat_map line_row lines.now) }
{
    for count in lines {
        push_line(text, *count)?;
    }
    Ok(())
}

fn push_line(text: &mut String, count: LineCount) -> Result<(), AllocError>
    ensures { OnOk result (string_bytes text.new ≡ string_bytes text.old ++ line_row count) }
{
    let line = count.line;
    let times = count.times;
    writeln!(text, "DA:{line},{times}")
}
