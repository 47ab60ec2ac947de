//! The cases of a file.

use crate::case::{Answer, Asked, Case};
use crate::escape::expand;
use crate::fault::{FormatError, FormatFault};
use crate::lines::{Line, Lines, lines_of};
use crate::section::{CASE, Section, read_section};
use crate::table::{is_row, read_row};
use crate::words::{read_words, with_chart, with_view, with_workers};
use sdl_command_line::Form;
use sdl_engine::View;
use std::alloc::Global;
use std::collections::BTreeSet;

/// The cases that were read so far.
#[derive(Drop)]
pub struct Cases {
    pub all: Vec<Case>,
    /// The names of cases and tables.
    pub names: BTreeSet<String>,
}

/// Appends the cases of a file.
pub fn read_file(alloc: Global, bytes: &[u8], cases: &mut Cases) -> Result<(), FormatFault> {
    let (_, mut rest) = lines_of(bytes)?.split_at_mark(CASE);
    while let Some((title, below)) = rest.split_first() {
        let (body, after) = below.split_at_mark(CASE);
        let section = read_section(title, body)?;
        add_name(alloc, &section, cases)?;
        add_cases(alloc, &section, &mut cases.all)?;
        rest = after;
    }
    Ok(())
}

fn add_name(alloc: Global, section: &Section<'_>, cases: &mut Cases) -> Result<(), FormatFault> {
    let name = String::from_str(alloc, section.name)?;
    if cases.names.insert(name)? {
        return Ok(());
    }
    Err(section.fault(FormatError::NameTwice))
}

fn add_cases(
    alloc: Global,
    section: &Section<'_>,
    cases: &mut Vec<Case>,
) -> Result<(), FormatFault> {
    match section.blocks.table {
        Some(table) => add_rows(alloc, section, table, cases),
        None => {
            let case = single_case(alloc, section)?;
            add_view(alloc, section, &case, View::Lines, cases)?;
            add_view(alloc, section, &case, View::Json, cases)?;
            add_chart(alloc, section, &case, Form::Svg, cases)?;
            add_chart(alloc, section, &case, Form::Msc, cases)?;
            add_case(alloc, section, case, cases)
        }
    }
}

/// Appends a case, and the same with each number of workers that its section names.
fn add_case(
    alloc: Global,
    section: &Section<'_>,
    case: Case,
    cases: &mut Vec<Case>,
) -> Result<(), FormatFault> {
    for word in section.workers.split_whitespace() {
        let again = case_with_workers(alloc, section, &case, word)?;
        cases.push(again)?;
    }
    cases.push(case)?;
    Ok(())
}

/// The same case with as many workers as the word says.
fn case_with_workers(
    alloc: Global,
    section: &Section<'_>,
    case: &Case,
    word: &str,
) -> Result<Case, FormatFault> {
    let Some(asked) = with_workers(case.asked, word) else {
        return Err(section.fault(FormatError::Workers));
    };
    let name = case.name.as_str();
    Ok(Case {
        name: format!(in alloc; "{name}/workers-{word}")?,
        asked,
        input: case.input.clone()?,
        wanted: case.wanted.clone()?,
        explained: None,
    })
}

/// Appends the same run in this view, if its section says how it is told there.
fn add_view(
    alloc: Global,
    section: &Section<'_>,
    case: &Case,
    view: View,
    cases: &mut Vec<Case>,
) -> Result<(), FormatFault> {
    let (title, block) = match view {
        View::Trace => return Ok(()),
        View::Lines => ("lines", section.blocks.lines),
        View::Json => ("json", section.blocks.json),
    };
    let Some(block) = block else {
        return Ok(());
    };
    let Some(asked) = with_view(case.asked, view) else {
        return Err(section.fault(FormatError::View));
    };
    add_told(alloc, case, asked, title, block, cases)
}

/// Appends the chart of the same run in this form, if its section has it.
fn add_chart(
    alloc: Global,
    section: &Section<'_>,
    case: &Case,
    form: Form,
    cases: &mut Vec<Case>,
) -> Result<(), FormatFault> {
    let (title, block) = match form {
        Form::Svg => ("svg", section.blocks.svg),
        Form::Html => return Ok(()),
        Form::Msc => ("mpr", section.blocks.mpr),
    };
    let Some(block) = block else {
        return Ok(());
    };
    let Some(asked) = with_chart(case.asked, form) else {
        return Err(section.fault(FormatError::Chart));
    };
    add_told(alloc, case, asked, title, block, cases)
}

/// Appends the same run, asked in this way and told as its block of this title says.
fn add_told(
    alloc: Global,
    case: &Case,
    asked: Asked,
    title: &str,
    block: Lines<'_>,
    cases: &mut Vec<Case>,
) -> Result<(), FormatFault> {
    let output = text_of(alloc, block, None)?;
    let told = case_told(alloc, case, asked, title, output)?;
    cases.push(told)?;
    Ok(())
}

/// The same run, asked in this way and told as this output.
fn case_told(
    alloc: Global,
    case: &Case,
    asked: Asked,
    title: &str,
    output: Vec<u8>,
) -> Result<Case, FormatFault> {
    let name = case.name.as_str();
    Ok(Case {
        name: format!(in alloc; "{name}/{title}")?,
        asked,
        input: case.input.clone()?,
        wanted: Answer {
            status: case.wanted.status,
            output,
        },
        explained: None,
    })
}

/// The case of a section without a table.
fn single_case(alloc: Global, section: &Section<'_>) -> Result<Case, FormatFault> {
    let Some(input) = section.blocks.input else {
        return Err(section.fault(FormatError::NoInput));
    };
    let Some(output) = section.blocks.output else {
        return Err(section.fault(FormatError::NoOutput));
    };
    let name = String::from_str(alloc, section.name)?;
    let input = text_of(alloc, input, None)?;
    let output = text_of(alloc, output, None)?;
    let mut case = case_of(section, name, input, output);
    if let Some(explained) = section.blocks.explained {
        case.explained = Some(text_of(alloc, explained, None)?);
    }
    Ok(case)
}

/// Appends the case of each row.
fn add_rows(
    alloc: Global,
    section: &Section<'_>,
    table: Lines<'_>,
    cases: &mut Vec<Case>,
) -> Result<(), FormatFault> {
    let mut number = 0usize;
    let mut rest = table;
    while let Some((line, below)) = rest.split_first() {
        if is_row(line.text) {
            number = number.saturating_add(1);
            let case = row_case(alloc, section, line, number)?;
            add_case(alloc, section, case, cases)?;
        }
        rest = below;
    }
    if number == 0 {
        return Err(section.fault(FormatError::NoRow));
    }
    Ok(())
}

/// The case of a row.
fn row_case(
    alloc: Global,
    section: &Section<'_>,
    line: Line<'_>,
    number: usize,
) -> Result<Case, FormatFault> {
    let Some(row) = read_row(line.text) else {
        return Err(line.fault(FormatError::Row));
    };
    let name = section.name;
    let name = format!(in alloc; "{name}/{number}")?;
    let input = row_text(alloc, section.blocks.input, side_of(line, row.left))?;
    let output = row_output(alloc, section.blocks.output, side_of(line, row.right))?;
    Ok(case_of(section, name, input, output))
}

/// A side of a row, as it stands in its line.
fn side_of<'a>(line: Line<'a>, text: &'a [u8]) -> Lines<'a> {
    let number = line.number;
    Lines { text, number }
}

/// The output of a row. Without a block for it it is one line.
fn row_output(
    alloc: Global,
    block: Option<Lines<'_>>,
    side: Lines<'_>,
) -> Result<Vec<u8>, FormatFault> {
    let mut output = row_text(alloc, block, side)?;
    if block.is_none() {
        output.push(b'\n')?;
    }
    Ok(output)
}

/// The text that a block stands for with this side of a row. Without a block it is the text of the side.
fn row_text(
    alloc: Global,
    block: Option<Lines<'_>>,
    side: Lines<'_>,
) -> Result<Vec<u8>, FormatFault> {
    let side = text_of(alloc, side, None)?;
    match block {
        Some(block) => text_of(alloc, block, Some(side.as_slice())),
        None => Ok(side),
    }
}

/// The text that some lines stand for.
fn text_of(alloc: Global, lines: Lines<'_>, side: Option<&[u8]>) -> Result<Vec<u8>, FormatFault> {
    let mut text = Vec::new(alloc);
    match expand(lines.text, side, &mut text) {
        Ok(()) => Ok(text),
        Err(misread) => Err(lines.fault(misread)),
    }
}

fn case_of(section: &Section<'_>, name: String, input: Vec<u8>, output: Vec<u8>) -> Case {
    Case {
        name,
        asked: read_words(section.args),
        input,
        wanted: Answer {
            status: section.status,
            output,
        },
        explained: None,
    }
}
