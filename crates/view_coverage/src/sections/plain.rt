//! The coverage of a run for people.

ghost use Rattle.std.specs.Prelude.{◌≡◌, ◌++◌, IfOk, OnOk};
ghost use Rattle.std.specs.String.{string_bytes};
ghost use Rattle.view_coverage.specs.Plain.{IsPlainText, count_text, covered_text, missed_text, plain_text, section_text, sections_text, tally_text, unentered_rows, unentered_text, unknown_text};
ghost use Rattle.view_coverage.specs.Group.{missed_of};

use crate::sections::column::Widths;
use crate::sections::group::{Group, all_in, all_of, missed_in, missed_of};
use crate::sections::item::{Knowledge, Section};
use crate::sections::rows::{push_items, push_missed};
use std::alloc::{AllocError, Global};

/// The plain text: what never came, then each process with all that there is to cover in it.
pub fn plain_text(
    alloc: Global,
    sections: &[Section<'_>],
    knowledge: Knowledge,
) -> Result<String, AllocError>
    ensures { IfOk result (λ text. IsPlainText sections.now knowledge (string_bytes text)) }
{
    let widths = Widths::of(sections);
    text_with(alloc, sections, knowledge, widths)
}

/// The text with columns of these widths.
fn text_with(
    alloc: Global,
    sections: &[Section<'_>],
    knowledge: Knowledge,
    widths: Widths,
) -> Result<String, AllocError>
    ensures { IfOk result (λ text. string_bytes text ≡ plain_text widths knowledge sections.now) }
{
    let mut text = String::new(alloc);
    push_never(&mut text, sections, widths)?;
    push_unentered(&mut text, sections, widths)?;
    text.push_str(unknown_text(knowledge))?;
    push_sections(&mut text, sections, knowledge, widths)?;
    Ok(text)
}

/// Adds the stimuli and answers that never came.
fn push_never(text: &mut String, sections: &[Section<'_>], widths: Widths) -> Result<(), AllocError>
    ensures { OnOk result (string_bytes text.new ≡ string_bytes text.old ++ missed_text widths sections.now) }
{
    let missed = missed_of(sections, Group::Choices)?;
    let all = all_of(sections, Group::Choices)?;
    push_count(text, "never: ", missed, all)?;
    text.push('\n')?;
    push_missed(text, sections, Group::Choices, widths)
}

/// Adds the states that were never entered, if there are any.
fn push_unentered(
    text: &mut String,
    sections: &[Section<'_>],
    widths: Widths,
) -> Result<(), AllocError>
    ensures { OnOk result (string_bytes text.new ≡ string_bytes text.old ++ unentered_text widths sections.now) }
{
    let missed = missed_of(sections, Group::States)?;
    if missed == 0 {
        Ok(())
    } else {
        push_unentered_rows(text, sections, missed, widths)
    }
}

/// Adds these states, of which there are so many.
fn push_unentered_rows(
    text: &mut String,
    sections: &[Section<'_>],
    missed: usize,
    widths: Widths,
) -> Result<(), AllocError>
    requires { missed ≡ missed_of Group.States sections.now }
    ensures { OnOk result (string_bytes text.new ≡ string_bytes text.old ++ unentered_rows widths sections.now) }
{
    let all = all_of(sections, Group::States)?;
    push_count(text, "never entered: ", missed, all)?;
    text.push_str(" states")?;
    text.push('\n')?;
    push_missed(text, sections, Group::States, widths)
}

/// The line that says why nothing is known of answers, if nothing is.
fn unknown_text(knowledge: Knowledge) -> &'static str
    ensures { result.now ≡ unknown_text knowledge }
{
    match knowledge {
        Knowledge::Known => "",
        Knowledge::NotOfThreads => "answers of decisions: not known of a run with workers\n",
        Knowledge::OtherRun => {
            "answers of decisions: not known, since a run that counts them is another one\n"
        }
    }
}

fn push_sections(
    text: &mut String,
    sections: &[Section<'_>],
    knowledge: Knowledge,
    widths: Widths,
) -> Result<(), AllocError>
    ensures { OnOk result (string_bytes text.new ≡ string_bytes text.old
        ++ sections_text widths knowledge sections.now) }
{
    for section in sections {
        push_section(text, section, knowledge, widths)?;
    }
    Ok(())
}

/// Adds a process.
fn push_section(
    text: &mut String,
    section: &Section<'_>,
    knowledge: Knowledge,
    widths: Widths,
) -> Result<(), AllocError>
    ensures { OnOk result (string_bytes text.new ≡ string_bytes text.old
        ++ section_text widths knowledge section.now) }
{
    text.push_str(section.process)?;
    push_tally(text, ": states ", section, Group::States)?;
    push_tally(text, ", stimuli ", section, Group::Stimuli)?;
    push_covered(text, section, knowledge)?;
    text.push('\n')?;
    push_items(text, &section.items, widths)
}

/// Adds how many answers were covered, if that is known.
fn push_covered(
    text: &mut String,
    section: &Section<'_>,
    knowledge: Knowledge,
) -> Result<(), AllocError>
    ensures { OnOk result (string_bytes text.new ≡ string_bytes text.old
        ++ covered_text knowledge section.now) }
{
    match knowledge {
        Knowledge::Known => push_tally(text, ", answers ", section, Group::Answers),
        Knowledge::NotOfThreads | Knowledge::OtherRun => Ok(()),
    }
}

/// Adds how many of a group were covered.
fn push_tally(
    text: &mut String,
    before: &str,
    section: &Section<'_>,
    group: Group,
) -> Result<(), AllocError>
    ensures { OnOk result (string_bytes text.new ≡ string_bytes text.old
        ++ tally_text before.now group section.now) }
{
    let all = all_in(&section.items, group);
    let covered = all.saturating_sub(missed_in(&section.items, group));
    push_count(text, before, covered, all)
}

/// Adds `3 of 7`.
fn push_count(text: &mut String, before: &str, count: usize, all: usize) -> Result<(), AllocError>
    ensures { OnOk result (string_bytes text.new ≡ string_bytes text.old ++ count_text before.now count all) }
{
    write!(text, "{before}{count} of {all}")
}
