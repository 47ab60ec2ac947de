//! What there is to cover, with its counts, process by process.

ghost use Rattle.std.specs.List.{AllZip};
ghost use Rattle.std.specs.Prelude.{IfOk};
ghost use Rattle.view_coverage.specs.Sections.{IsSection, sources_of};

use crate::counts::Counts;
use crate::covered::answers::Answers;
use crate::covered::item_list::{add_answers, add_states, add_stimuli};
use crate::goals::{Goals, ProcessGoals};
use crate::sections::Section;
use sdl_system::System;
use std::alloc::{AllocError, Global};

/// What the sections are made of.
#[derive(Clone, Copy)]
pub struct Material<'a, 't> {
    pub goals: &'a Goals<'t>,
    pub counts: &'a Counts,
    pub answers: &'a Answers,
    pub system: &'a System,
}

/// The sections of all processes.
pub fn sections_of<'t>(
    alloc: Global,
    material: &Material<'_, 't>,
) -> Result<Vec<Section<'t>>, AllocError>
    ensures { IfOk result (λ sections. AllZip (IsSection (sources_of material.now))
        material.now.goals.now.processes.items sections.items) }
{
    let mut sections = Vec::new(alloc);
    for goals in &material.goals.processes {
        let section = section_of(alloc, material, goals)?;
        sections.push(section)?;
    }
    Ok(sections)
}

/// What there is to cover in a process, in the order of the text.
fn section_of<'t>(
    alloc: Global,
    material: &Material<'_, 't>,
    goals: &ProcessGoals<'t>,
) -> Result<Section<'t>, AllocError>
    ensures { IfOk result (IsSection (sources_of material.now) goals.now) }
{
    let mut items = Vec::new(alloc);
    add_states(alloc, &mut items, material, goals)?;
    add_stimuli(alloc, &mut items, material, goals)?;
    add_answers(alloc, &mut items, material, goals.number)?;
    items.sort_by_key(|item| item.place)?;
    Ok(Section {
        process: goals.name.text.as_str(),
        items,
    })
}
