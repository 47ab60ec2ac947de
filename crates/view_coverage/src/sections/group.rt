//! Items that are counted together.

ghost use Rattle.std.specs.Prelude.{◌≡◌, ◌+◌, IfOk};
ghost use Rattle.view_coverage.specs.Group.{all_in, all_of, is_in, is_missed, missed_in, missed_of};

use crate::sections::item::{Item, Kind, Section};
use std::alloc::AllocError;

/// A group of items.
#[derive(Clone, Copy, PartialEq, Eq)]
pub enum Group {
    States,
    Stimuli,
    Answers,
    /// Stimuli and answers.
    Choices,
}

/// Whether an item is one of the group.
pub fn is_in(item: &Item, group: Group) -> bool
    ensures { result ≡ is_in group item.now }
{
    match (group, item.kind) {
        (Group::States, Kind::State) => true,
        (Group::Stimuli, Kind::Stimulus(_)) => true,
        (Group::Answers, Kind::Answer(_)) => true,
        (Group::Choices, Kind::Stimulus(_)) => true,
        (Group::Choices, Kind::Answer(_)) => true,
        _ => false,
    }
}

/// Whether it is one that was never covered.
pub fn is_missed(item: &Item, group: Group) -> bool
    ensures { result ≡ is_missed group item.now }
{
    is_in(item, group) && item.times == 0
}

/// How many of these are in the group.
pub fn all_in(items: &[Item], group: Group) -> usize
    ensures { result ≡ all_in group items.now }
{
    items.iter().filter(|item| is_in(item, group)).count()
}

/// How many of these are in the group and were never covered.
pub fn missed_in(items: &[Item], group: Group) -> usize
    ensures { result ≡ missed_in group items.now }
{
    items.iter().filter(|item| is_missed(item, group)).count()
}

/// How many items of all sections are in the group.
pub fn all_of(sections: &[Section<'_>], group: Group) -> Result<usize, AllocError>
    ensures { IfOk result (λ all. all ≡ all_of group sections.now) }
{
    let mut all: usize = 0;
    for section in sections {
        all = sum(all, all_in(&section.items, group))?;
    }
    Ok(all)
}

/// How many items of all sections are in the group and were never covered.
pub fn missed_of(sections: &[Section<'_>], group: Group) -> Result<usize, AllocError>
    ensures { IfOk result (λ missed. missed ≡ missed_of group sections.now) }
{
    let mut missed: usize = 0;
    for section in sections {
        missed = sum(missed, missed_in(&section.items, group))?;
    }
    Ok(missed)
}

/// The sum. So many items that it passes its type take more memory than there is.
fn sum(one: usize, other: usize) -> Result<usize, AllocError>
    ensures { IfOk result (λ sum. sum ≡ one + other) }
{
    one.checked_add(other).ok_or(AllocError)
}
