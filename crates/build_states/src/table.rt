//! What a state says, by its parts.

ghost use Rattle.std.specs.Prelude.{◌≡◌, ◌++◌, ◌∷◌, [], IfOk, OnOk, map, option_map, slice_get};
ghost use Rattle.build_names.specs.Faults.{Notes};
ghost use Rattle.build_states.specs.Listed.{continuous_value, part_value};
ghost use Rattle.build_states.specs.States.{mentions_in, no_table, state_faults, table_of, twice_faults, with_parts};
ghost use Rattle.build_states.specs.Outlined.{listed_part, parts_at};
ghost use Rattle.build_states.specs.Tabled.{part_seen, table_value};

use crate::answers::Answers;
use crate::stimuli::{ContinuousSignal, Part};
use build_names::Faults;
use sdl_system::ConditionId;
use std::alloc::{AllocError, Global};

/// The answers of a state to signals, with its enabling conditions and continuous signals.
#[derive(Drop)]
pub struct Table<'m> {
    pub answers: Answers<'m>,
    /// The enabling conditions, in the order of the text.
    pub enabling: Vec<ConditionId>,
    /// The continuous signals, in the order of the text. The number of each in the state is its place here, from 1.
    pub continuous: Vec<ContinuousSignal>,
}

/// Reads the table of a state that has the parts with these numbers. Notes `TwiceInState` at each name, list or
/// asterisk that speaks of what is mentioned before.
pub fn read_table<'m, 't>(
    alloc: Global,
    numbers: &[usize],
    parts: &'m [Part<'t>],
    faults: &mut Faults<'t>,
) -> Result<Table<'m>, AllocError>
    ensures read { IfOk result (λ table. table_value table
        ≡ table_of (parts_at (map part_value parts.now) numbers.now)) }
    ensures noted { OnOk result (Notes faults.old faults.new
        (state_faults (parts_at (map part_value parts.now) numbers.now))) }
{
    let mut table = Table::new(alloc);
    for number in numbers {
        table.add_listed(part_of(parts, *number), faults)?;
    }
    Ok(table)
}

/// The part with this number, if there is one.
fn part_of<'m, 't>(parts: &'m [Part<'t>], number: usize) -> Option<&'m Part<'t>>
    ensures { option_map part_seen result ≡ slice_get (map part_value parts.now) number }
{
    parts.get(number)
}

impl<'m> Table<'m> {
    fn new(alloc: Global) -> Self
        ensures { table_value result ≡ no_table }
    {
        Table {
            answers: Answers::new(alloc),
            enabling: Vec::new(alloc),
            continuous: Vec::new(alloc),
        }
    }

    /// Adds what a part says, if there is one.
    fn add_listed<'t>(
        &mut self,
        part: Option<&'m Part<'t>>,
        faults: &mut Faults<'t>,
    ) -> Result<(), AllocError>
        ensures added { OnOk result (table_value self.new
            ≡ with_parts (table_value self.old) (listed_part (option_map part_seen part.entry))) }
        ensures noted { OnOk result (Notes faults.old faults.new
            (twice_faults (table_value self.old).answers
            (mentions_in (listed_part (option_map part_seen part.entry))))) }
    {
        if let Some(part) = part {
            self.add_part(part, faults)?;
        }
        Ok(())
    }

    fn add_part<'t>(
        &mut self,
        part: &'m Part<'t>,
        faults: &mut Faults<'t>,
    ) -> Result<(), AllocError>
        ensures added { OnOk result (table_value self.new
            ≡ with_parts (table_value self.old) (part_value part.now ∷ [])) }
        ensures noted { OnOk result (Notes faults.old faults.new
            (twice_faults (table_value self.old).answers (mentions_in (part_value part.now ∷ [])))) }
    {
        self.answers.add_mentions(&part.mentions, faults)?;
        add_conditions(&mut self.enabling, &part.enabling)?;
        add_signals(&mut self.continuous, &part.continuous)
    }
}

fn add_conditions(list: &mut Vec<ConditionId>, conditions: &[ConditionId]) -> Result<(), AllocError>
    ensures { OnOk result (list.new.items ≡ list.old.items ++ conditions.now) }
{
    for condition in conditions {
        list.push(*condition)?;
    }
    Ok(())
}

fn add_signals(
    list: &mut Vec<ContinuousSignal>,
    signals: &[ContinuousSignal],
) -> Result<(), AllocError>
    ensures { OnOk result (map continuous_value list.new.items
        ≡ map continuous_value list.old.items ++ map continuous_value signals.now) }
{
    for signal in signals {
        list.push(*signal)?;
    }
    Ok(())
}
