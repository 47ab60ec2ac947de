//! What the states of a process say. States with the same parts share a table.

ghost use Rattle.std.specs.Prelude.{◌≡◌, ◌<◌, ◌^◌, ℕ, All, List, None, Some, IfOk, IsOk, OnOk, flat_map, length, map};
ghost use Rattle.build_names.specs.Faults.{Notes};
ghost use Rattle.build_states.specs.Listed.{part_value};
ghost use Rattle.build_states.specs.Outlined.{seen_in};
ghost use Rattle.build_states.specs.Shared.{AreShared, IsKnown, IsOfName, Keeps, KeepsKnown, faults_by, known_in, seen_of, state_tables, states_listed, table_at, table_by};
ghost use Rattle.build_states.specs.States.{named_faults, tables_of};
ghost use Rattle.build_states.specs.Tabled.{names_listed, table_value};

use crate::chosen::chosen;
use crate::known::Known;
use crate::outline::{Outline, Turn};
use crate::stimuli::Part;
use crate::table::{Table, read_table};
use build_names::Faults;
use sdl_system::TableId;
use sdl_tree::Name;
use std::alloc::{AllocError, Global};

/// The tables of the states of a process. States whose names stand in the same state lists have the same parts, and
/// share a table.
pub struct StateTables<'m> {
    pub tables: Vec<Table<'m>>,
    /// The table of each state.
    pub of_states: Vec<TableId>,
}

/// Written out, so that it is proved here, and not anew in each crate that drops one.
impl<'m> Drop for StateTables<'m> {
    fn drop(self) {
        let StateTables {
            tables: _,
            of_states: _,
        } = self;
    }
}

/// Reads the tables of the states of these names from the parts that belong to them. Notes `TwiceInState` at each name,
/// list or asterisk that speaks of what is mentioned before in a state.
///
/// A part that names its states costs a step for each name, one with an asterisk for each name that it leaves out and
/// for each table.
pub fn read_states<'m, 't>(
    alloc: Global,
    names: &[&Name],
    parts: &'m [Part<'t>],
    faults: &mut Faults<'t>,
) -> Result<StateTables<'m>, AllocError>
    ensures read { IfOk result (λ states. state_tables states
        ≡ map Some (tables_of (map part_value parts.now) (names_listed names.now))) }
    ensures each { IfOk result (λ states. All (IsOfName (map part_value parts.now))
        (map table_value states.tables.items)) }
    ensures shared { IfOk result (λ states. AreShared (map part_value parts.now) (names_listed names.now)
        states.of_states.items) }
    ensures noted { OnOk result (Notes faults.old faults.new
        (flat_map (named_faults (map part_value parts.now)) (names_listed names.now))) }
{
    let outline = Outline::of(alloc, parts)?;
    share(alloc, names, parts, &outline, faults)
}

fn share<'m, 't>(
    alloc: Global,
    names: &[&Name],
    parts: &'m [Part<'t>],
    outline: &Outline<'t>,
    faults: &mut Faults<'t>,
) -> Result<StateTables<'m>, AllocError>
    requires { (text : List ℕ) → seen_of outline.now text ≡ seen_in text (states_listed (map part_value parts.now)) }
    ensures read { IfOk result (λ states. state_tables states
        ≡ map Some (tables_of (map part_value parts.now) (names_listed names.now))) }
    ensures each { IfOk result (λ states. All (IsOfName (map part_value parts.now))
        (map table_value states.tables.items)) }
    ensures shared { IfOk result (λ states. AreShared (map part_value parts.now) (names_listed names.now)
        states.of_states.items) }
    ensures noted { OnOk result (Notes faults.old faults.new
        (flat_map (named_faults (map part_value parts.now)) (names_listed names.now))) }
{
    let mut known = Known::new(alloc);
    let mut tables = Vec::new(alloc);
    let mut of_states = Vec::new(alloc);
    for name in names {
        let turns = outline.turns.get(&name.text);
        let stars = &outline.stars;
        let table = table_of(alloc, stars, turns, parts, &mut known, &mut tables, faults)?;
        of_states.push(table)?;
    }
    Ok(StateTables { tables, of_states })
}

/// The table of a state whose name stands there.
fn table_of<'l, 'm, 't>(
    alloc: Global,
    stars: &[usize],
    turns: &'l [Turn],
    parts: &'m [Part<'t>],
    known: &mut Known<'l>,
    tables: &mut Vec<Table<'m>>,
    faults: &mut Faults<'t>,
) -> Result<TableId, AllocError>
    requires { IsKnown (map part_value parts.now) stars.now known.old (map table_value tables.old.items)
        faults.old }
    ensures read { IfOk result (λ number. table_at (map table_value tables.new.items) number
        ≡ Some (table_by (map part_value parts.now) stars.now turns.now)) }
    ensures known { OnOk result (IsKnown (map part_value parts.now) stars.now known.new
        (map table_value tables.new.items) faults.new) }
    ensures found { IfOk result (λ number. known_in known.new turns.now ≡ Some number) }
    ensures stays { OnOk result (KeepsKnown known.old known.new) }
    ensures kept { OnOk result (Keeps (map table_value tables.old.items) (map table_value tables.new.items)) }
    ensures each { OnOk result (IsOfName (map part_value parts.now)
        (table_by (map part_value parts.now) stars.now turns.now)
        → All (IsOfName (map part_value parts.now)) (map table_value tables.old.items)
        → All (IsOfName (map part_value parts.now)) (map table_value tables.new.items)) }
    ensures noted { OnOk result (Notes faults.old faults.new
        (faults_by (map part_value parts.now) stars.now turns.now)) }
{
    match known.get(turns) {
        Some(number) => Ok(number),
        None => add_table(alloc, stars, turns, parts, known, tables, faults),
    }
}

fn add_table<'l, 'm, 't>(
    alloc: Global,
    stars: &[usize],
    turns: &'l [Turn],
    parts: &'m [Part<'t>],
    known: &mut Known<'l>,
    tables: &mut Vec<Table<'m>>,
    faults: &mut Faults<'t>,
) -> Result<TableId, AllocError>
    requires before { IsKnown (map part_value parts.now) stars.now known.old (map table_value tables.old.items)
        faults.old }
    requires is_new { known_in known.old turns.now ≡ None }
    ensures read { IfOk result (λ number. table_at (map table_value tables.new.items) number
        ≡ Some (table_by (map part_value parts.now) stars.now turns.now)) }
    ensures known { OnOk result (IsKnown (map part_value parts.now) stars.now known.new
        (map table_value tables.new.items) faults.new) }
    ensures found { IfOk result (λ number. known_in known.new turns.now ≡ Some number) }
    ensures stays { OnOk result (KeepsKnown known.old known.new) }
    ensures kept { OnOk result (Keeps (map table_value tables.old.items) (map table_value tables.new.items)) }
    ensures each { OnOk result (IsOfName (map part_value parts.now)
        (table_by (map part_value parts.now) stars.now turns.now)
        → All (IsOfName (map part_value parts.now)) (map table_value tables.old.items)
        → All (IsOfName (map part_value parts.now)) (map table_value tables.new.items)) }
    ensures noted { OnOk result (Notes faults.old faults.new
        (faults_by (map part_value parts.now) stars.now turns.now)) }
{
    let numbers = chosen(alloc, stars, turns)?;
    let table = read_table(alloc, &numbers, parts, faults)?;
    let number = next_table(tables)?;
    tables.push(table)?;
    known.add(turns, number)?;
    Ok(number)
}

/// The number of the table that comes next. More than have numbers take more memory than there is.
fn next_table(tables: &[Table<'_>]) -> Result<TableId, AllocError>
    ensures same { IfOk result (λ number. number ≡ record { 0 = length tables.now }) }
    ensures fits { length tables.now < 2 ^ 32 → IsOk result }
{
    if tables.len() > u32::MAX as usize {
        return Err(AllocError);
    }
    Ok(TableId(tables.len() as u32))
}
