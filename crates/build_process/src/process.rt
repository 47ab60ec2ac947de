//! What the text of a process says, whole.

ghost use Rattle.std.specs.Prelude.{◌≡◌, ◌≤◌, ◌++◌, ℕ, All, List, IfNone, IfOk, IfSome, OnOk, flat_map, length};
ghost use Rattle.build_process.specs.Added.{HasEach};
ghost use Rattle.build_process.specs.Sound.{AreTransitionsOf};
ghost use Rattle.build_flow.specs.Beginnings.{beginnings};
ghost use Rattle.build_names.specs.Faults.{Notes};
ghost use Rattle.build_names.specs.States.{different};
ghost use Rattle.build_states.specs.States.{is_named, left_out_faults, names_in};
ghost use Rattle.build_states.specs.Tabled.{is_state, names_listed};
ghost use Rattle.build_states.specs.Listed.{reading_value};
ghost use Rattle.build_states.specs.Reading as reading;
ghost use Rattle.sdl_system.specs.Behaviour.{Behaviour, Means};
ghost use Rattle.sdl_system.specs.Soundness.{Keeps};
ghost use Rattle.sdl_tree.specs.Views.{process_value};
ghost use Rattle.build_process.specs.Faulty.{NotesBody, NotesFlow};
ghost use Rattle.build_process.specs.Made.{IsHeaded};
ghost use Rattle.build_process.specs.Meant.{IsBehaviour};
ghost use Rattle.build_process.specs.Refused.{IsRefused};
ghost use Rattle.build_process.specs.ProcessScope.{for_stimuli, for_transitions, process_scope_of};

use crate::heading::Heading;
use crate::making::process_of;
use crate::process_scope::ProcessScope;
use crate::transitions::{Transitions, transitions_of};
use build_flow::{note_ends, note_stays};
use build_names::Faults;
use build_states::{Reading, note_left_out, read_body, read_states};
use sdl_system::Process;
use sdl_tree::ProcessDefinition;
use std::alloc::{AllocError, Global};

/// The process with this text and heading. There is none where a rule is broken in a condition or a transition has no
/// node; and where another is broken, what the process does means nothing. Its tables agree with one another in any
/// case, where the valid input set of the heading has none but signals of the system.
///
/// Noted is all that is broken in its states and transitions: at the stimuli `Unknown` and `Sort` at names and the
/// faults of conditions, `NoState` at a name behind an asterisk that no state list names, `TwiceInState` at what a
/// state mentions twice; the faults of each statement; `NoEnd` at a path without a terminator, and `NoState` at a
/// `nextstate -` that the start reaches.
pub fn make_process<'t>(
    alloc: Global,
    around: &ProcessScope<'_, '_, 't>,
    heading: Heading,
    definition: &'t ProcessDefinition,
    faults: &mut Faults<'t>,
) -> Result<Option<Process>, AllocError>
    requires names { names_listed around.now.states.names.now
        ≡ different (names_in (process_value definition.now).body) }
    requires table { (text : List ℕ) → is_state around.now.states.table.now text
        ≡ is_named (names_in (process_value definition.now).body) text }
    ensures noted { OnOk result (NotesBody (process_scope_of around.now) (process_value definition.now)
        faults.old faults.new) }
    ensures there { IfOk result (λ made. IfNone made
        (IsRefused (process_scope_of around.now) (process_value definition.now))) }
    ensures headed { IfOk result (λ made. IfSome made (IsHeaded heading)) }
    ensures means { IfOk result (λ made. IfSome made (λ process. (behaviour : Behaviour)
        → IsBehaviour (process_scope_of around.now) (process_value definition.now) heading behaviour
        → Means process behaviour)) }
    ensures keeps { IfOk result (λ made. IfSome made (λ process. length heading.valid ≤ around.now.signals
        → All (Keeps around.now.signals process) process.tables.items)) }
{
    let Reading { numbering, parts } = read_parts(alloc, around, definition, faults)?;
    let said = read_states(alloc, around.states.names, &parts, faults)?;
    let Some(transitions) = read_flow(alloc, around, definition, faults)? else {
        return Ok(None);
    };
    process_of(
        alloc,
        around,
        heading,
        &said,
        numbering.conditions,
        transitions,
    )
}

/// The parts of the process. Noted are the faults of its stimuli, and `NoState` at names behind asterisks.
fn read_parts<'t>(
    alloc: Global,
    around: &ProcessScope<'_, '_, 't>,
    definition: &'t ProcessDefinition,
    faults: &mut Faults<'t>,
) -> Result<Reading<'t>, AllocError>
    ensures read { IfOk result (λ read. reading_value read
        ≡ reading.process_read (for_stimuli (process_scope_of around.now)) (process_value definition.now)) }
    ensures noted { OnOk result (Notes faults.old faults.new
        (reading.body_faults (for_stimuli (process_scope_of around.now)) (process_value definition.now).body
        ++ flat_map (left_out_faults (is_state around.now.states.table.now)) (process_value definition.now).body)) }
{
    let context = around.for_stimuli();
    let read = read_body(alloc, &context, &definition.body, faults)?;
    note_left_out(around.states.table, &definition.body, faults);
    Ok(read)
}

/// The transitions of the process. Noted are the faults of their statements and of how they end.
fn read_flow<'t>(
    alloc: Global,
    around: &ProcessScope<'_, '_, 't>,
    definition: &'t ProcessDefinition,
    faults: &mut Faults<'t>,
) -> Result<Option<Transitions>, AllocError>
    ensures table { IfOk result (λ transitions. AreTransitionsOf (for_transitions (process_scope_of around.now))
        (process_value definition.now) transitions) }
    ensures entries { IfOk result (λ transitions.
        HasEach (length (beginnings (process_value definition.now))) transitions) }
    ensures noted { OnOk result (NotesFlow (process_scope_of around.now) (process_value definition.now)
        faults.old faults.new) }
{
    let context = around.for_transitions();
    let transitions = transitions_of(alloc, &context, definition, faults)?;
    note_ends(alloc, definition, faults)?;
    note_stays(alloc, definition, faults)?;
    Ok(transitions)
}
