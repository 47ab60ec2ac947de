//! How large a specification may be.

ghost use Rattle.std.specs.Prelude.{◌≡◌, ◌++◌, flat_map, map, option_map, IfOk, OnOk};
ghost use Rattle.sdl_tree.specs.Views.{block_part_value, definition_value, fpar_value, local_value, process_value, signal_value, sorts_value, system_definition_value, timer_value, tree_value};
ghost use Rattle.build_names.specs.Faults.{Notes, fault_at};
ghost use Rattle.build_limits.specs.Limits.{block_definitions, declared_faults, declared_name, declared_of, definitions_in, limit_faults, local_declared, of_signal, of_timer, parameter_names, process_faults, process_name, process_statements, processes_of, system_definitions};
ghost use Rattle.build_limits.specs.Listed.{declared_listed, definitions_listed, processes_listed};
ghost use Rattle.build_names.specs.States.{different, state_names};

mod count;

use build_names::{Faults, Rule, Token, states_of};
use count::Count;
use sdl_tree::{
    BlockDefinition, BlockPart, Definition, FormalParameters, LocalDefinition, Name,
    ProcessDefinition, SignalDefinition, SortName, SystemDefinition, TimerDefinition, Tree,
};
use std::alloc::{AllocError, Global};

/// The processes of a specification.
const MOST_PROCESSES: usize = 200;

/// The signals and timers of a specification.
const MOST_DECLARED: usize = 1_000;

/// The different states of a process.
const MOST_STATES: usize = 1_000;

/// The parameters of a signal, of a timer and of a process.
const MOST_PARAMETERS: usize = 16;

/// The statements of a specification.
const MOST_STATEMENTS: usize = 50_000;

/// Notes each limit that a specification passes, at the first word past it: at the name of a process, of a signal or a
/// timer, of a state or of a formal parameter, at the sort of a parameter of a signal or a timer, or at the word of a
/// statement. After an error some of them are noted.
pub fn note_limits<'t>(
    alloc: Global,
    tree: &'t Tree,
    faults: &mut Faults<'t>,
) -> Result<(), AllocError>
    ensures { OnOk result (Notes faults.old faults.new (limit_faults (tree_value tree.now))) }
{
    let definitions = definitions_in(alloc, tree)?;
    let processes = processes_in(alloc, &definitions)?;
    let declared = declared_in(alloc, &definitions)?;
    note_processes(&processes, faults);
    note_declared(&declared, faults);
    note_statements(&processes, faults);
    note_all_sorts(&declared, faults);
    note_in_processes(alloc, &processes, faults)
}

fn note_processes<'t>(processes: &[&'t ProcessDefinition], faults: &mut Faults<'t>)
    ensures { Notes faults.old faults.new (fault_at 200 (map process_name (processes_listed processes.now))) }
{
    if let Some(process) = processes.get(MOST_PROCESSES) {
        faults.note(Rule::Limit, Token::of_name(&process.name));
    }
}

fn note_declared<'t>(declared: &[Declared<'t>], faults: &mut Faults<'t>)
    ensures { Notes faults.old faults.new (fault_at 1000 (map declared_name (declared_listed declared.now))) }
{
    if let Some(declared) = declared.get(MOST_DECLARED) {
        faults.note(Rule::Limit, Token::of_name(declared.name));
    }
}

fn note_statements<'t>(processes: &[&'t ProcessDefinition], faults: &mut Faults<'t>)
    ensures { Notes faults.old faults.new
        (fault_at 50000 (flat_map process_statements (processes_listed processes.now))) }
{
    let mut count = Count::Left(MOST_STATEMENTS);
    for process in processes {
        count.process(process);
    }
    count.note(faults);
}

fn note_all_sorts<'t>(list: &[Declared<'t>], faults: &mut Faults<'t>)
    ensures { Notes faults.old faults.new (flat_map declared_faults (declared_listed list.now)) }
{
    for declared in list {
        note_sorts(declared.sorts, faults);
    }
}

fn note_sorts<'t>(sorts: &'t [SortName], faults: &mut Faults<'t>)
    ensures { Notes faults.old faults.new (fault_at 16 (sorts_value sorts.now)) }
{
    if let Some(sort) = sorts.get(MOST_PARAMETERS) {
        faults.note(Rule::Limit, Token::of_name(&sort.spelled));
    }
}

fn note_in_processes<'t>(
    alloc: Global,
    processes: &[&'t ProcessDefinition],
    faults: &mut Faults<'t>,
) -> Result<(), AllocError>
    ensures { OnOk result (Notes faults.old faults.new (flat_map process_faults (processes_listed processes.now))) }
{
    for process in processes {
        note_in_process(alloc, process, faults)?;
    }
    Ok(())
}

fn note_in_process<'t>(
    alloc: Global,
    process: &'t ProcessDefinition,
    faults: &mut Faults<'t>,
) -> Result<(), AllocError>
    ensures { OnOk result (Notes faults.old faults.new (process_faults (process_value process.now))) }
{
    note_parameters(&process.parameters, faults);
    note_states(alloc, process, faults)
}

fn note_parameters<'t>(parameters: &'t Option<FormalParameters>, faults: &mut Faults<'t>)
    ensures { Notes faults.old faults.new (fault_at 16 (parameter_names (option_map fpar_value parameters.now))) }
{
    let mut count = Count::Left(MOST_PARAMETERS);
    count.parameters(parameters);
    count.note(faults);
}

fn note_states<'t>(
    alloc: Global,
    process: &'t ProcessDefinition,
    faults: &mut Faults<'t>,
) -> Result<(), AllocError>
    ensures { OnOk result (Notes faults.old faults.new
        (fault_at 1000 (different (state_names (process_value process.now))))) }
{
    let states = states_of(alloc, process)?;
    if let Some(state) = states.get(MOST_STATES) {
        faults.note(Rule::Limit, Token::of_name(state));
    }
    Ok(())
}

/// The definitions of a system and of its blocks, in the order of the text.
fn definitions_in<'t>(alloc: Global, tree: &'t Tree) -> Result<Vec<&'t Definition>, AllocError>
    ensures { IfOk result (λ list. definitions_listed list.items ≡ definitions_in (tree_value tree.now)) }
{
    let mut definitions = Vec::new(alloc);
    for definition in &tree.definitions {
        add_definitions(&mut definitions, definition)?;
    }
    Ok(definitions)
}

fn add_definitions<'t>(
    definitions: &mut Vec<&'t Definition>,
    definition: &'t SystemDefinition,
) -> Result<(), AllocError>
    ensures { OnOk result (definitions_listed definitions.new.items ≡
        definitions_listed definitions.old.items ++ system_definitions (system_definition_value definition.now)) }
{
    match definition {
        SystemDefinition::Shared(definition) => {
            definitions.push(definition)?;
            Ok(())
        }
        SystemDefinition::Block(block) => add_block(definitions, block),
    }
}

fn add_block<'t>(
    definitions: &mut Vec<&'t Definition>,
    block: &'t BlockDefinition,
) -> Result<(), AllocError>
    ensures { OnOk result (definitions_listed definitions.new.items ≡
        definitions_listed definitions.old.items
        ++ flat_map block_definitions (map block_part_value block.now.definitions.items)) }
{
    for part in &block.definitions {
        add_block_part(definitions, part)?;
    }
    Ok(())
}

fn add_block_part<'t>(
    definitions: &mut Vec<&'t Definition>,
    part: &'t BlockPart,
) -> Result<(), AllocError>
    ensures { OnOk result (definitions_listed definitions.new.items ≡
        definitions_listed definitions.old.items ++ block_definitions (block_part_value part.now)) }
{
    if let BlockPart::Shared(definition) = part {
        definitions.push(definition)?;
    }
    Ok(())
}

fn processes_in<'t>(
    alloc: Global,
    definitions: &[&'t Definition],
) -> Result<Vec<&'t ProcessDefinition>, AllocError>
    ensures { IfOk result (λ list. processes_listed list.items
        ≡ flat_map processes_of (definitions_listed definitions.now)) }
{
    let mut processes = Vec::new(alloc);
    for definition in definitions {
        add_process(&mut processes, definition)?;
    }
    Ok(processes)
}

fn add_process<'t>(
    processes: &mut Vec<&'t ProcessDefinition>,
    definition: &'t Definition,
) -> Result<(), AllocError>
    ensures { OnOk result (processes_listed processes.new.items ≡
        processes_listed processes.old.items ++ processes_of (definition_value definition.now)) }
{
    if let Definition::Process(process) = definition {
        processes.push(process)?;
    }
    Ok(())
}

/// A signal or a timer.
#[derive(Clone, Copy)]
struct Declared<'t> {
    name: &'t Name,
    sorts: &'t [SortName],
}

/// The signals and timers of these definitions.
fn declared_in<'t>(
    alloc: Global,
    definitions: &[&'t Definition],
) -> Result<Vec<Declared<'t>>, AllocError>
    ensures { IfOk result (λ list. declared_listed list.items
        ≡ flat_map declared_of (definitions_listed definitions.now)) }
{
    let mut declared = Vec::new(alloc);
    for definition in definitions {
        add_declared(&mut declared, definition)?;
    }
    Ok(declared)
}

fn add_declared<'t>(
    declared: &mut Vec<Declared<'t>>,
    definition: &'t Definition,
) -> Result<(), AllocError>
    ensures { OnOk result (declared_listed declared.new.items ≡
        declared_listed declared.old.items ++ declared_of (definition_value definition.now)) }
{
    match definition {
        Definition::Signals(signals) => add_signals(declared, signals),
        Definition::Process(process) => add_locals(declared, &process.definitions),
        _ => Ok(()),
    }
}

fn add_locals<'t>(
    declared: &mut Vec<Declared<'t>>,
    definitions: &'t [LocalDefinition],
) -> Result<(), AllocError>
    ensures { OnOk result (declared_listed declared.new.items ≡
        declared_listed declared.old.items ++ flat_map local_declared (map local_value definitions.now)) }
{
    for definition in definitions {
        add_local(declared, definition)?;
    }
    Ok(())
}

fn add_local<'t>(
    declared: &mut Vec<Declared<'t>>,
    definition: &'t LocalDefinition,
) -> Result<(), AllocError>
    ensures { OnOk result (declared_listed declared.new.items ≡
        declared_listed declared.old.items ++ local_declared (local_value definition.now)) }
{
    match definition {
        LocalDefinition::Signals(signals) => add_signals(declared, signals),
        LocalDefinition::Timers(timers) => add_timers(declared, &timers.timers),
        _ => Ok(()),
    }
}

fn add_signals<'t>(
    declared: &mut Vec<Declared<'t>>,
    signals: &'t [SignalDefinition],
) -> Result<(), AllocError>
    ensures { OnOk result (declared_listed declared.new.items ≡
        declared_listed declared.old.items ++ map of_signal (map signal_value signals.now)) }
{
    for signal in signals {
        declared.push(Declared {
            name: &signal.name,
            sorts: &signal.sorts,
        })?;
    }
    Ok(())
}

fn add_timers<'t>(
    declared: &mut Vec<Declared<'t>>,
    timers: &'t [TimerDefinition],
) -> Result<(), AllocError>
    ensures { OnOk result (declared_listed declared.new.items ≡
        declared_listed declared.old.items ++ map of_timer (map timer_value timers.now)) }
{
    for timer in timers {
        declared.push(Declared {
            name: &timer.name,
            sorts: &timer.sorts,
        })?;
    }
    Ok(())
}
