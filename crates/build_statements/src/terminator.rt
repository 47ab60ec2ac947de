//! What ends a transition (Z.102: nextstate, stop, join).

ghost use Rattle.std.specs.Prelude.{◌≡◌, is_none, option_and_then, option_map};
ghost use Rattle.build_statements.specs.Contexts.{context_of, label_in, state_in};
ghost use Rattle.build_statements.specs.Faulty.{terminator_faults};
ghost use Rattle.build_statements.specs.Statements.{terminator_in};
ghost use Rattle.build_names.specs.Faults.{Notes, fault_if};
ghost use Rattle.build_names.specs.declared.faults.fault.Rule.TheVariants.{NoLabel, NoState};
ghost use Rattle.sdl_system.specs.Body.{join, to_state};
ghost use Rattle.sdl_system.specs.Table.{terminator_of};
ghost use Rattle.sdl_tree.specs.Views.{name_value, terminator_value};

use crate::context::Context;
use build_names::{Faults, Rule, Token};
use sdl_system::Statement;
use sdl_tree::{Name, NextState, Terminator};

/// The statement that ends a transition. Noted are `NoState` at the name of no state behind `nextstate`, and
/// `NoLabel` at the name of no label behind `join`.
pub fn resolve_terminator<'t>(
    context: &Context<'_, '_, 't>,
    terminator: &'t Terminator,
    faults: &mut Faults<'t>,
) -> Option<Statement>
    ensures terminator { option_and_then terminator_of result
        ≡ terminator_in (context_of context.now) (terminator_value terminator.now) }
    ensures noted { Notes faults.old faults.new
        (terminator_faults (context_of context.now) (terminator_value terminator.now)) }
{
    match terminator {
        Terminator::NextState {
            state: NextState::Same(_),
            ..
        } => Some(Statement::SameState),
        Terminator::NextState {
            state: NextState::Named(name),
            ..
        } => { resolve_state(context, name, faults) }
        Terminator::Stop { .. } => Some(Statement::Stop),
        Terminator::Join { label, .. } => resolve_join(context, label, faults),
    }
}

fn resolve_state<'t>(
    context: &Context<'_, '_, 't>,
    name: &'t Name,
    faults: &mut Faults<'t>,
) -> Option<Statement>
    ensures terminator { option_and_then terminator_of result
        ≡ option_map to_state (state_in (context_of context.now) (name_value name.now).text) }
    ensures noted { Notes faults.old faults.new
        (fault_if (is_none (state_in (context_of context.now) (name_value name.now).text)) NoState
        (name_value name.now)) }
{
    match context.states.get(&name.text) {
        Some(state) => Some(Statement::NextState(state)),
        None => {
            faults.note(Rule::NoState, Token::of_name(name));
            None
        }
    }
}

fn resolve_join<'t>(
    context: &Context<'_, '_, 't>,
    name: &'t Name,
    faults: &mut Faults<'t>,
) -> Option<Statement>
    ensures terminator { option_and_then terminator_of result
        ≡ option_map join (label_in (context_of context.now) (name_value name.now).text) }
    ensures noted { Notes faults.old faults.new
        (fault_if (is_none (label_in (context_of context.now) (name_value name.now).text)) NoLabel
        (name_value name.now)) }
{
    match context.labels.get(&name.text) {
        Some(label) => Some(Statement::Join(label)),
        None => {
            faults.note(Rule::NoLabel, Token::of_name(name));
            None
        }
    }
}
