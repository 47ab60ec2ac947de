//! Names that asterisks leave out.

ghost use Rattle.std.specs.Prelude.{◌≡◌, ℕ, Bool, List, flat_map, map};
ghost use Rattle.build_names.specs.Faults.{Notes};
ghost use Rattle.build_states.specs.States.{except_faults, left_out_faults, unnamed_faults};
ghost use Rattle.build_states.specs.Tabled.{is_state};
ghost use Rattle.sdl_tree.specs.Views.{body_part_value, name_value, names_value, states_value};

use build_names::{Faults, Names, Rule, Token};
use sdl_system::StateId;
use sdl_tree::{BodyPart, Name, States};

/// Notes `NoState` at each name in `state *(..)` that is none of these states'.
pub fn note_left_out<'t>(states: &Names<'t, StateId>, body: &'t [BodyPart], faults: &mut Faults<'t>)
    ensures { Notes faults.old faults.new
        (flat_map (left_out_faults (is_state states.now)) (map body_part_value body.now)) }
{
    for part in body {
        note_part(states, part, faults);
    }
}

fn note_part<'t>(states: &Names<'t, StateId>, part: &'t BodyPart, faults: &mut Faults<'t>)
    ensures { Notes faults.old faults.new (left_out_faults (is_state states.now) (body_part_value part.now)) }
{
    if let BodyPart::State(part) = part {
        note_names(states, except(&part.states), faults);
    }
}

/// The names that an asterisk leaves out.
fn except(states: &States) -> &[Name]
    ensures { (is_state : List ℕ → Bool) → flat_map (unnamed_faults is_state) (names_value result.now)
        ≡ except_faults is_state (states_value states.now) }
{
    match states {
        States::Named(_) => &[],
        States::All { except, .. } => except,
    }
}

fn note_names<'t>(states: &Names<'t, StateId>, names: &'t [Name], faults: &mut Faults<'t>)
    ensures { Notes faults.old faults.new (flat_map (unnamed_faults (is_state states.now)) (names_value names.now)) }
{
    for name in names {
        note_name(states, name, faults);
    }
}

fn note_name<'t>(states: &Names<'t, StateId>, name: &'t Name, faults: &mut Faults<'t>)
    ensures { Notes faults.old faults.new (unnamed_faults (is_state states.now) (name_value name.now)) }
{
    if states.get(&name.text).is_none() {
        faults.note(Rule::NoState, Token::of_name(name));
    }
}
