//! A statement in the tree of a text.

ghost use Rattle.std.specs.Prelude.{◌≡◌, true};
ghost use Rattle.sdl_failures.specs.Sites.{EndHasKind, HasKind};

use sdl_system::Statement;
use sdl_tree::{Action, NextState, Terminator};

/// A statement: an action, or what ends a transition.
#[derive(Clone, Copy)]
pub enum Site<'t> {
    Action(&'t Action),
    End(&'t Terminator),
}

impl Site<'_> {
    /// Whether it has the kind of a statement of the system, and so many parts as that.
    pub(crate) fn has_kind(self, statement: &Statement) -> bool
        ensures { result ≡ true → HasKind self.entry statement.now }
    {
        match (self, statement) {
            (Site::Action(Action::Task { assignments, .. }), Statement::Task(list)) => {
                assignments.len() == list.len()
            }
            (Site::Action(Action::Output { outputs, .. }), Statement::Output(output)) => {
                outputs.len() == output.signals.len()
            }
            (Site::Action(Action::Set { clauses, .. }), Statement::Set(list)) => {
                clauses.len() == list.len()
            }
            (Site::Action(Action::Decision { parts, .. }), Statement::Decision(asked)) => {
                parts.len() == asked.branches.len()
            }
            (Site::Action(Action::Reset { .. }), Statement::Reset(_)) => true,
            (Site::Action(Action::Create { .. }), Statement::Create(_)) => true,
            (Site::End(end), statement) => is_end(end, statement),
            _ => false,
        }
    }
}

fn is_end(end: &Terminator, statement: &Statement) -> bool
    ensures { result ≡ true → EndHasKind end.now statement.now }
{
    match (end, statement) {
        (
            Terminator::NextState {
                state: NextState::Same(_),
                ..
            },
            Statement::SameState,
        ) => true,
        (
            Terminator::NextState {
                state: NextState::Named(_),
                ..
            },
            Statement::NextState(_),
        ) => true,
        (Terminator::Stop { .. }, Statement::Stop) => true,
        (Terminator::Join { .. }, Statement::Join(_)) => true,
        _ => false,
    }
}
