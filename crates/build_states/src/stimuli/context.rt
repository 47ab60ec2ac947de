//! What the stimuli of a process can name.

ghost use Rattle.std.specs.Prelude.{◌≡◌, option_map};
ghost use Rattle.build_states.specs.Context.{listed_members, members_of};

use build_definitions::SignalListId;
use build_expressions::Scope;
use build_names::Outward;
use port_model::SignalId;

/// The meanings of the names that the stimuli of a process can use.
#[derive(Clone, Copy)]
pub struct Context<'a, 's, 't> {
    /// Variables, formal parameters and synonyms; signals and timers.
    pub scope: Scope<'a, 's, 't>,
    pub lists: Outward<'a, 't, SignalListId>,
    /// The signals that each signal list stands for, also through lists within it, by its number.
    pub members: &'a [Vec<SignalId>],
}

impl<'a, 's, 't> Context<'a, 's, 't> {
    ghost use Rattle.build_states.specs.Context.{context_of, list_in, signals_listed};

    /// The signals for which the list of this name stands.
    pub(crate) fn list(&self, text: &str) -> Option<&'a [SignalId]>
        ensures { option_map signals_listed result ≡ list_in (context_of self.now) text.now }
    {
        match self.lists.get(text) {
            None => None,
            Some(list) => Some(members_at(self.members, list)),
        }
    }
}

/// The signals that the list of this number stands for.
fn members_at(members: &[Vec<SignalId>], list: SignalListId) -> &[SignalId]
    ensures { result.now ≡ members_of (listed_members members.now) list }
{
    match members.get(list.0 as usize) {
        None => &[],
        Some(own) => own,
    }
}
