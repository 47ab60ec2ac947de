//! What a stimulus says of the signals that it names.

ghost use Rattle.std.specs.Prelude.{◌≡◌};
ghost use Rattle.build_states.specs.Listed.{response_value};
ghost use Rattle.build_states.specs.Mentions.{received};

use crate::stimuli::subject::Subject;
use crate::stimuli::transition::TransitionId;
use build_names::Token;
use sdl_system::{ConditionId, VariableId};

/// The response of a state to a signal. Conditions and transitions are named by their numbers in the process.
#[derive(Drop)]
pub enum Response {
    /// The signal begins a transition where its enabling condition is true, and waits where that is false.
    Input {
        variables: Vec<Option<VariableId>>,
        condition: Option<ConditionId>,
        begin: TransitionId,
    },
    /// The signal begins a transition, before those that are no priority inputs.
    Priority {
        variables: Vec<Option<VariableId>>,
        begin: TransitionId,
    },
    /// The signal waits.
    Save,
}

/// A word of a stimulus, with the signals of which it speaks there, and what is done with them.
#[derive(Drop)]
pub struct Mention<'t> {
    pub token: Token<'t>,
    pub subjects: Vec<Subject>,
    pub response: Response,
}

/// How the signals of an input begin its transition.
#[derive(Clone, Copy, PartialEq, Eq)]
pub enum Manner {
    /// Each in its turn, where the condition is true if there is one.
    Input(Option<ConditionId>),
    /// Before those that are no priority inputs.
    Priority,
}

impl Manner {
    /// Makes the response of an input of this manner that puts the values of its signal into these variables.
    pub(crate) fn received(
        self,
        begin: TransitionId,
        variables: Vec<Option<VariableId>>,
    ) -> Response
        ensures { response_value result ≡ received self begin variables.items }
    {
        match self {
            Manner::Input(condition) => Response::Input {
                variables,
                condition,
                begin,
            },
            Manner::Priority => Response::Priority { variables, begin },
        }
    }
}
