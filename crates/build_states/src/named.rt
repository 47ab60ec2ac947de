//! The signals that a state names.

ghost use Rattle.std.specs.Prelude.{◌≡◌, [], OnOk, option_map};
ghost use Rattle.build_states.specs.Listed.{response_value, rest_value};
ghost use Rattle.build_states.specs.States.{named_in, with_signal};

use crate::stimuli::Response;
use indexmap::IndexMap;
use port_model::SignalId;
use std::alloc::{AllocError, Global};
use std::marker::Model;

/// The responses to the signals that a state names. The first mention of a signal counts.
#[derive(Drop)]
pub struct Named<'m> {
    by_signal: IndexMap<SignalId, &'m Response>,
}

impl<'m> Model for Named<'m> {
    ghost use Rattle.std.specs.Prelude.{List, map};
    ghost use Rattle.port_model.specs.declared.values.item.SignalId.{SignalId};
    ghost use Rattle.build_states.specs.Listed.{named_value};
    ghost use Rattle.build_states.specs.Mentions as plain;

    ghost Value = { List (SignalId × plain.Response) };

    ghost view = { λ named. map named_value named.by_signal.entries };
}

impl<'m> Named<'m> {
    /// No signals.
    pub(crate) fn new(alloc: Global) -> Self
        ensures { result ≡ [] }
    {
        Named {
            by_signal: IndexMap::new(alloc),
        }
    }

    /// Gives the response to a signal, if the state names it.
    pub fn get(&self, signal: SignalId) -> Option<&'m Response>
        ensures { option_map rest_value result ≡ named_in self.now signal }
    {
        self.by_signal.get(&signal).copied()
    }

    /// Adds what is done with a signal, where it isn't named yet.
    pub(crate) fn add(&mut self, signal: SignalId, response: &'m Response) -> Result<(), AllocError>
        ensures { OnOk result (self.new ≡ with_signal self.old signal (response_value response.now)) }
    {
        if !self.by_signal.contains_key(&signal) {
            self.by_signal.insert(signal, response)?;
        }
        Ok(())
    }
}
