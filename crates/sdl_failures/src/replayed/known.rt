//! What an instance knew.

ghost use Rattle.std.specs.Prelude.{◌≡◌, ◌≤◌, false, true};
ghost use Rattle.port_model.specs.Port.{empty_port};
ghost use Rattle.run_record.specs.Environment.{initial_store};
ghost use Rattle.run_semantics.specs.Fails.{most_statements};
ghost use Rattle.run_semantics.specs.Leads.{Counts};

use port_model::Alone;
use run_record::{Identity, Knowledge, Store, Variables};
use sdl_system::System;
use std::alloc::Global;
use std::marker::Model;

/// The statements that a transition may have.
const MOST_STATEMENTS: u32 = 10_000;

/// What an instance knew: its store, and which of its timers were active.
#[derive(Drop)]
pub struct Known {
    pub(crate) store: Store,
    pub(crate) inbox: Alone,
}

impl Model for Known {
    ghost use Rattle.std.specs.Prelude.{◌≡◌, true};
    ghost use Rattle.sdl_failures.specs.Known.{KnownValue};

    ghost Value = { KnownValue };

    ghost view = { λ k. record { store = k.store; port = k.inbox.state } };

    ghost invariant = { λ k. k.inbox.state.alive ≡ true };
}

impl Known {
    /// What the instance of this number knows before its start, with these variables.
    pub fn new(alloc: Global, number: u32, variables: Variables) -> Self
        ensures { result ≡ record { store = initial_store variables; port = empty_port } }
    {
        Known {
            store: Store::new(variables),
            inbox: Alone::new(alloc, number),
        }
    }

    /// The store.
    pub fn store(&self) -> &Store
        ensures { result.now ≡ self.now.store }
    {
        &self.store
    }

    /// What an expression is evaluated by.
    pub fn knowledge<'a>(&'a self, system: &'a System, who: Identity) -> Knowledge<'a, Alone>
        ensures { result ≡ record {
          system = system.now;
          who = who;
          store = self.now.store;
          port = self.now.port;
        } }
    {
        Knowledge::new(system, who, &self.store, &self.inbox)
    }

    /// Counts one statement more. False: the transition has 10,000, and nothing changes.
    pub(crate) fn count(&mut self) -> bool
        ensures counts { result ≡ true → Counts self.old.store self.new.store }
        ensures full { result ≡ false → most_statements ≤ self.old.store.done }
        ensures same { result ≡ false → self.new ≡ self.old }
        ensures port { self.new.port ≡ self.old.port }
    {
        if self.store.done >= MOST_STATEMENTS {
            return false;
        }
        self.store.done += 1;
        true
    }

    /// Whether a transition has all the statements that it may have.
    pub(crate) fn is_full(&self) -> bool
        ensures { result ≡ true → most_statements ≤ self.now.store.done }
    {
        self.store.done >= MOST_STATEMENTS
    }
}
