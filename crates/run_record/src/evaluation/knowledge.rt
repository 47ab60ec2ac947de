//! What an expression is evaluated by.

ghost use Rattle.std.specs.Prelude.{◌≡◌, IfSome, Ok, true};
ghost use Rattle.port_model.specs.Timers.{is_active};
ghost use Rattle.port_model.specs.declared.values.value.Value.TheVariants.{Int};
ghost use Rattle.run_record.specs.Environment.{sorts_of};
ghost use Rattle.run_record.specs.Knowledge.{environment_of};
ghost use Rattle.run_record.specs.Value.{pid_in, value_of};
ghost use Rattle.run_record.specs.Variables.{integer_in, known_in};
ghost use Rattle.sdl_system.specs.Term.{term_of};

use crate::evaluation::identity::Identity;
use crate::evaluation::sorts::sorts_of;
use crate::evaluation::store::Store;
use port_model::{Inbox, Pid, SignalId, TimerKey, Value};
use sdl_system::{Expression, PidExpression, Sort, System};
use std::marker::Model;

/// What an expression is evaluated by: the system, who the instance is, what it knows, and its port, which hasn't
/// stopped.
#[derive(Drop)]
pub struct Knowledge<'a, P: Inbox> {
    system: &'a System,
    who: Identity,
    store: &'a Store,
    inbox: &'a P,
}

impl<'a, P: Inbox> Model for Knowledge<'a, P> {
    ghost use Rattle.std.specs.Prelude.{◌≡◌, true};
    ghost use Rattle.run_record.specs.Knowledge.{KnowledgeValue};
    ghost use Rattle.sdl_system.specs.contracts.expression.Expression as expression;
    ghost use Rattle.std.specs.Coded.{codes};

    ghost Value = { KnowledgeValue };

    ghost coded = { Prim.hlevel (codes, expression.the_row.coded) };

    ghost view = { λ k. record {
      system = k.system.now;
      who = k.who;
      store = k.store.now;
      port = (P.owning k.inbox.now).state;
    } };

    ghost invariant = { λ k. (P.owning k.inbox.now).state.alive ≡ true };
}

impl<'a, P: Inbox> Knowledge<'a, P> {
    /// What an instance knows whose port hasn't stopped.
    #[inline(always)]
    pub fn new(system: &'a System, who: Identity, store: &'a Store, inbox: &'a P) -> Self
        requires { (P.owning inbox.now).state.alive ≡ true }
        ensures { result ≡ record {
          system = system.now;
          who = who;
          store = store.now;
          port = (P.owning inbox.now).state;
        } }
    {
        Knowledge {
            system,
            who,
            store,
            inbox,
        }
    }

    /// The value of an expression that is a literal, or a variable with a value; most operands are. None: it is another
    /// expression, or a variable that was never assigned or isn't there.
    #[inline(always)]
    pub fn known(&self, expression: &Expression) -> Option<Value>
        ensures known { result ≡ known_in self.now.store.variables expression.now }
        ensures value { IfSome result
            (λ value. value_of (environment_of self.now) (term_of expression.now) ≡ Ok value) }
    {
        self.store.known(expression)
    }

    /// The number of an expression that is an integer literal, or a variable with an integer. None: it is another
    /// expression or has another value, or it is a variable that was never assigned or isn't there.
    #[inline(always)]
    pub fn integer(&self, expression: &Expression) -> Option<i64>
        ensures integer { result ≡ integer_in self.now.store.variables expression.now }
        ensures value { IfSome result
            (λ number. value_of (environment_of self.now) (term_of expression.now) ≡ Ok (Int number)) }
    {
        self.store.integer(expression)
    }

    /// The system that is run.
    pub fn system(&self) -> &System
        ensures { result.now ≡ self.now.system }
    {
        self.system
    }

    /// What the instance knows, except who it is and what its port has.
    #[inline(always)]
    pub fn store(&self) -> &Store
        ensures { result.now ≡ self.now.store }
    {
        self.store
    }

    /// The sorts of the values that a signal or a timer takes, in their order. None where the system has no such
    /// signal.
    pub fn sorts_of(&self, signal: SignalId) -> &[Sort]
        ensures { result.now ≡ sorts_of self.now.system signal }
    {
        sorts_of(self.system, signal)
    }

    /// The Pid for which a word stands.
    pub fn pid_of(&self, word: PidExpression) -> Pid
        ensures { result ≡ pid_in (environment_of self.now) word }
    {
        match word {
            PidExpression::SelfPid => Pid::Of(self.who.pid),
            PidExpression::Parent => self.who.parent,
            PidExpression::Offspring => self.store.offspring,
            PidExpression::Sender => self.store.sender,
        }
    }

    /// Whether a timer is active.
    pub fn active(&self, key: &TimerKey) -> bool
        ensures { result ≡ is_active key.now self.now.port.timers }
    {
        self.inbox.active(key)
    }
}
