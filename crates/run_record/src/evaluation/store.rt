//! What an instance knows.

ghost use Rattle.std.specs.Prelude.{◌≡◌, IfSome, Ok};
ghost use Rattle.port_model.specs.Port.{PortState};
ghost use Rattle.port_model.specs.declared.values.value.Value.TheVariants.{Int};
ghost use Rattle.run_record.specs.Environment.{environment, initial_store};
ghost use Rattle.run_record.specs.Value.{value_of};
ghost use Rattle.run_record.specs.Variables.{integer_in, known_in};
ghost use Rattle.run_record.specs.declared.evaluation.identity.Identity as identity;
ghost use Rattle.sdl_system.specs.System.{SystemValue};
ghost use Rattle.sdl_system.specs.Term.{term_of};

use crate::evaluation::variables::{Variables, integer_of};
use port_model::{Pid, Ticks, Value};
use sdl_system::Expression;

/// The store of an instance: all that it knows, except who it is and what its port has.
#[derive(Drop)]
pub struct Store {
    pub variables: Variables,
    /// The instance that it created last, or null.
    pub offspring: Pid,
    /// The sender of the latest consumed signal, or null.
    pub sender: Pid,
    /// The time of the latest transition.
    pub time: Ticks,
    /// The statements of the running transition so far.
    pub done: u32,
}

impl Store {
    /// The store of an instance before its start, with these variables. Takes no memory.
    pub fn new(variables: Variables) -> Self
        ensures { result ≡ initial_store variables }
    {
        Store {
            variables,
            offspring: Pid::Null,
            sender: Pid::Null,
            time: Ticks::new(0),
            done: 0,
        }
    }

    /// The number of an expression that is an integer literal, or a variable with an integer. None: it is another
    /// expression or has another value, or it is a variable that was never assigned or isn't there.
    #[inline(always)]
    pub fn integer(&self, expression: &Expression) -> Option<i64>
        ensures integer { result ≡ integer_in self.now.variables expression.now }
        ensures value { (system : SystemValue) (who : identity.Identity) (port : PortState)
            → IfSome result
            (λ number. value_of (environment system who self.now port) (term_of expression.now) ≡ Ok (Int number)) }
    {
        match expression {
            Expression::Variable(variable) => self.variables.integer(*variable),
            Expression::Value(value) => integer_of(*value),
            _ => None,
        }
    }

    /// The value of an expression that is a literal, or a variable with a value; most operands are. None: it is another
    /// expression, or a variable that was never assigned or isn't there.
    #[inline(always)]
    pub fn known(&self, expression: &Expression) -> Option<Value>
        ensures known { result ≡ known_in self.now.variables expression.now }
        ensures value { (system : SystemValue) (who : identity.Identity) (port : PortState)
            → IfSome result
            (λ value. value_of (environment system who self.now port) (term_of expression.now) ≡ Ok value) }
    {
        match expression {
            Expression::Value(value) => Some(*value),
            Expression::Variable(variable) => self.variables.get(*variable),
            _ => None,
        }
    }
}
