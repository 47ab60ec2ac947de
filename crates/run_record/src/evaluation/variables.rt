//! The variables of an instance.

ghost use Rattle.std.specs.Prelude.{◌≡◌, ◌↔◌, [], IsTrue, Some, length, option_and_then, slice_set};
ghost use Rattle.run_record.specs.Variables.{integer_of, value_in};

use port_model::Value;
use sdl_system::VariableId;
use std::marker::Model;

/// The variables of an instance, by number. None: never assigned.
#[derive(Drop)]
pub struct Variables {
    list: Vec<Option<Value>>,
}

impl Model for Variables {
    ghost use Rattle.run_record.specs.Variables.{VariableList};

    ghost Value = { VariableList };

    ghost view = { λ variables. variables.list.items };
}

impl Variables {
    /// The variables with these values, in the order of their numbers. Takes no memory.
    pub fn new(list: Vec<Option<Value>>) -> Self
        ensures { result ≡ list.items }
    {
        Variables { list }
    }

    /// The value of a variable. None where it was never assigned, or isn't there.
    #[inline(always)]
    pub fn get(&self, variable: VariableId) -> Option<Value>
        ensures { result ≡ value_in self.now variable }
    {
        self.list.get(variable.0 as usize).copied().unwrap_or(None)
    }

    /// The number of a variable that is an Integer. None where it is another value, was never assigned, or isn't there.
    #[inline(always)]
    pub fn integer(&self, variable: VariableId) -> Option<i64>
        ensures { result ≡ option_and_then integer_of (value_in self.now variable) }
    {
        match self.get(variable) {
            Some(value) => integer_of(value),
            None => None,
        }
    }

    /// Assigns a variable. Where it isn't there nothing changes.
    pub fn set(&mut self, variable: VariableId, value: Value)
        ensures { self.new ≡ slice_set self.old variable.0 (Some value) }
    {
        if let Some(place) = self.list.get_mut(variable.0 as usize) {
            *place = Some(value);
        }
    }

    /// How many variables there are.
    pub fn len(&self) -> usize
        ensures { result ≡ length self.now }
    {
        self.list.len()
    }

    /// Whether there are none.
    pub fn is_empty(&self) -> bool
        ensures { IsTrue result ↔ (self.now ≡ []) }
    {
        self.list.is_empty()
    }
}

/// The number of a value that is an Integer.
#[inline(always)]
pub fn integer_of(value: Value) -> Option<i64>
    ensures { result ≡ integer_of value }
{
    match value {
        Value::Int(number) => Some(number),
        _ => None,
    }
}
