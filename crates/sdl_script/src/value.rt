//! Values as they are spelled.

ghost use Rattle.std.specs.Prelude.{◌≡◌};
ghost use Rattle.sdl_system.specs.Sort.{as_natural};

use port_model::{Pid, Value};
use sdl_system::Sort;

/// A value as it is spelled. The sort of its place decides what it is there.
#[derive(Clone, Copy)]
pub enum SpelledValue {
    /// A number, None where 64 bits signed don't hold it.
    Number(Option<i64>),
    Truth(bool),
    Null,
    Env,
    /// The number of an instance, None where 32 bits don't hold it.
    Instance(Option<u32>),
}

impl SpelledValue {
    ghost use Rattle.std.specs.Prelude.{◌≡◌};
    ghost use Rattle.sdl_script.specs.Value.{number_in, pid_in, truth_in, value_at};

    /// The value at a place of this sort, if it fits.
    pub fn at(self, sort: Sort) -> Option<Value>
        ensures { result ≡ value_at sort self }
    {
        match sort {
            Sort::Boolean => self.truth().map(Value::Bool),
            Sort::Integer => self.number().map(Value::Int),
            Sort::Natural => natural(self.number()?),
            Sort::Pid => self.pid().map(Value::Pid),
            Sort::Time => self.number().map(Value::Time),
            Sort::Duration => self.number().map(Value::Duration),
        }
    }

    fn number(self) -> Option<i64>
        ensures { result ≡ number_in self }
    {
        match self {
            SpelledValue::Number(number) => number,
            _ => None,
        }
    }

    fn truth(self) -> Option<bool>
        ensures { result ≡ truth_in self }
    {
        match self {
            SpelledValue::Truth(truth) => Some(truth),
            _ => None,
        }
    }

    fn pid(self) -> Option<Pid>
        ensures { result ≡ pid_in self }
    {
        match self {
            SpelledValue::Null => Some(Pid::Null),
            SpelledValue::Env => Some(Pid::Env),
            SpelledValue::Instance(number) => number.map(Pid::Of),
            _ => None,
        }
    }
}

fn natural(number: i64) -> Option<Value>
    ensures { result ≡ as_natural number }
{
    if number < 0 {
        None
    } else {
        Some(Value::Int(number))
    }
}
