//! The values of the predefined sorts (Z.104).

ghost use Rattle.std.specs.Prelude.{Some};
ghost use Rattle.port_model.specs.Text.{value_text};

use crate::values::pid::Pid;
use std::fmt;

/// A value of one of the predefined sorts. Times and durations are in ticks.
#[derive(Clone, Copy, PartialEq, Eq, PartialOrd, Ord)]
pub enum Value {
    Int(i64),
    Bool(bool),
    Pid(Pid),
    Time(i64),
    Duration(i64),
}

impl fmt::Display for Value {
    ghost output = { λ value. Some (value_text value) };

    fn fmt<W: fmt::Write>(&self, f: &mut fmt::Formatter<W>) -> fmt::Result {
        match self {
            Value::Int(number) | Value::Time(number) | Value::Duration(number) => {
                write!(f, "{number}")
            }
            Value::Bool(truth) => write!(f, "{truth}"),
            Value::Pid(pid) => write!(f, "{pid}"),
        }
    }
}
