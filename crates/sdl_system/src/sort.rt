//! The predefined sorts (Z.104), and values at places of them.

ghost use Rattle.std.specs.Prelude.{◌≡◌};
ghost use Rattle.sdl_system.specs.Sort.{as_sort, pid_of};

use crate::operation::{number_of, truth_of};
use port_model::{Pid, Value};

/// A sort of values. Natural values are the Integer values that aren't negative, and count as Integer in every
/// expression.
#[derive(Clone, Copy, PartialEq, Eq)]
pub enum Sort {
    Boolean,
    Integer,
    Natural,
    Pid,
    Time,
    Duration,
}

/// The value as one of this sort: a number takes the sort of its place, truths and Pids stay what they are. None
/// exactly for a negative number at a Natural place.
pub fn in_sort(value: Value, sort: Sort) -> Option<Value>
    ensures { result ≡ as_sort sort value }
{
    Some(match sort {
        Sort::Boolean => Value::Bool(truth_of(value)),
        Sort::Integer => Value::Int(number_of(value)),
        Sort::Natural => {
            let number = number_of(value);
            if number < 0 {
                return None;
            }
            Value::Int(number)
        }
        Sort::Pid => Value::Pid(pid_of(value)),
        Sort::Time => Value::Time(number_of(value)),
        Sort::Duration => Value::Duration(number_of(value)),
    })
}

/// The Pid of a value; null for what is no Pid.
pub fn pid_of(value: Value) -> Pid
    ensures { result ≡ pid_of value }
{
    match value {
        Value::Pid(pid) => pid,
        _ => Pid::Null,
    }
}
