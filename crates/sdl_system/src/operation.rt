//! The operations of the predefined sorts (Z.104), each with the sort of what it gives.

ghost use Rattle.std.specs.Prelude.{◌≡◌, int_div, int_rem};
ghost use Rattle.std.specs.Int.{int_rem_euclid};
ghost use Rattle.sdl_system.specs.Operation.{applied, applied_to_one, calculated, combined, compared, divided, number_in, number_of, truth_of, unsorted};

use port_model::Value;
use thiserror::Error;

/// The sorts of numbers. A Natural is an Integer here.
#[derive(Clone, Copy, PartialEq, Eq)]
pub enum NumberSort {
    Integer,
    Time,
    Duration,
}

/// An operation on two values.
#[derive(Clone, Copy, PartialEq, Eq)]
pub enum Operation {
    /// On two numbers: a number of this sort.
    Arithmetic(Arithmetic, NumberSort),
    /// On two values of one sort, numbers where it asks for their order.
    Comparison(Comparison),
    /// On two truths.
    Logic(Logic),
}

/// The operations on numbers.
#[derive(Clone, Copy, PartialEq, Eq)]
pub enum Arithmetic {
    Plus,
    Minus,
    Times,
    /// Truncates towards zero.
    Divide,
    /// Lies between 0 and the divisor's amount less one.
    Mod,
    /// Has the dividend's sign.
    Rem,
}

/// The questions about two values.
#[derive(Clone, Copy, PartialEq, Eq)]
pub enum Comparison {
    Equal,
    NotEqual,
    Less,
    LessOrEqual,
    Greater,
    GreaterOrEqual,
}

/// The operations on truths. Both operands are evaluated.
#[derive(Clone, Copy, PartialEq, Eq)]
pub enum Logic {
    Implies,
    Or,
    Xor,
    And,
}

/// An operation on one value.
#[derive(Clone, Copy, PartialEq, Eq)]
pub enum UnaryOperation {
    /// The number with the other sign, of this sort.
    Minus(NumberSort),
    Not,
}

/// Why an operation gives no value.
#[derive(Clone, Copy, Debug, PartialEq, Eq, Error)]
pub enum Failure {
    /// The number that it comes to is past 64 bits.
    #[error("the number is past 64 bits")]
    Overflow,
    /// `/`, `mod` or `rem` by zero.
    #[error("a division by zero")]
    ZeroDivisor,
}

impl Operation {
    /// Applies the operation to two values. Errors: `Overflow` exactly if the number is past 64 bits,
    /// `ZeroDivisor` exactly for `/`, `mod` and `rem` by zero.
    #[inline(always)]
    pub fn apply(self, left: Value, right: Value) -> Result<Value, Failure>
        ensures { result ≡ applied self left right }
    {
        match self {
            Operation::Arithmetic(arithmetic, sort) => {
                let number = calculate(arithmetic, number_of(left), number_of(right))?;
                Ok(sort.value(number))
            }
            Operation::Comparison(comparison) => Ok(Value::Bool(compare(comparison, left, right))),
            Operation::Logic(logic) => {
                Ok(Value::Bool(combine(logic, truth_of(left), truth_of(right))))
            }
        }
    }
}

impl UnaryOperation {
    /// Applies the operation to a value. Error: `Overflow` exactly for the least number with the other sign.
    #[inline(always)]
    pub fn apply(self, operand: Value) -> Result<Value, Failure>
        ensures { result ≡ applied_to_one self operand }
    {
        match self {
            UnaryOperation::Minus(sort) => {
                let number = number_of(operand).checked_neg().ok_or(Failure::Overflow)?;
                Ok(sort.value(number))
            }
            UnaryOperation::Not => Ok(Value::Bool(!truth_of(operand))),
        }
    }
}

impl NumberSort {
    /// A number as a value of this sort.
    pub fn value(self, number: i64) -> Value
        ensures { result ≡ number_in self number }
    {
        match self {
            NumberSort::Integer => Value::Int(number),
            NumberSort::Time => Value::Time(number),
            NumberSort::Duration => Value::Duration(number),
        }
    }
}

/// Whether two values stand so to one another. Numbers are the same where they count the same, whatever their sort.
#[inline(always)]
pub fn compare(comparison: Comparison, left: Value, right: Value) -> bool
    ensures { result ≡ compared comparison left right }
{
    match comparison {
        Comparison::Equal => unsorted(left) == unsorted(right),
        Comparison::NotEqual => unsorted(left) != unsorted(right),
        Comparison::Less => number_of(left) < number_of(right),
        Comparison::LessOrEqual => number_of(left) <= number_of(right),
        Comparison::Greater => number_of(left) > number_of(right),
        Comparison::GreaterOrEqual => number_of(left) >= number_of(right),
    }
}

/// The number of a value: of an Integer, a Time or a Duration, in ticks. What is no number has 0.
pub fn number_of(value: Value) -> i64
    ensures { result ≡ number_of value }
{
    match value {
        Value::Int(number) | Value::Time(number) | Value::Duration(number) => number,
        Value::Bool(_) | Value::Pid(_) => 0,
    }
}

/// The truth of a value. What is no truth is false.
pub fn truth_of(value: Value) -> bool
    ensures { result ≡ truth_of value }
{
    match value {
        Value::Bool(truth) => truth,
        _ => false,
    }
}

/// The value without the sort of its number.
fn unsorted(value: Value) -> Value
    ensures { result ≡ unsorted value }
{
    match value {
        Value::Int(number) | Value::Time(number) | Value::Duration(number) => Value::Int(number),
        other => other,
    }
}

#[inline(always)]
fn calculate(arithmetic: Arithmetic, left: i64, right: i64) -> Result<i64, Failure>
    ensures { result ≡ calculated arithmetic left right }
{
    match arithmetic {
        Arithmetic::Plus => left.checked_add(right).ok_or(Failure::Overflow),
        Arithmetic::Minus => left.checked_sub(right).ok_or(Failure::Overflow),
        Arithmetic::Times => left.checked_mul(right).ok_or(Failure::Overflow),
        Arithmetic::Divide => divide(left, right),
        Arithmetic::Mod => modulo(left, right),
        Arithmetic::Rem => remainder(left, right),
    }
}

#[inline(never)]
fn divide(left: i64, right: i64) -> Result<i64, Failure>
    ensures { result ≡ divided right (int_div left right) }
{
    if right == 0 {
        Err(Failure::ZeroDivisor)
    } else {
        left.checked_div(right).ok_or(Failure::Overflow)
    }
}

/// All numbers are multiples of -1, and the least one by -1 has no quotient.
#[inline(never)]
fn modulo(left: i64, right: i64) -> Result<i64, Failure>
    ensures { result ≡ divided right (int_rem_euclid left right) }
{
    match right {
        0 => Err(Failure::ZeroDivisor),
        -1 => Ok(0),
        _ => left.checked_rem_euclid(right).ok_or(Failure::Overflow),
    }
}

#[inline(never)]
fn remainder(left: i64, right: i64) -> Result<i64, Failure>
    ensures { result ≡ divided right (int_rem left right) }
{
    match right {
        0 => Err(Failure::ZeroDivisor),
        -1 => Ok(0),
        _ => left.checked_rem(right).ok_or(Failure::Overflow),
    }
}

fn combine(logic: Logic, left: bool, right: bool) -> bool
    ensures { result ≡ combined logic left right }
{
    match logic {
        Logic::Implies => !left || right,
        Logic::Or => left || right,
        Logic::Xor => left != right,
        Logic::And => left && right,
    }
}
