//! Texts, numbers, Pids and values, put into bytes at a place.
//!
//! Each function puts what it is named for after the first `end` bytes, and says how many there are then. The bytes
//! after them may be any. A word of fixed length takes a store or two, and no call.

ghost use Rattle.std.specs.Prelude.{◌≡◌, ◌+◌, ◌<◌, ◌≤◌, ◌++◌, ◌∷◌, [], codes, length, take};
ghost use Rattle.std.specs.Fmt.{decimal, signed_decimal};
ghost use Rattle.port_model.specs.Text.{pid_text, value_text, values_text};
ghost use Rattle.sdl_report.specs.Digits.{three_digits};
ghost use Rattle.sdl_report.specs.ReportText.{target_text};

use itoa::Buffer;
use port_model::{Pid, Value};
use sdl_system::Target;

/// So many values at most may be put at once.
pub const MOST_VALUES: usize = 4;

/// Puts a byte.
#[inline(always)]
pub fn put_byte(bytes: &mut [u8], end: usize, byte: u8) -> usize
    requires { end < length bytes.old }
    ensures put { take result bytes.new ≡ take end bytes.old ++ byte ∷ [] }
    ensures ends { result ≡ end + 1 }
{
    bytes[end] = byte;
    end + 1
}

/// Puts a text.
#[inline(always)]
pub fn put_text(bytes: &mut [u8], end: usize, text: &str) -> usize
    requires { end + length text.now ≤ length bytes.old }
    ensures put { take result bytes.new ≡ take end bytes.old ++ text.now }
    ensures ends { result ≡ end + length text.now }
{
    let next = end + text.len();
    bytes[end..next].copy_from_slice(text.as_bytes());
    next
}

/// Puts a number.
#[inline(always)]
pub fn put_number(bytes: &mut [u8], end: usize, number: u64) -> usize
    requires { end + 20 ≤ length bytes.old }
    ensures put { take result bytes.new ≡ take end bytes.old ++ decimal number }
    ensures short { result ≤ end + 20 }
{
    if number < 10 {
        return put_digit(bytes, end, number);
    }
    put_digits(bytes, end, number)
}

/// Puts a number: three digits at a time if it has up to six.
#[inline(never)]
fn put_digits(bytes: &mut [u8], end: usize, number: u64) -> usize
    requires { end + 20 ≤ length bytes.old }
    ensures put { take result bytes.new ≡ take end bytes.old ++ decimal number }
    ensures short { result ≤ end + 20 }
{
    if number < 1_000 {
        return put_short(bytes, end, number);
    }
    if number < 1_000_000 {
        let next = put_short(bytes, end, number / 1_000);
        return put_three(bytes, next, number % 1_000);
    }
    let mut buffer = Buffer::new();
    put_text(bytes, end, buffer.format(number))
}

/// Puts a number of up to three digits.
#[inline(always)]
fn put_short(bytes: &mut [u8], end: usize, number: u64) -> usize
    requires few { number < 1000 }
    requires room { end + 3 ≤ length bytes.old }
    ensures put { take result bytes.new ≡ take end bytes.old ++ decimal number }
    ensures short { result ≤ end + 3 }
{
    if number >= 100 {
        return put_three(bytes, end, number);
    }
    if number >= 10 {
        let next = put_digit(bytes, end, number / 10);
        return put_digit(bytes, next, number % 10);
    }
    put_digit(bytes, end, number)
}

/// Puts a number of up to three digits as three digits.
#[inline(always)]
fn put_three(bytes: &mut [u8], end: usize, number: u64) -> usize
    requires few { number < 1000 }
    requires room { end + 3 ≤ length bytes.old }
    ensures put { take result bytes.new ≡ take end bytes.old ++ three_digits number }
    ensures ends { result ≡ end + 3 }
{
    let next = put_digit(bytes, end, number / 100);
    let next = put_digit(bytes, next, number / 10 % 10);
    put_digit(bytes, next, number % 10)
}

#[inline(always)]
#[tactic(auto, using(std::proofs::lemmas::Fmt::decimal_digit))]
fn put_digit(bytes: &mut [u8], end: usize, digit: u64) -> usize
    requires one { digit < 10 }
    requires room { end < length bytes.old }
    ensures put { take result bytes.new ≡ take end bytes.old ++ decimal digit }
    ensures ends { result ≡ end + 1 }
{
    put_byte(bytes, end, b'0' + digit as u8)
}

/// Puts a number, with `-` before a negative one.
#[inline(always)]
pub fn put_signed(bytes: &mut [u8], end: usize, number: i64) -> usize
    requires { end + 21 ≤ length bytes.old }
    ensures put { take result bytes.new ≡ take end bytes.old ++ signed_decimal number }
    ensures short { result ≤ end + 21 }
{
    if number >= 0 {
        return put_number(bytes, end, number as u64);
    }
    let next = put_byte(bytes, end, b'-');
    put_number(bytes, next, number.unsigned_abs())
}

/// Puts the number of an instance: `#7`.
#[inline(always)]
fn put_instance(bytes: &mut [u8], end: usize, number: u32) -> usize
    requires { end + 21 ≤ length bytes.old }
    ensures put { take result bytes.new ≡ take end bytes.old ++ codes "#" ++ decimal number }
    ensures short { result ≤ end + 21 }
{
    let next = put_byte(bytes, end, b'#');
    put_number(bytes, next, number as u64)
}

/// Puts a Pid: `null`, `env` or `#7`.
#[inline(always)]
pub fn put_pid(bytes: &mut [u8], end: usize, pid: Pid) -> usize
    requires { end + 21 ≤ length bytes.old }
    ensures put { take result bytes.new ≡ take end bytes.old ++ pid_text pid }
    ensures short { result ≤ end + 21 }
{
    match pid {
        Pid::Null => put_text(bytes, end, "null"),
        Pid::Env => put_text(bytes, end, "env"),
        Pid::Of(number) => put_instance(bytes, end, number),
    }
}

/// Puts whom an output reached: `#7`, `env`, `null` or `nobody`.
#[inline(always)]
pub fn put_target(bytes: &mut [u8], end: usize, target: Target) -> usize
    requires { end + 21 ≤ length bytes.old }
    ensures put { take result bytes.new ≡ take end bytes.old ++ target_text target }
    ensures short { result ≤ end + 21 }
{
    match target {
        Target::Instance(number) => put_instance(bytes, end, number),
        Target::Env => put_text(bytes, end, "env"),
        Target::Null => put_text(bytes, end, "null"),
        Target::Nobody => put_text(bytes, end, "nobody"),
    }
}

/// Puts a value.
#[inline(always)]
pub fn put_value(bytes: &mut [u8], end: usize, value: &Value) -> usize
    requires { end + 21 ≤ length bytes.old }
    ensures put { take result bytes.new ≡ take end bytes.old ++ value_text value.now }
    ensures short { result ≤ end + 21 }
{
    match value {
        Value::Int(number) | Value::Time(number) | Value::Duration(number) => {
            put_signed(bytes, end, *number)
        }
        Value::Bool(true) => put_text(bytes, end, "true"),
        Value::Bool(false) => put_text(bytes, end, "false"),
        Value::Pid(pid) => put_pid(bytes, end, *pid),
    }
}

/// Puts a few values in parentheses, or nothing if there are none.
#[inline(always)]
pub fn put_values(bytes: &mut [u8], end: usize, values: &[Value]) -> usize
    requires few { length values.now ≤ 4 }
    requires room { end + 92 ≤ length bytes.old }
    ensures put { take result bytes.new ≡ take end bytes.old ++ values_text values.now }
    ensures short { result ≤ end + 92 }
{
    let Some((first, more)) = values.split_first() else {
        return end;
    };
    let begun = put_byte(bytes, end, b'(');
    let mut next = put_value(bytes, begun, first);
    for value in more {
        let after = put_byte(bytes, next, b',');
        next = put_value(bytes, after, value);
    }
    put_byte(bytes, next, b')')
}
