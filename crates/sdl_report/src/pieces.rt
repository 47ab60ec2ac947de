//! Numbers, Pids and values as pieces of a line. Most of a report's text is made of them, so they are appended as they
//! are, and not by way of a formatter.

ghost use Rattle.std.specs.Prelude.{◌≡◌, ◌<◌, ◌++◌, codes, OnOk};
ghost use Rattle.std.specs.Fmt.{decimal, signed_decimal};
ghost use Rattle.std.specs.String.{string_bytes};
ghost use Rattle.port_model.specs.Text.{pid_text, value_text};
ghost use Rattle.sdl_report.specs.ReportText.{target_text};

use itoa::Buffer;
use port_model::{Pid, Value};
use sdl_system::Target;
use std::alloc::AllocError;

/// Appends a number.
pub fn push_number(text: &mut String, number: u64) -> Result<(), AllocError>
    ensures { OnOk result (string_bytes text.new ≡ string_bytes text.old ++ decimal number) }
{
    // Most are short: the numbers of instances, and the times of a short run.
    if number < 1_000 {
        return push_short(text, number);
    }
    push_long(text, number)
}

#[inline(never)]
fn push_long(text: &mut String, number: u64) -> Result<(), AllocError>
    ensures { OnOk result (string_bytes text.new ≡ string_bytes text.old ++ decimal number) }
{
    let mut buffer = Buffer::new();
    text.push_str(buffer.format(number))
}

/// Appends a number of up to three digits.
#[tactic(auto, using(crate::proofs::PieceLemmas::decimal_parts))]
fn push_short(text: &mut String, number: u64) -> Result<(), AllocError>
    requires { number < 1000 }
    ensures { OnOk result (string_bytes text.new ≡ string_bytes text.old ++ decimal number) }
{
    if number < 10 {
        return push_digit(text, number);
    }
    push_tens(text, number / 10)?;
    push_digit(text, number % 10)
}

/// Appends a number of up to two digits.
#[tactic(auto, using(crate::proofs::PieceLemmas::decimal_parts))]
fn push_tens(text: &mut String, number: u64) -> Result<(), AllocError>
    requires { number < 100 }
    ensures { OnOk result (string_bytes text.new ≡ string_bytes text.old ++ decimal number) }
{
    if number < 10 {
        return push_digit(text, number);
    }
    push_digit(text, number / 10)?;
    push_digit(text, number % 10)
}

#[tactic(auto, using(std::proofs::lemmas::Fmt::decimal_digit))]
fn push_digit(text: &mut String, digit: u64) -> Result<(), AllocError>
    requires { digit < 10 }
    ensures { OnOk result (string_bytes text.new ≡ string_bytes text.old ++ decimal digit) }
{
    text.push((b'0' + digit as u8) as char)
}

/// Appends a number, with `-` before a negative one.
pub fn push_signed(text: &mut String, number: i64) -> Result<(), AllocError>
    ensures { OnOk result (string_bytes text.new ≡ string_bytes text.old ++ signed_decimal number) }
{
    let mut buffer = Buffer::new();
    text.push_str(buffer.format(number))
}

/// Appends the number of an instance: `#7`.
fn push_instance(text: &mut String, number: u32) -> Result<(), AllocError>
    ensures { OnOk result (string_bytes text.new ≡ string_bytes text.old ++ codes "#" ++ decimal number) }
{
    text.push('#')?;
    push_number(text, number as u64)
}

/// Appends a Pid: `null`, `env` or `#7`.
pub fn push_pid(text: &mut String, pid: Pid) -> Result<(), AllocError>
    ensures { OnOk result (string_bytes text.new ≡ string_bytes text.old ++ pid_text pid) }
{
    match pid {
        Pid::Null => text.push_str("null"),
        Pid::Env => text.push_str("env"),
        Pid::Of(number) => push_instance(text, number),
    }
}

/// Appends a value.
pub fn push_value(text: &mut String, value: &Value) -> Result<(), AllocError>
    ensures { OnOk result (string_bytes text.new ≡ string_bytes text.old ++ value_text value.now) }
{
    match value {
        Value::Int(number) | Value::Time(number) | Value::Duration(number) => {
            push_signed(text, *number)
        }
        Value::Bool(true) => text.push_str("true"),
        Value::Bool(false) => text.push_str("false"),
        Value::Pid(pid) => push_pid(text, *pid),
    }
}

/// Appends whom an output reached: `#7`, `env`, `null` or `nobody`.
pub fn push_target(text: &mut String, target: Target) -> Result<(), AllocError>
    ensures { OnOk result (string_bytes text.new ≡ string_bytes text.old ++ target_text target) }
{
    match target {
        Target::Instance(number) => push_instance(text, number),
        Target::Env => text.push_str("env"),
        Target::Null => text.push_str("null"),
        Target::Nobody => text.push_str("nobody"),
    }
}
