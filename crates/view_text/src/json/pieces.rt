//! Keys and values.

ghost use Rattle.std.specs.Prelude.{◌≡◌, ◌++◌, codes, OnOk};
ghost use Rattle.std.specs.Fmt.{decimal};
ghost use Rattle.std.specs.String.{string_bytes};
ghost use Rattle.view_text.specs.JsonValue.{arrow_json, fate_json, key, number_json, pid_json, quoted, target_json, truth_json, value_json, values_json};

use crate::fate::Fate;
use port_model::{Pid, Value};
use sdl_report::{push_number, push_signed};
use sdl_system::Target;
use std::alloc::AllocError;
use view_timeline::Link;

/// Appends a text in quotes.
pub fn push_quoted(text: &mut String, word: &str) -> Result<(), AllocError>
    ensures { OnOk result (string_bytes text.new ≡ string_bytes text.old ++ quoted word.now) }
{
    text.push('"')?;
    text.push_str(word)?;
    text.push('"')
}

/// Appends a comma, a key and a colon.
pub fn push_key(text: &mut String, name: &str) -> Result<(), AllocError>
    ensures { OnOk result (string_bytes text.new ≡ string_bytes text.old ++ key name.now) }
{
    text.push(',')?;
    push_quoted(text, name)?;
    text.push(':')
}

/// Appends a key with a text.
pub fn push_text(text: &mut String, name: &str, word: &str) -> Result<(), AllocError>
    ensures { OnOk result (string_bytes text.new ≡ string_bytes text.old ++ key name.now ++ quoted word.now) }
{
    push_key(text, name)?;
    push_quoted(text, word)
}

/// Appends a key with a number.
pub fn push_count(text: &mut String, name: &str, number: u64) -> Result<(), AllocError>
    ensures { OnOk result (string_bytes text.new ≡ string_bytes text.old ++ key name.now ++ decimal number) }
{
    push_key(text, name)?;
    push_number(text, number)
}

/// Appends the number of an instance: `"#7"`.
pub fn push_instance(text: &mut String, number: u32) -> Result<(), AllocError>
    ensures { OnOk result (string_bytes text.new ≡ string_bytes text.old ++ number_json number) }
{
    text.push_str("\"#")?;
    push_number(text, number as u64)?;
    text.push('"')
}

/// Appends a Pid: `null`, `"env"` or `"#7"`.
pub fn push_pid(text: &mut String, pid: Pid) -> Result<(), AllocError>
    ensures { OnOk result (string_bytes text.new ≡ string_bytes text.old ++ pid_json pid) }
{
    match pid {
        Pid::Null => text.push_str("null"),
        Pid::Env => push_quoted(text, "env"),
        Pid::Of(number) => push_instance(text, number),
    }
}

/// Appends whom an output reached.
pub fn push_target(text: &mut String, target: Target) -> Result<(), AllocError>
    ensures { OnOk result (string_bytes text.new ≡ string_bytes text.old ++ target_json target) }
{
    match target {
        Target::Instance(number) => push_instance(text, number),
        Target::Env => push_quoted(text, "env"),
        Target::Null => text.push_str("null"),
        Target::Nobody => push_quoted(text, "nobody"),
    }
}

/// Appends a value.
pub fn push_value(text: &mut String, value: &Value) -> Result<(), AllocError>
    ensures { OnOk result (string_bytes text.new ≡ string_bytes text.old ++ value_json value.now) }
{
    match value {
        Value::Int(number) | Value::Time(number) | Value::Duration(number) => {
            push_signed(text, *number)
        }
        Value::Bool(truth) => push_truth(text, *truth),
        Value::Pid(pid) => push_pid(text, *pid),
    }
}

/// Appends a truth value.
pub fn push_truth(text: &mut String, truth: bool) -> Result<(), AllocError>
    ensures { OnOk result (string_bytes text.new ≡ string_bytes text.old ++ truth_json truth) }
{
    if truth {
        text.push_str("true")
    } else {
        text.push_str("false")
    }
}

/// Appends the key `values` with the values in their order.
pub fn push_values(text: &mut String, values: &[Value]) -> Result<(), AllocError>
    ensures { OnOk result (string_bytes text.new ≡ string_bytes text.old
        ++ key (codes "values") ++ values_json values.now) }
{
    push_key(text, "values")?;
    let Some((first, more)) = values.split_first() else {
        return text.push_str("[]");
    };
    text.push('[')?;
    push_value(text, first)?;
    for value in more {
        text.push(',')?;
        push_value(text, value)?;
    }
    text.push(']')
}

/// Appends the number of an arrow, from 1, or nothing.
pub fn push_arrow(text: &mut String, link: Link) -> Result<(), AllocError>
    ensures { OnOk result (string_bytes text.new ≡ string_bytes text.old ++ arrow_json link) }
{
    match link {
        Link::Arrow(arrow) => push_count(text, "arrow", arrow.0 as u64 + 1),
        Link::Plain | Link::Gone | Link::Waits => Ok(()),
    }
}

/// Appends what became of a signal that nobody took, or nothing.
pub fn push_fate(text: &mut String, fate: Option<Fate>) -> Result<(), AllocError>
    ensures { OnOk result (string_bytes text.new ≡ string_bytes text.old ++ fate_json fate) }
{
    match fate {
        None => Ok(()),
        Some(fate) => {
            push_key(text, fate.word())?;
            text.push_str("true")
        }
    }
}
