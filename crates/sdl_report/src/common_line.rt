//! The lines that a report has most of, put into bytes.

ghost use Rattle.std.specs.Prelude.{◌≡◌, ◌+◌, ◌≤◌, ◌++◌, codes, length, take, IfNone, IfSome};
ghost use Rattle.std.specs.Fmt.{decimal};
ghost use Rattle.port_model.specs.Text.{pid_text, value_text, values_text};
ghost use Rattle.run_record.specs.Entry.{event_of};
ghost use Rattle.sdl_report.specs.ReportText.{event_line, line, target_text};

use crate::put::{
    MOST_VALUES, put_byte, put_number, put_pid, put_target, put_text, put_value, put_values,
};
use crate::short_name::{ShortName, put_name};
use crate::short_names::ShortNames;
use port_model::{Pid, Value};
use run_record::{Entry, Record};
use sdl_system::Target;

/// So many bytes a common line has at most.
pub const LINE: usize = 256;

/// Puts the line of an event, an entry with its values, after the first `end` bytes, and says how many there are then.
/// None, with nothing put, if it's no common line: it has a long name or many values, or an instance has one or two such
/// lines in its life.
#[inline(always)]
pub fn put_event(
    bytes: &mut [u8],
    end: usize,
    entry: &Entry,
    values: &[Value],
    record: &Record,
    names: &ShortNames<'_>,
) -> Option<usize>
    requires { end + 256 ≤ length bytes.old }
    ensures put { IfSome result (λ next. take next bytes.new ≡ take end bytes.old
        ++ event_line names.now «record».now (event_of entry.now values.now)) }
    ensures short { IfSome result (λ next. next ≤ end + 256) }
    ensures none { IfNone result (bytes.new ≡ bytes.old) }
{
    if values.len() > MOST_VALUES {
        return None;
    }
    match entry {
        Entry::Consumed { at, got } => {
            let name = names.signal(got.name)?;
            let next = put_beginning(bytes, end, *at, " input ");
            Some(put_stimulus(bytes, next, name, values, got.origin.sender(record.pid())))
        }
        Entry::Prior { at, got } => {
            let name = names.signal(got.name)?;
            let next = put_beginning(bytes, end, *at, " priority ");
            Some(put_stimulus(bytes, next, name, values, got.origin.sender(record.pid())))
        }
        Entry::Discarded { at, got } => {
            let name = names.signal(got.name)?;
            let next = put_beginning(bytes, end, *at, " discard ");
            Some(put_stimulus(bytes, next, name, values, got.origin.sender(record.pid())))
        }
        Entry::Provided { at, number } => Some(put_provided(bytes, end, *at, *number)),
        Entry::Task { variable, value } => {
            let name = names.variable(record.process(), *variable)?;
            Some(put_task(bytes, end, name, value))
        }
        Entry::Output { signal, target, .. } => {
            let name = names.signal(*signal)?;
            Some(put_output(bytes, end, name, values, *target))
        }
        Entry::Set { timer, due } => {
            let name = names.signal(*timer)?;
            Some(put_set(bytes, end, name, values, *due))
        }
        Entry::Reset { timer } => {
            let name = names.signal(*timer)?;
            Some(put_reset(bytes, end, name, values))
        }
        Entry::NextState { state } => {
            let name = names.state(record.process(), *state)?;
            Some(put_next_state(bytes, end, name))
        }
        _ => None,
    }
}

/// Puts when a transition begins, and a word of up to ten bytes for how.
#[inline(always)]
fn put_beginning(bytes: &mut [u8], end: usize, at: u64, word: &str) -> usize
    requires word { length word.now ≤ 10 }
    requires room { end + 30 ≤ length bytes.old }
    ensures put { take result bytes.new ≡ take end bytes.old ++ (decimal at ++ word.now) }
    ensures short { result ≤ end + 30 }
{
    let next = put_number(bytes, end, at);
    put_text(bytes, next, word)
}

/// Puts `S from X`, and ends the line.
#[inline(always)]
fn put_stimulus(
    bytes: &mut [u8],
    end: usize,
    name: &ShortName,
    values: &[Value],
    sender: Pid,
) -> usize
    requires few { length values.now ≤ 4 }
    requires room { end + 152 ≤ length bytes.old }
    ensures put { take result bytes.new ≡ take end bytes.old
        ++ line (name.now ++ values_text values.now ++ codes " from " ++ pid_text sender) }
    ensures short { result ≤ end + 152 }
{
    let next = put_signal(bytes, end, name, values);
    let next = put_text(bytes, next, " from ");
    let next = put_pid(bytes, next, sender);
    put_byte(bytes, next, b'\n')
}

/// Puts a signal or a timer with its values.
#[inline(always)]
fn put_signal(bytes: &mut [u8], end: usize, name: &ShortName, values: &[Value]) -> usize
    requires few { length values.now ≤ 4 }
    requires room { end + 124 ≤ length bytes.old }
    ensures put { take result bytes.new ≡ take end bytes.old ++ (name.now ++ values_text values.now) }
    ensures short { result ≤ end + 124 }
{
    let next = put_name(bytes, end, name);
    put_values(bytes, next, values)
}

/// Puts the line of a continuous signal.
fn put_provided(bytes: &mut [u8], end: usize, at: u64, number: u32) -> usize
    requires { end + 51 ≤ length bytes.old }
    ensures put { take result bytes.new ≡ take end bytes.old
        ++ line (decimal at ++ codes " provided " ++ decimal number) }
    ensures short { result ≤ end + 51 }
{
    let next = put_beginning(bytes, end, at, " provided ");
    let next = put_number(bytes, next, number as u64);
    put_byte(bytes, next, b'\n')
}

/// Puts the line of a task.
#[inline(always)]
fn put_task(bytes: &mut [u8], end: usize, name: &ShortName, value: &Value) -> usize
    requires { end + 65 ≤ length bytes.old }
    ensures put { take result bytes.new ≡ take end bytes.old
        ++ line (codes "  task " ++ name.now ++ codes " := " ++ value_text value.now) }
    ensures short { result ≤ end + 65 }
{
    let next = put_text(bytes, end, "  task ");
    let next = put_name(bytes, next, name);
    let next = put_text(bytes, next, " := ");
    let next = put_value(bytes, next, value);
    put_byte(bytes, next, b'\n')
}

/// Puts the line of an output.
#[inline(always)]
fn put_output(
    bytes: &mut [u8],
    end: usize,
    name: &ShortName,
    values: &[Value],
    target: Target,
) -> usize
    requires few { length values.now ≤ 4 }
    requires room { end + 159 ≤ length bytes.old }
    ensures put { take result bytes.new ≡ take end bytes.old
        ++ line (codes "  output " ++ (name.now ++ values_text values.now) ++ codes " to " ++ target_text target) }
    ensures short { result ≤ end + 159 }
{
    let next = put_text(bytes, end, "  output ");
    let next = put_signal(bytes, next, name, values);
    let next = put_text(bytes, next, " to ");
    let next = put_target(bytes, next, target);
    put_byte(bytes, next, b'\n')
}

/// Puts the line of a set.
#[inline(always)]
fn put_set(bytes: &mut [u8], end: usize, name: &ShortName, values: &[Value], due: u64) -> usize
    requires few { length values.now ≤ 4 }
    requires room { end + 152 ≤ length bytes.old }
    ensures put { take result bytes.new ≡ take end bytes.old
        ++ line (codes "  set " ++ (name.now ++ values_text values.now) ++ codes " " ++ decimal due) }
    ensures short { result ≤ end + 152 }
{
    let next = put_text(bytes, end, "  set ");
    let next = put_signal(bytes, next, name, values);
    let next = put_byte(bytes, next, b' ');
    let next = put_number(bytes, next, due);
    put_byte(bytes, next, b'\n')
}

/// Puts the line of a reset.
#[inline(always)]
fn put_reset(bytes: &mut [u8], end: usize, name: &ShortName, values: &[Value]) -> usize
    requires few { length values.now ≤ 4 }
    requires room { end + 133 ≤ length bytes.old }
    ensures put { take result bytes.new ≡ take end bytes.old
        ++ line (codes "  reset " ++ (name.now ++ values_text values.now)) }
    ensures short { result ≤ end + 133 }
{
    let next = put_text(bytes, end, "  reset ");
    let next = put_signal(bytes, next, name, values);
    put_byte(bytes, next, b'\n')
}

/// Puts the line of the state that comes next.
#[inline(always)]
fn put_next_state(bytes: &mut [u8], end: usize, name: &ShortName) -> usize
    requires { end + 45 ≤ length bytes.old }
    ensures put { take result bytes.new ≡ take end bytes.old ++ line (codes "  nextstate " ++ name.now) }
    ensures short { result ≤ end + 45 }
{
    let next = put_text(bytes, end, "  nextstate ");
    let next = put_name(bytes, next, name);
    put_byte(bytes, next, b'\n')
}
