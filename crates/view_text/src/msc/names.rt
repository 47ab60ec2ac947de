//! The names of instances, messages and other things in Z.120.

ghost use Rattle.std.specs.Prelude.{◌≡◌, ◌++◌, ℕ, List, OnOk};
ghost use Rattle.std.specs.String.{string_bytes};
ghost use Rattle.view_text.specs.EventText.{ends_with_mark, gets_mark, instance_name, message_name, message_text, party_name, sender_name, word};

use crate::msc::keyword::is_keyword;
use port_model::{Pid, SignalId, Value};
use run_record::Report;
use sdl_report::{process_name, push_number, push_values, record_of, signal_name};
use sdl_system::{ProcessId, System};
use std::alloc::AllocError;
use view_timeline::{ArrowId, Link, Timeline};

/// What the text of an event needs: the system, the report with the records of all instances, and the timeline, which
/// knows who lives on.
#[derive(Clone, Copy)]
pub struct Cast<'r> {
    pub system: &'r System,
    pub report: &'r Report,
    pub told: &'r Timeline,
}

/// Appends a name as a word of Z.120: with a `_` after it, if it is a keyword there or ends with one.
pub fn push_word(text: &mut String, name: &str) -> Result<(), AllocError>
    ensures { OnOk result (string_bytes text.new ≡ string_bytes text.old ++ word name.now) }
{
    text.push_str(name)?;
    if gets_mark(name) {
        text.push('_')?;
    }
    Ok(())
}

/// Whether a name gets a `_` after it: a keyword, and what may be one with such a mark. So no two names become one.
fn gets_mark(name: &str) -> bool
    ensures mark { result ≡ gets_mark name.now }
    ensures apart { (other : List ℕ) → word other ≡ word name.now → other ≡ name.now }
{
    is_keyword(name) || ends_with_mark(name.as_bytes())
}

#[tactic(auto, using(crate::proofs::Words::last_says))]
fn ends_with_mark(name: &[u8]) -> bool
    ensures { result ≡ ends_with_mark name.now }
{
    match name.split_last() {
        Some((last, _)) => *last == b'_',
        None => false,
    }
}

/// Appends `Initiator_1`, the name of an instance.
pub fn push_instance_name(
    text: &mut String,
    system: &System,
    process: ProcessId,
    number: u32,
) -> Result<(), AllocError>
    ensures { OnOk result (string_bytes text.new ≡ string_bytes text.old
        ++ instance_name system.now process number) }
{
    text.push_str(process_name(system, process))?;
    text.push('_')?;
    push_number(text, number as u64)
}

/// Appends the name of the instance of this number.
pub fn push_party_name(text: &mut String, number: u32, cast: &Cast<'_>) -> Result<(), AllocError>
    ensures { OnOk result (string_bytes text.new ≡ string_bytes text.old
        ++ party_name cast.now.system.now cast.now.report.now.records.items number) }
{
    match record_of(&cast.report.records, number) {
        Some(record) => push_instance_name(text, cast.system, record.process(), number),
        None => {
            text.push_str("instance_")?;
            push_number(text, number as u64)
        }
    }
}

/// Appends who sent a signal.
pub fn push_sender_name(text: &mut String, sender: Pid, cast: &Cast<'_>) -> Result<(), AllocError>
    ensures { OnOk result (string_bytes text.new ≡ string_bytes text.old
        ++ sender_name cast.now.system.now cast.now.report.now.records.items sender) }
{
    match sender {
        Pid::Null => text.push_str("found"),
        Pid::Env => text.push_str("env"),
        Pid::Of(number) => push_party_name(text, number, cast),
    }
}

/// Appends `,m7`, the name of the message of an arrow.
fn push_message_name(text: &mut String, link: Link) -> Result<(), AllocError>
    ensures { OnOk result (string_bytes text.new ≡ string_bytes text.old ++ message_name link) }
{
    match link {
        Link::Arrow(ArrowId(arrow)) => {
            text.push_str(",m")?;
            push_number(text, arrow as u64 + 1)
        }
        Link::Plain | Link::Gone | Link::Waits => Ok(()),
    }
}

/// Appends a signal or a timer with its values.
pub fn push_message(
    text: &mut String,
    system: &System,
    signal: SignalId,
    link: Link,
    values: &[Value],
) -> Result<(), AllocError>
    ensures { OnOk result (string_bytes text.new ≡ string_bytes text.old
        ++ message_text system.now signal link values.now) }
{
    push_word(text, signal_name(system, signal))?;
    push_message_name(text, link)?;
    push_values(text, values)
}
