//! The signals of the script that no instance took.

ghost use Rattle.std.specs.Prelude.{◌≡◌, ◌++◌, ◌∷◌, [], List, IfOk, OnOk, if◌then◌else◌, map};
ghost use Rattle.std.specs.List.{AllByRecursion};
ghost use Rattle.view_text.specs.Course.{IsAfter};
ghost use Rattle.view_text.specs.Lost.{arrival_at, arrival_of, is_taken, lost_fate, lost_of};
ghost use Rattle.view_text.specs.Sending.{SendingValue, line_sent, sending_value, sendings};
ghost use Rattle.view_text.specs.Takes.{AreLeft};
ghost use Rattle.view_text.specs.Walk.{StepValue, all_steps};
ghost use Rattle.view_timeline.specs.declared.moves.Link.TheVariants as is;
ghost use Rattle.view_timeline.specs.Moves.{IsPart};
ghost use Rattle.view_timeline.specs.Timeline.{AreBegun};

use crate::arrival::Arrival;
use crate::course::Course;
use crate::fate::{Fate, fate_of};
use crate::sending::Sending;
use crate::takes::Takes;
use run_record::Report;
use sdl_script::{Script, ScriptLine};
use sdl_system::{System, Target};
use std::alloc::{AllocError, Global};
use view_timeline::{Link, Timeline};

/// The signals of the script that no instance took in a timeline of the report, in the order of the script. Of one name
/// an instance takes first what comes first. If the run was cut, what it hadn't come to isn't sent.
pub fn lost_signals<'s>(
    alloc: Global,
    system: &System,
    script: &'s Script,
    report: &Report,
    told: &Timeline,
) -> Result<Vec<Sending<'s>>, AllocError>
    requires parts { AllByRecursion (IsPart report.now.records.items) told.now.moves.items }
    requires begun { AreBegun report.now.records.items told.now }
    ensures { IfOk result (λ lost. map sending_value lost.items
        ≡ lost_of system.now report.now told.now script.now.lines.items) }
{
    let sendings = sendings(alloc, system, &script.lines, report, told)?;
    let mut takes = Takes::new(alloc, report, told)?;
    let mut lost = Vec::new(alloc);
    for sending in &sendings {
        if !is_taken(&mut takes, sending)? {
            lost.push(*sending)?;
        }
    }
    Ok(lost)
}

/// What the environment sends by these lines, along a timeline.
fn sendings<'s, 't>(
    alloc: Global,
    system: &System,
    lines: &'s [ScriptLine],
    report: &'t Report,
    told: &'t Timeline,
) -> Result<Vec<Sending<'s>>, AllocError>
    requires parts { AllByRecursion (IsPart report.now.records.items) told.now.moves.items }
    requires begun { AreBegun report.now.records.items told.now }
    ensures { IfOk result (λ sent. map sending_value sent.items ≡ sendings system.now report.now []
        (all_steps report.now.records.items told.now) lines.now) }
{
    let mut course = Course::new(alloc, system, report, told)?;
    let mut sent = Vec::new(alloc);
    for line in lines {
        course.go_to(line.at)?;
        send(&mut sent, &course, system, report, line)?;
    }
    Ok(sent)
}

/// Adds what a line sends: its signal, if it has one and the environment comes to it.
fn send<'s>(
    sent: &mut Vec<Sending<'s>>,
    course: &Course<'_>,
    system: &System,
    report: &Report,
    line: &'s ScriptLine,
) -> Result<(), AllocError>
    ensures { (told left : List StepValue) → IsAfter system.now report.now.records.items told left course.now
        → OnOk result (map sending_value sent.new.items ≡ map sending_value sent.old.items
        ++ line_sent system.now report.now told left line.now) }
{
    let Some(signal) = &line.signal else {
        return Ok(());
    };
    if !course.sends(report.whole) {
        return Ok(());
    }
    sent.push(course.sending(system, line.at, signal))?;
    Ok(())
}

/// Whether it is taken, by the takes that are left; then one less is.
fn is_taken(takes: &mut Takes, sending: &Sending<'_>) -> Result<bool, AllocError>
    ensures taken { (steps : List StepValue) (earlier : List SendingValue) → AreLeft steps earlier takes.old
        → IfOk result (λ taken. taken ≡ is_taken steps earlier (sending_value sending.now)) }
    ensures left { (steps : List StepValue) (earlier : List SendingValue) → AreLeft steps earlier takes.old
        → OnOk result (AreLeft steps (earlier ++ sending_value sending.now ∷ []) takes.new) }
{
    match arrival_of(sending) {
        Some(arrival) => takes.take(arrival),
        None => Ok(false),
    }
}

/// As what it comes to an instance that lives, if it does.
fn arrival_of(sending: &Sending<'_>) -> Option<Arrival>
    ensures { result ≡ arrival_of (sending_value sending.now) }
{
    if sending.arrives {
        arrival_at(sending)
    } else {
        None
    }
}

fn arrival_at(sending: &Sending<'_>) -> Option<Arrival>
    ensures { result ≡ arrival_at sending.now.target sending.now.item.now.name }
{
    match sending.target {
        Target::Instance(number) => Some(Arrival {
            number,
            signal: sending.item.name,
        }),
        Target::Env | Target::Null | Target::Nobody => None,
    }
}

/// What became of a signal that nobody took. What reached nobody has no fate.
pub fn lost_fate(told: &Timeline, sending: &Sending<'_>) -> Option<Fate>
    ensures { result ≡ lost_fate told.now (sending_value sending.now) }
{
    match sending.target {
        Target::Instance(_) => fate_of(told, sending.target, link_of(sending)),
        Target::Env | Target::Null | Target::Nobody => None,
    }
}

/// The link that an output with its lot has.
fn link_of(sending: &Sending<'_>) -> Link
    ensures { result ≡ (if sending.now.arrives then is.Waits else is.Gone) }
{
    if sending.arrives {
        Link::Waits
    } else {
        Link::Gone
    }
}
