//! What fails at a statement.

ghost use Rattle.std.specs.Prelude.{◌≡◌, ◌≢◌, ◌⊎◌, Ok, Err, IfErr, IfOk, map, option_copied, take, true};
ghost use Rattle.std.specs.Option.{option_map};
ghost use Rattle.run_record.specs.Environment.{sorts_of};
ghost use Rattle.run_record.specs.Knowledge.{environment_of};
ghost use Rattle.run_record.specs.Value.{values_at};
ghost use Rattle.run_semantics.specs.Fails.{due_by, later, named_by, parameters_of, ticks};
ghost use Rattle.sdl_system.specs.Table.{when_due, whither_of};
ghost use Rattle.sdl_system.specs.Term.{term_of};
ghost use Rattle.sdl_failures.specs.Fails.{AssignmentFails, CreationFails, DecisionFails, PartFails, SendingFails, SettingFails, TimerFails};
ghost use Rattle.sdl_failures.specs.Part.{HasPart};

use port_model::{Alone, Ticks};
use run_record::{Failure, Knowledge, evaluate, evaluate_all, evaluate_at, evaluate_key};
use sdl_interp::sort_of;
use sdl_system::{
    Assignment, Creation, Decision, Dest, Destination, Due, Output, Process, ProcessId, Sending,
    Setting, Sort, Statement, System, TimerUse, number_of, pid_of,
};
use std::alloc::{AllocError, Global};

/// Whether a part of a statement fails by this, which is no lack of memory.
pub fn part_fails(
    alloc: Global,
    process: &Process,
    knowledge: &Knowledge<'_, Alone>,
    statement: &Statement,
    part: usize,
    why: Failure,
) -> bool
    requires { why ≢ Failure.Memory }
    ensures { result ≡ true →
        PartFails knowledge.now.system process.now (environment_of knowledge.now) statement.now part why }
{
    match statement {
        Statement::Task(list) => task_fails(alloc, process, knowledge, list, part, why),
        Statement::Output(output) => output_fails(alloc, knowledge, output, part, why),
        Statement::Set(list) => set_fails(alloc, knowledge, list, part, why),
        Statement::Reset(list) => reset_fails(alloc, knowledge, list, part, why),
        Statement::Create(creation) => create_fails(alloc, knowledge, creation, part, why),
        Statement::Decision(asked) => question_fails(alloc, knowledge, asked, part, why),
        _ => false,
    }
}

/// Whether a failure is this one.
pub fn is_same(found: Failure, why: Failure) -> bool
    ensures { result ≡ true → found ≡ why }
{
    found == why
}

fn task_fails(
    alloc: Global,
    process: &Process,
    knowledge: &Knowledge<'_, Alone>,
    list: &[Assignment],
    part: usize,
    why: Failure,
) -> bool
    requires { why ≢ Failure.Memory }
    ensures { let here = environment_of knowledge.now in
        result ≡ true → HasPart list.now part (λ one. AssignmentFails process.now here one why) }
{
    match list.get(part) {
        Some(one) => assignment_fails(alloc, process, knowledge, one, why),
        None => false,
    }
}

fn assignment_fails(
    alloc: Global,
    process: &Process,
    knowledge: &Knowledge<'_, Alone>,
    one: &Assignment,
    why: Failure,
) -> bool
    requires { why ≢ Failure.Memory }
    ensures { result ≡ true → AssignmentFails process.now (environment_of knowledge.now) one.now why }
{
    match evaluate_at(alloc, &one.value, sort_of(process, one.variable), knowledge) {
        Ok(_) => false,
        Err(found) => is_same(found, why),
    }
}

fn output_fails(
    alloc: Global,
    knowledge: &Knowledge<'_, Alone>,
    output: &Output,
    part: usize,
    why: Failure,
) -> bool
    requires { why ≢ Failure.Memory }
    ensures { let here = environment_of knowledge.now in result ≡ true →
        HasPart output.now.signals.items part (λ one. SendingFails knowledge.now.system here output.now.to one why) }
{
    match output.signals.get(part) {
        Some(one) => sending_fails(alloc, knowledge, output.to.as_ref(), one, why),
        None => false,
    }
}

/// Whom the output names is evaluated first, and then the values.
fn sending_fails(
    alloc: Global,
    knowledge: &Knowledge<'_, Alone>,
    to: Option<&Destination>,
    one: &Sending,
    why: Failure,
) -> bool
    requires { why ≢ Failure.Memory }
    ensures { let here = environment_of knowledge.now in result ≡ true →
        SendingFails knowledge.now.system here (option_copied to.entry) one.now why }
{
    match named_by(alloc, to, knowledge) {
        Err(found) => is_same(found, why),
        Ok(_) => values_fail(alloc, knowledge, one, why),
    }
}

/// Whether the values of a signal fail by this.
fn values_fail(alloc: Global, knowledge: &Knowledge<'_, Alone>, one: &Sending, why: Failure) -> bool
    requires { why ≢ Failure.Memory }
    ensures { let here = environment_of knowledge.now in let terms = map term_of one.now.values.items in
        result ≡ true → values_at here (sorts_of knowledge.now.system one.now.signal) terms ≡ Err why }
{
    let sorts = knowledge.sorts_of(one.signal);
    match evaluate_all(alloc, &one.values, sorts, knowledge) {
        Ok(_) => false,
        Err(found) => is_same(found, why),
    }
}

/// Whom an output names.
fn named_by(
    alloc: Global,
    to: Option<&Destination>,
    knowledge: &Knowledge<'_, Alone>,
) -> Result<Dest, Failure>
    ensures ok { let whom = option_map whither_of (option_copied to.entry) in
        IfOk result (λ named. named_by (environment_of knowledge.now) whom ≡ Ok named) }
    ensures err { let whom = option_map whither_of (option_copied to.entry) in
        IfErr result (λ why. (why ≡ Failure.Memory) ⊎ (named_by (environment_of knowledge.now) whom ≡ Err why)) }
{
    match to {
        None => Ok(Dest::Path),
        Some(Destination::Process(process)) => Ok(Dest::Process(*process)),
        Some(Destination::Pid(expression)) => {
            let value = evaluate_at(alloc, expression, Some(Sort::Pid), knowledge)?;
            Ok(Dest::Pid(pid_of(value)))
        }
    }
}

fn set_fails(
    alloc: Global,
    knowledge: &Knowledge<'_, Alone>,
    list: &[Setting],
    part: usize,
    why: Failure,
) -> bool
    requires { why ≢ Failure.Memory }
    ensures { let here = environment_of knowledge.now in
        result ≡ true → HasPart list.now part (λ one. SettingFails here one why) }
{
    match list.get(part) {
        Some(one) => setting_fails(alloc, knowledge, one, why),
        None => false,
    }
}

/// When the timer is due is evaluated first, and then its values.
fn setting_fails(
    alloc: Global,
    knowledge: &Knowledge<'_, Alone>,
    one: &Setting,
    why: Failure,
) -> bool
    requires { why ≢ Failure.Memory }
    ensures { result ≡ true → SettingFails (environment_of knowledge.now) one.now why }
{
    match due_by(alloc, &one.due, knowledge) {
        Err(found) => is_same(found, why),
        Ok(_) => timer_fails(alloc, knowledge, &one.timer, why),
    }
}

/// When a timer is due.
fn due_by(alloc: Global, due: &Due, knowledge: &Knowledge<'_, Alone>) -> Result<Ticks, Failure>
    ensures ok { IfOk result (λ ticks. due_by (environment_of knowledge.now) (when_due due.now) ≡ Ok ticks) }
    ensures err { let here = environment_of knowledge.now in
        IfErr result (λ why. (why ≡ Failure.Memory) ⊎ (due_by here (when_due due.now) ≡ Err why)) }
{
    match due {
        Due::At(time) => {
            let value = evaluate_at(alloc, time, Some(Sort::Time), knowledge)?;
            Ok(ticks(number_of(value)))
        }
        Due::After(duration) => Ok(ticks(later(knowledge.store().time, *duration)?)),
    }
}

/// A time from the start on; a negative one counts as 0.
fn ticks(number: i64) -> Ticks
    ensures { result ≡ ticks number }
{
    Ticks::new(u64::try_from(number).unwrap_or(0))
}

/// A time so many ticks later, or earlier.
pub fn later(now: Ticks, duration: i64) -> Result<i64, Failure>
    ensures { result ≡ later now duration }
{
    let Ok(now) = i64::try_from(now.get()) else {
        return Err(Failure::Overflow);
    };
    now.checked_add(duration).ok_or(Failure::Overflow)
}

fn reset_fails(
    alloc: Global,
    knowledge: &Knowledge<'_, Alone>,
    list: &[TimerUse],
    part: usize,
    why: Failure,
) -> bool
    requires { why ≢ Failure.Memory }
    ensures { let here = environment_of knowledge.now in
        result ≡ true → HasPart list.now part (λ one. TimerFails here one why) }
{
    match list.get(part) {
        Some(one) => timer_fails(alloc, knowledge, one, why),
        None => false,
    }
}

fn timer_fails(
    alloc: Global,
    knowledge: &Knowledge<'_, Alone>,
    one: &TimerUse,
    why: Failure,
) -> bool
    requires { why ≢ Failure.Memory }
    ensures { result ≡ true → TimerFails (environment_of knowledge.now) one.now why }
{
    match evaluate_key(alloc, one.timer, &one.values, knowledge) {
        Ok(_) => false,
        Err(found) => is_same(found, why),
    }
}

fn create_fails(
    alloc: Global,
    knowledge: &Knowledge<'_, Alone>,
    creation: &Creation,
    part: usize,
    why: Failure,
) -> bool
    requires { why ≢ Failure.Memory }
    ensures { let here = environment_of knowledge.now in
        result ≡ true → (part ≡ 0) × CreationFails knowledge.now.system here creation.now why }
{
    part == 0 && creation_fails(alloc, knowledge, creation, why)
}

fn creation_fails(
    alloc: Global,
    knowledge: &Knowledge<'_, Alone>,
    creation: &Creation,
    why: Failure,
) -> bool
    requires { why ≢ Failure.Memory }
    ensures { let here = environment_of knowledge.now in
        result ≡ true → CreationFails knowledge.now.system here creation.now why }
{
    let Ok(sorts) = parameters_of(alloc, knowledge.system(), creation.process) else {
        return false;
    };
    match evaluate_all(alloc, &creation.values, &sorts, knowledge) {
        Ok(_) => false,
        Err(found) => is_same(found, why),
    }
}

/// The sorts of the parameters of a process.
pub fn parameters_of(
    alloc: Global,
    system: &System,
    process: ProcessId,
) -> Result<Vec<Sort>, AllocError>
    ensures { IfOk result (λ sorts. sorts.items ≡ parameters_of system.now process) }
{
    let Some(process) = system.process(process) else {
        return Ok(Vec::new(alloc));
    };
    sorts_in(alloc, process)
}

fn sorts_in(alloc: Global, process: &Process) -> Result<Vec<Sort>, AllocError>
    ensures { let first = take process.now.parameters process.now.variables.items in
        IfOk result (λ sorts. sorts.items ≡ map (λ one. one.sort) first) }
{
    let parameters = process.variables.iter().take(process.parameters as usize);
    parameters.map(|variable| variable.sort).collect(alloc)
}

fn question_fails(
    alloc: Global,
    knowledge: &Knowledge<'_, Alone>,
    asked: &Decision,
    part: usize,
    why: Failure,
) -> bool
    requires { why ≢ Failure.Memory }
    ensures { result ≡ true → (part ≡ 0) × DecisionFails (environment_of knowledge.now) asked.now why }
{
    part == 0 && decision_fails(alloc, knowledge, asked, why)
}

fn decision_fails(
    alloc: Global,
    knowledge: &Knowledge<'_, Alone>,
    asked: &Decision,
    why: Failure,
) -> bool
    requires { why ≢ Failure.Memory }
    ensures { result ≡ true → DecisionFails (environment_of knowledge.now) asked.now why }
{
    match evaluate(alloc, &asked.question, knowledge) {
        Ok(value) => why == Failure::NoAnswer && asked.way(value).is_none(),
        Err(found) => is_same(found, why),
    }
}
