//! How often each part of a decision was passed.

ghost use Rattle.std.specs.Prelude.{◌≡◌, ◌==◌, ◌+◌, ◌<◌, ℕ, IfOk, IfSome, OnOk, if◌then◌else◌, replicate, slice_index, vec_len};
ghost use Rattle.view_coverage.specs.Marks.{IsMarkedRun, marks_of, once, passes, passes_in};

use crate::marks::entry::{mark_of, variable_in};
use crate::marks::same_run::is_marked_run;
use run_record::{Record, Report};
use sdl_system::{System, VariableId};
use std::alloc::{AllocError, Global};

/// How often each of so many parts of decisions was passed, by the report of a marked run. None if that isn't the
/// report of the run itself, except for the marks. The system is that without marks.
pub fn passes(
    alloc: Global,
    system: &System,
    plain: &Report,
    marked: &Report,
    parts: usize,
) -> Result<Option<Vec<u64>>, AllocError>
    ensures counts { IfOk result (λ found. IfSome found (λ counts. (part : ℕ) → part < parts →
        slice_index counts.items part ≡ passes_in system.now marked.now.records.items part)) }
    ensures size { IfOk result (λ found. IfSome found (λ counts. vec_len counts ≡ parts)) }
    ensures same { IfOk result (λ found. IfSome found (λ _. IsMarkedRun system.now plain.now marked.now)) }
{
    if is_marked_run(system, plain, marked) {
        Ok(Some(count_all(alloc, system, &marked.records, parts)?))
    } else {
        Ok(None)
    }
}

fn count_all(
    alloc: Global,
    system: &System,
    records: &[Record],
    parts: usize,
) -> Result<Vec<u64>, AllocError>
    ensures counts { IfOk result (λ counts. (part : ℕ) → part < parts →
        slice_index counts.items part ≡ passes_in system.now records.now part) }
    ensures size { IfOk result (λ counts. vec_len counts ≡ parts) }
{
    let mut counts = zeros(alloc, parts)?;
    for one in records {
        add_record(&mut counts, system, one)?;
    }
    Ok(counts)
}

fn zeros(alloc: Global, parts: usize) -> Result<Vec<u64>, AllocError>
    ensures { IfOk result (λ zeros. zeros.items ≡ replicate parts 0) }
{
    let mut zeros = Vec::new(alloc);
    for _part in 0..parts {
        zeros.push(0)?;
    }
    Ok(zeros)
}

/// Counts the marks of a record.
#[tactic(auto, using(crate::proofs::MarkLemmas::passes_some))]
fn add_record(counts: &mut Vec<u64>, system: &System, one: &Record) -> Result<(), AllocError>
    ensures added { OnOk result ((part : ℕ) → part < vec_len counts.old →
        slice_index counts.new.items part ≡ slice_index counts.old.items part + passes system.now one.now part) }
    ensures size { vec_len counts.new ≡ vec_len counts.old }
{
    match variable_in(system, one.process())? {
        None => Ok(()),
        Some(variable) => add_marks(counts, variable, one),
    }
}

/// Counts the marks on this variable.
fn add_marks(counts: &mut Vec<u64>, variable: VariableId, one: &Record) -> Result<(), AllocError>
    ensures added { OnOk result ((part : ℕ) → part < vec_len counts.old →
        slice_index counts.new.items part ≡ slice_index counts.old.items part
        + marks_of variable one.now.events part) }
    ensures size { vec_len counts.new ≡ vec_len counts.old }
{
    for told in one.reader() {
        add_mark(counts, mark_of(variable, told))?;
    }
    Ok(())
}

/// Counts a mark, if there is one.
fn add_mark(counts: &mut Vec<u64>, mark: Option<i64>) -> Result<(), AllocError>
    ensures added { OnOk result ((part : ℕ) → part < vec_len counts.old →
        slice_index counts.new.items part ≡ slice_index counts.old.items part + once mark part) }
    ensures size { vec_len counts.new ≡ vec_len counts.old }
{
    let Some(number) = mark else {
        return Ok(());
    };
    match usize::try_from(number) {
        Ok(part) => add_one(counts, part),
        Err(_) => Ok(()),
    }
}

fn add_one(counts: &mut Vec<u64>, part: usize) -> Result<(), AllocError>
    ensures added { OnOk result ((other : ℕ) → other < vec_len counts.old →
        slice_index counts.new.items other ≡ slice_index counts.old.items other + (if part == other then 1 else 0)) }
    ensures size { vec_len counts.new ≡ vec_len counts.old }
{
    if part < counts.len() {
        let times = next(counts[part])?;
        counts[part] = times;
    }
    Ok(())
}

/// One more. A record of so many marks that a count passes its type takes more memory than there is.
fn next(times: u64) -> Result<u64, AllocError>
    ensures { IfOk result (λ next. next ≡ times + 1) }
{
    times.checked_add(1).ok_or(AllocError)
}
