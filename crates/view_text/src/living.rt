//! Who lives along a timeline.

ghost use Rattle.std.specs.Prelude.{◌≡◌, ◌≤◌, ◌-◌, ◌==◌, ◌&&◌, ◌||◌, ◌↔◌, ℕ, Bool, nat_eq, IfOk, IsTrue, OnOk, drop, false, if◌then◌else◌, length, option_copied, take, true};
ghost use Rattle.std.specs.List.{find};
ghost use Rattle.indexmap.specs.IndexSet.{contains};
ghost use Rattle.port_model.specs.Value.{ValueList};
ghost use Rattle.run_record.specs.Entry.{event_of};
ghost use Rattle.view_text.specs.Living.{AreLiving, IsLeast, IsMost, changed, living_in};
ghost use Rattle.view_text.specs.Numbered.{are_numbered, lesser, process_of};
ghost use Rattle.view_text.specs.Sending.{least_living, least_of, lives_of};
ghost use Rattle.view_timeline.specs.Did.{did};
ghost use Rattle.view_timeline.specs.Lives.{is_initial, is_null, lives_on};

use indexmap::IndexSet;
use port_model::Pid;
use run_record::{Entry, Record, Report};
use sdl_system::System;
use std::alloc::{AllocError, Global};

/// The numbers of those that live, and of each process the least one.
#[derive(Drop)]
pub struct Living<'t> {
    pub alloc: Global,
    pub records: &'t [Record],
    pub processes: usize,
    pub numbers: IndexSet<u32>,
    pub least: Vec<Option<u32>>,
    /// None of a greater number lives.
    pub most: u32,
    /// Whether the records are numbered from 1 on, as those of a run are. Then that of a number is found at once.
    pub is_numbered: bool,
}

impl<'t> Living<'t> {
    /// Those live with which the system begins.
    pub fn new(alloc: Global, system: &System, report: &'t Report) -> Result<Self, AllocError>
        ensures { IfOk result (AreLiving report.now.records.items (length system.now.processes)
            (is_initial report.now.records.items)) }
    {
        let records: &'t [Record] = &report.records;
        let processes = system.processes().len();
        let numbers = initial(alloc, records)?;
        let least = least_living(alloc, records, &numbers, processes)?;
        Ok(Living {
            alloc,
            records,
            processes,
            numbers,
            least,
            most: most_initial(records),
            is_numbered: are_numbered(records),
        })
    }

    /// Notes an event of the instance of this number.
    pub fn note(&mut self, own: u32, entry: &Entry) -> Result<(), AllocError>
        ensures records { self.new.records ≡ self.old.records }
        ensures processes { self.new.processes ≡ self.old.processes }
        ensures numbers { OnOk result ((values : ValueList) (number : ℕ) → living_in self.new number
            ≡ lives_on number (did own (event_of entry.now values)) (living_in self.old number)) }
        ensures least { IsLeast self.old → OnOk result (IsLeast self.new) }
    {
        match *entry {
            Entry::Create {
                pid: Some(number),
                ..
            } => self.begin(number),
            Entry::FailedAt { .. } | Entry::Stop | Entry::Failed { .. } => self.end(own),
            _ => Ok(()),
        }
    }

    /// One more lives.
    fn begin(&mut self, number: u32) -> Result<(), AllocError>
        ensures records { self.new.records ≡ self.old.records }
        ensures processes { self.new.processes ≡ self.old.processes }
        ensures numbers { OnOk result ((other : ℕ) → living_in self.new other
            ≡ (if number == other then true else living_in self.old other)) }
        ensures least { IsLeast self.old → OnOk result (IsLeast self.new) }
    {
        self.add(number)?;
        if self.is_numbered {
            self.lower(number);
            return Ok(());
        }
        self.refresh()
    }

    /// One lives no more.
    fn end(&mut self, number: u32) -> Result<(), AllocError>
        ensures records { self.new.records ≡ self.old.records }
        ensures processes { self.new.processes ≡ self.old.processes }
        ensures numbers { OnOk result ((other : ℕ) → living_in self.new other
            ≡ (if number == other then false else living_in self.old other)) }
        ensures least { IsLeast self.old → OnOk result (IsLeast self.new) }
    {
        self.remove(number);
        if self.is_numbered {
            self.raise(number);
            return Ok(());
        }
        self.refresh()
    }

    /// Notes that one lives.
    fn add(&mut self, number: u32) -> Result<(), AllocError>
        ensures rest { self.new ≡ record self.old { numbers = self.new.numbers; most = self.new.most } }
        ensures numbers { OnOk result ((other : ℕ) → living_in self.new other
            ≡ changed true number (living_in self.old) other) }
        ensures most { IsMost self.old.most (living_in self.old)
            → OnOk result (IsMost self.new.most (living_in self.new)) }
    {
        self.numbers.insert(number)?;
        self.most = greater(self.most, number);
        Ok(())
    }

    /// Notes that one lives no more.
    fn remove(&mut self, number: u32)
        ensures rest { self.new ≡ record self.old { numbers = self.new.numbers } }
        ensures numbers { (other : ℕ) → living_in self.new other
            ≡ changed false number (living_in self.old) other }
    {
        self.numbers.swap_remove(&number);
    }

    /// Finds the least numbers anew.
    fn refresh(&mut self) -> Result<(), AllocError>
        ensures rest { self.new ≡ record self.old { least = self.new.least } }
        ensures least { OnOk result (self.new.least.items
            ≡ least_living (living_in self.old) self.old.records.now self.old.processes) }
    {
        self.least = least_living(self.alloc, self.records, &self.numbers, self.processes)?;
        Ok(())
    }

    /// Puts the number of one that begins among the least ones: no other of them changes.
    fn lower(&mut self, number: u32)
        ensures rest { self.new ≡ record self.old { least = self.new.least } }
        ensures least { are_numbered 1 self.old.records.now ≡ true → (lives : ℕ → Bool)
            → self.old.least.items ≡ least_living lives self.old.records.now self.old.processes
            → self.new.least.items
            ≡ least_living (changed true number lives) self.old.records.now self.old.processes }
    {
        let Some(process) = process_of(self.records, number) else {
            return;
        };
        if process < self.least.len() {
            self.least[process] = lesser(self.least[process], number);
        }
    }

    /// Takes the number of one that has ended from the least ones: if it is the least of its process, the next one of
    /// those that live takes its place.
    fn raise(&mut self, number: u32)
        ensures rest { self.new ≡ record self.old { least = self.new.least } }
        ensures least { are_numbered 1 self.old.records.now ≡ true → (lives : ℕ → Bool)
            → self.old.least.items ≡ least_living lives self.old.records.now self.old.processes
            → living_in self.old ≡ changed false number lives → IsMost self.old.most (living_in self.old)
            → self.new.least.items
            ≡ least_living (changed false number lives) self.old.records.now self.old.processes }
    {
        let Some(process) = process_of(self.records, number) else {
            return;
        };
        if process < self.least.len() && is_number(self.least[process], number) {
            self.least[process] = next_of(self.records, &self.numbers, process, number, self.most);
        }
    }

    /// Whether the instance of this number lives.
    pub fn lives(&self, number: u32) -> bool
        ensures { result ≡ living_in self.now number }
    {
        self.numbers.contains(&number)
    }
}

/// The numbers of those with which the system begins.
fn initial(alloc: Global, records: &[Record]) -> Result<IndexSet<u32>, AllocError>
    ensures { IfOk result (λ numbers. (number : ℕ) → contains nat_eq numbers number
        ≡ is_initial records.now number) }
{
    let mut numbers = IndexSet::new(alloc);
    for record in records {
        admit(&mut numbers, record)?;
    }
    Ok(numbers)
}

/// The instance of a record lives, if it has no creator.
fn admit(numbers: &mut IndexSet<u32>, record: &Record) -> Result<(), AllocError>
    ensures { OnOk result ((number : ℕ) → contains nat_eq numbers.new number
        ≡ (contains nat_eq numbers.old number || ((«record».now.pid == number) && is_null «record».now.parent))) }
{
    match record.parent() {
        Pid::Null => {
            numbers.insert(record.pid())?;
            Ok(())
        }
        _ => Ok(()),
    }
}

/// No number of those with which the system begins is greater.
fn most_initial(records: &[Record]) -> u32
    ensures { IsMost result (is_initial records.now) }
{
    let mut most = 0;
    for record in records {
        if let Pid::Null = record.parent() {
            most = greater(most, record.pid());
        }
    }
    most
}

fn greater(one: u32, other: u32) -> u32
    ensures one { one ≤ result }
    ensures other { other ≤ result }
{
    if one < other { other } else { one }
}

/// Whether records are numbered from 1 on.
fn are_numbered(records: &[Record]) -> bool
    ensures { result ≡ are_numbered 1 records.now }
{
    let mut number: usize = 1;
    let mut rest = records;
    'rest: while let Some((record, more)) = rest.split_first() {
        if record.pid() as usize != number {
            return false;
        }
        number += 1;
        rest = more;
    }
    true
}

/// The process of the instance with this number, if the records are numbered.
fn process_of(records: &[Record], number: u32) -> Option<usize>
    ensures { are_numbered 1 records.now ≡ true → result ≡ process_of records.now number }
{
    if number == 0 {
        return None;
    }
    match records.get(number as usize - 1) {
        Some(record) => Some(record.process().0 as usize),
        None => None,
    }
}

fn lesser(least: Option<u32>, number: u32) -> Option<u32>
    ensures { result ≡ lesser least number }
{
    match least {
        Some(least) if least < number => Some(least),
        _ => Some(number),
    }
}

fn is_number(least: Option<u32>, number: u32) -> bool
    ensures { IsTrue result ↔ (least ≡ Some number) }
{
    match least {
        Some(least) => least == number,
        None => false,
    }
}

/// The least number of a living instance of a process among the records from one number on, up to another.
fn next_of(
    records: &[Record],
    numbers: &IndexSet<u32>,
    process: usize,
    number: u32,
    most: u32,
) -> Option<u32>
    ensures { result ≡ least_of (λ number. contains nat_eq numbers.now number)
        (take (most - number) (drop number records.now)) process }
{
    let from = (number as usize).min(records.len());
    let (_, after) = records.split_at(from);
    let count = (most.saturating_sub(number) as usize).min(after.len());
    let (between, _) = after.split_at(count);
    least_of(between, numbers, process)
}

/// The least number of a living instance of each process.
fn least_living(
    alloc: Global,
    records: &[Record],
    numbers: &IndexSet<u32>,
    processes: usize,
) -> Result<Vec<Option<u32>>, AllocError>
    ensures { IfOk result (λ least. least.items
        ≡ least_living (λ number. contains nat_eq numbers.now number) records.now processes) }
{
    let mut least = Vec::new(alloc);
    for process in 0..processes {
        least.push(least_of(records, numbers, process))?;
    }
    Ok(least)
}

/// The least number of a living instance of a process.
fn least_of(records: &[Record], numbers: &IndexSet<u32>, process: usize) -> Option<u32>
    ensures { result ≡ least_of (λ number. contains nat_eq numbers.now number) records.now process }
{
    match first_of(records, numbers, process) {
        Some(record) => Some(record.pid()),
        None => None,
    }
}

/// The first record of a living instance of a process.
fn first_of<'t>(
    records: &'t [Record],
    numbers: &IndexSet<u32>,
    process: usize,
) -> Option<&'t Record>
    ensures { option_copied result ≡ find (lives_of (λ number. contains nat_eq numbers.now number) process)
        records.now }
{
    records
        .iter()
        .find(|record| lives_of(record, numbers, process))
}

/// Whether a record is of an instance of the process that lives.
fn lives_of(record: &Record, numbers: &IndexSet<u32>, process: usize) -> bool
    ensures { result ≡ lives_of (λ number. contains nat_eq numbers.now number) process «record».now }
{
    record.process().0 as usize == process && numbers.contains(&record.pid())
}
