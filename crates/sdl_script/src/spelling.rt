//! The parts of a line of a script, as they are spelled.

ghost use Rattle.std.specs.Prelude.{◌≡◌, ◌≤◌, Some, None, length, IfErr, IfOk, MatchResult};
ghost use Rattle.sdl_script.specs.Reading as reading;
ghost use Rattle.sdl_script.specs.Spelled.{IsSyntaxFault, plain, plain_receiver, plain_whither, plain_signal};
ghost use Rattle.sdl_script.specs.Spelling.{IsNoSpelling, SpellsLine, SpellsSignal, SpellsValues, SpellsWhither, instance_number, is_to, latest_time, literal, negative, positive};

use crate::cursor::Cursor;
use crate::fault::Fault;
use crate::value::SpelledValue;
use port_model::Ticks;
use sdl_tree::is_reserved;
use std::alloc::Global;

/// The latest time of a script, in ticks.
pub const LATEST_TIME: u64 = 1_000_000_000_000_000;

/// A line that is no comment and not blank: `TIME [NAME [ "(" value {"," value} ")" ] [ "to" ("#" NUMBER | NAME) ]]`.
#[derive(Drop)]
pub struct Spelling<'a> {
    pub at: Ticks,
    pub signal: Option<SpelledSignal<'a>>,
}

/// The name of a signal, its values, and the receiver behind `to`, if one stands there.
#[derive(Drop)]
pub struct SpelledSignal<'a> {
    pub name: &'a str,
    pub values: Vec<SpelledValue>,
    pub to: Option<SpelledReceiver<'a>>,
}

/// A process by its name, or an instance by its number: None where 32 bits don't hold it.
#[derive(Clone, Copy)]
pub enum SpelledReceiver<'a> {
    Process(&'a str),
    Instance(Option<u32>),
}

impl<'a> Spelling<'a> {
    /// Takes a line apart. The fault is Syntax or Memory.
    pub fn read(alloc: Global, line: &'a [u8]) -> Result<Self, Fault>
        ensures ok { IfOk result (λ spelling. SpellsLine spelling.at (plain_signal spelling.signal) line.now) }
        ensures err { IfErr result (λ fault. IsSyntaxFault fault (IsNoSpelling line.now)) }
    {
        let mut cursor = Cursor::new(line);
        let at = read_time(&mut cursor)?;
        if cursor.is_at_end() {
            return Ok(Spelling { at, signal: None });
        }
        let signal = read_signal(alloc, &mut cursor)?;
        Ok(Spelling {
            at,
            signal: Some(signal),
        })
    }
}

fn read_time(cursor: &mut Cursor<'_>) -> Result<Ticks, Fault>
    ensures { MatchResult result
        (λ at. (reading.number cursor.old ≡ Some (at, cursor.new)) × (at ≤ latest_time))
        (λ fault. (fault ≡ Fault.Syntax) × reading.HasNoTime cursor.old) }
{
    match cursor.number() {
        Some(at) if at <= LATEST_TIME => Ok(Ticks::new(at)),
        _ => Err(Fault::Syntax),
    }
}

/// `NAME [ "(" value {"," value} ")" ] [ "to" ("#" NUMBER | NAME) ]`, up to the end of the line.
fn read_signal<'a>(alloc: Global, cursor: &mut Cursor<'a>) -> Result<SpelledSignal<'a>, Fault>
    ensures ok { IfOk result (λ signal. SpellsSignal (Some (plain signal)) cursor.old) }
    ensures err { IfErr result (λ fault. IsSyntaxFault fault (reading.IsNoSignal cursor.old)) }
{
    let name = read_name(cursor)?;
    let values = read_values(alloc, cursor)?;
    let to = read_whither(cursor)?;
    Ok(SpelledSignal { name, values, to })
}

fn read_name<'a>(cursor: &mut Cursor<'a>) -> Result<&'a str, Fault>
    ensures read { MatchResult result
        (λ name. reading.name cursor.old ≡ Some (name.now, cursor.new))
        (λ fault. (fault ≡ Fault.Syntax) × (reading.name cursor.old ≡ None)) }
{
    let word = cursor.word().ok_or(Fault::Syntax)?;
    if is_reserved(word.as_bytes()) {
        return Err(Fault::Syntax);
    }
    Ok(word)
}

/// `[ "(" value {"," value} ")" ]`.
fn read_values(alloc: Global, cursor: &mut Cursor<'_>) -> Result<Vec<SpelledValue>, Fault>
    ensures ok { IfOk result (λ values. SpellsValues values.items cursor.old cursor.new) }
    ensures only { IfOk result (λ _. reading.IsTail cursor.old cursor.new) }
    ensures err { IfErr result (λ fault. IsSyntaxFault fault (reading.IsNoTail cursor.old)) }
{
    let mut values = Vec::new(alloc);
    if !cursor.eat(b'(') {
        return Ok(values);
    }
    values.push(read_value(cursor)?)?;
    while cursor.eat(b',') {
        values.push(read_value(cursor)?)?;
    }
    if cursor.eat(b')') {
        Ok(values)
    } else {
        Err(Fault::Syntax)
    }
}

/// `["-"] NUMBER | "true" | "false" | "null" | "env" | "#" NUMBER`.
fn read_value(cursor: &mut Cursor<'_>) -> Result<SpelledValue, Fault>
    ensures read { MatchResult result
        (λ value. reading.value cursor.old ≡ Some (value, cursor.new))
        (λ fault. (fault ≡ Fault.Syntax) × (reading.value cursor.old ≡ None)) }
    ensures shorter { length cursor.new ≤ length cursor.old }
{
    if cursor.eat(b'#') {
        let number = cursor.number().ok_or(Fault::Syntax)?;
        return Ok(SpelledValue::Instance(instance_number(number)));
    }
    if cursor.eat(b'-') {
        let number = cursor.number().ok_or(Fault::Syntax)?;
        return Ok(negative(number));
    }
    if let Some(number) = cursor.number() {
        return Ok(positive(number));
    }
    let word = cursor.word().ok_or(Fault::Syntax)?;
    literal(word).ok_or(Fault::Syntax)
}

/// `[ "to" ("#" NUMBER | NAME) ]`, up to the end of the line.
fn read_whither<'a>(cursor: &mut Cursor<'a>) -> Result<Option<SpelledReceiver<'a>>, Fault>
    ensures ok { IfOk result (λ to. SpellsWhither (plain_whither to) cursor.old) }
    ensures err { IfErr result (λ fault. (fault ≡ Fault.Syntax) × reading.IsNoWhither cursor.old) }
{
    if cursor.is_at_end() {
        return Ok(None);
    }
    let Some(word) = cursor.word() else {
        return Err(Fault::Syntax);
    };
    if !is_to(word) {
        return Err(Fault::Syntax);
    }
    let receiver = read_receiver(cursor)?;
    if cursor.is_at_end() {
        Ok(Some(receiver))
    } else {
        Err(Fault::Syntax)
    }
}

/// `"#" NUMBER | NAME`.
fn read_receiver<'a>(cursor: &mut Cursor<'a>) -> Result<SpelledReceiver<'a>, Fault>
    ensures read { MatchResult result
        (λ receiver. reading.receiver cursor.old ≡ Some (plain_receiver receiver, cursor.new))
        (λ fault. (fault ≡ Fault.Syntax) × (reading.receiver cursor.old ≡ None)) }
{
    if cursor.eat(b'#') {
        let number = cursor.number().ok_or(Fault::Syntax)?;
        return Ok(SpelledReceiver::Instance(instance_number(number)));
    }
    let name = read_name(cursor)?;
    Ok(SpelledReceiver::Process(name))
}

/// A number past 32 bits is no instance's.
fn instance_number(number: u64) -> Option<u32>
    ensures { result ≡ instance_number number }
{
    u32::try_from(number).ok()
}

/// A number with a `-` before it. Past 64 bits signed it is no value.
fn negative(number: u64) -> SpelledValue
    ensures { result ≡ negative number }
{
    SpelledValue::Number(0i64.checked_sub_unsigned(number))
}

/// A number without a sign. Past 64 bits signed it is no value.
fn positive(number: u64) -> SpelledValue
    ensures { result ≡ positive number }
{
    SpelledValue::Number(i64::try_from(number).ok())
}

/// Reads a word that is a literal or `env`. None for any other word.
fn literal(word: &str) -> Option<SpelledValue>
    ensures { result ≡ literal word.now }
{
    match word {
        "true" | "True" | "TRUE" => Some(SpelledValue::Truth(true)),
        "false" | "False" | "FALSE" => Some(SpelledValue::Truth(false)),
        "null" | "Null" | "NULL" => Some(SpelledValue::Null),
        "env" | "ENV" => Some(SpelledValue::Env),
        _ => None,
    }
}

fn is_to(word: &str) -> bool
    ensures { result ≡ is_to word.now }
{
    matches!(word, "to" | "TO")
}
