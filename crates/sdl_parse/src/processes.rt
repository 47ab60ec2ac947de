//! Processes and what they define for themselves.

ghost use Rattle.std.specs.Prelude.{◌≡◌, ◌≤◌, option_map};
ghost use Rattle.sdl_tree.specs.Views.{bound_value, counts_value, expr_value, local_value, process_value};
ghost use Rattle.sdl_parse.specs.Processes as spec;
ghost use Rattle.parse_expressions.specs.Parts.{sees_one};
ghost use Rattle.parse_expressions.specs.Reads.{Reads};

use crate::behaviour::place::Inside;
use crate::behaviour::states::{body_part, start};
use crate::declarations::{dcl, fpar};
use crate::place::Defining;
use crate::synonyms::synonym;
use crate::timers::timer;
use parse_expressions::expressions::expression;
use parse_expressions::parts::{closing, end};
use parse_expressions::signals::{signal, signal_list, signal_set};
use parse_expressions::{Cursor, Fault, Perhaps, PlacedWord, Word, repeated};
use sdl_tree::{Bound, Counts, Expression, LocalDefinition, Mark, ProcessDefinition};
use std::alloc::Global;

impl Perhaps<LocalDefinition> for Defining {
    ghost use Rattle.sdl_tree.specs.Tree as tree;
    ghost use Rattle.sdl_tree.specs.Views.{local_value};
    ghost use Rattle.sdl_parse.specs.Processes.{local_definition};

    ghost Node = { tree.LocalDefinition };

    ghost value = { local_value };

    ghost reads = { λ at. local_definition at.depth };
}

/// `process = "process" NAME [counts] end ["fpar" vars end] {pdef} start {state | connection} "endprocess" [NAME] end`
#[tactic(auto, unfolding(crate::specs::Processes::process))]
pub fn process(
    alloc: Global,
    cursor: &mut Cursor<'_, '_>,
    depth: usize,
) -> Result<ProcessDefinition, Fault>
    requires { depth ≤ 64 }
    ensures { Reads process_value (spec.process depth cursor.old) result cursor.new }
{
    let word = cursor.expect(Mark::Process)?;
    let name = cursor.name(alloc)?;
    let counts = counts(alloc, cursor, depth)?;
    end(cursor)?;
    let parameters = fpar(alloc, cursor)?;
    let definitions = repeated(alloc, cursor, Defining { depth }, local_definition)?;
    let start = start(alloc, cursor, depth)?;
    let body = repeated(alloc, cursor, Inside { depth }, body_part)?;
    closing(alloc, cursor, Mark::EndProcess, &name)?;
    Ok(ProcessDefinition {
        word,
        name,
        counts,
        parameters,
        definitions,
        start,
        body,
    })
}

/// `[counts]`, where `counts = "(" [expr] ["," [expr]] ")"`.
fn counts(alloc: Global, cursor: &mut Cursor<'_, '_>, depth: usize) -> Result<Option<Counts>, Fault>
    requires { depth ≤ 64 }
    ensures { Reads (option_map counts_value) (spec.counts depth cursor.old) result cursor.new }
{
    if !cursor.sees(Mark::Open) {
        return Ok(None);
    }
    let parenthesis = cursor.expect(Mark::Open)?;
    let initial = count(alloc, cursor, depth)?;
    let bound = bound(alloc, cursor, depth)?;
    cursor.expect(Mark::Close)?;
    Ok(Some(Counts {
        parenthesis,
        initial,
        bound,
    }))
}

/// `["," [expr]]`
fn bound(alloc: Global, cursor: &mut Cursor<'_, '_>, depth: usize) -> Result<Option<Bound>, Fault>
    requires { depth ≤ 64 }
    ensures { Reads (option_map bound_value) (spec.bound depth cursor.old) result cursor.new }
{
    if !cursor.sees(Mark::Comma) {
        return Ok(None);
    }
    cursor.expect(Mark::Comma)?;
    let maximum = count(alloc, cursor, depth)?;
    Ok(Some(Bound { maximum }))
}

/// `[expr]`
fn count(
    alloc: Global,
    cursor: &mut Cursor<'_, '_>,
    depth: usize,
) -> Result<Option<Expression>, Fault>
    requires { depth ≤ 64 }
    ensures { Reads (option_map expr_value) (spec.count depth cursor.old) result cursor.new }
{
    if !begins_expression(cursor) {
        return Ok(None);
    }
    Ok(Some(expression(alloc, cursor, depth)?))
}

/// Whether an expression can begin with what stands next.
#[tactic(auto, unfolding(crate::specs::Processes::begins_expression))]
fn begins_expression(cursor: &Cursor<'_, '_>) -> bool
    ensures { result ≡ spec.begins_expression cursor.now }
{
    let Some(PlacedWord { word, .. }) = cursor.front() else {
        return false;
    };
    match word {
        Word::Name(_) | Word::Number(..) => true,
        Word::Fixed(mark, _) => opens_expression(mark),
        _ => false,
    }
}

/// Whether an expression can begin with this mark.
fn opens_expression(mark: Mark) -> bool
    ensures { result ≡ spec.opens_expression mark }
{
    match mark {
        Mark::Open
        | Mark::Active
        | Mark::Minus
        | Mark::Not
        | Mark::True
        | Mark::False
        | Mark::Null
        | Mark::Now
        | Mark::SelfPid
        | Mark::Parent
        | Mark::Offspring
        | Mark::Sender => true,
        _ => false,
    }
}

/// `pdef = signal | signallist | synonym | "signalset" sigs end | "dcl" vars end | timer`, if one begins here.
#[tactic(auto, unfolding(crate::specs::Processes::local_definition))]
fn local_definition(
    alloc: Global,
    cursor: &mut Cursor<'_, '_>,
    at: Defining,
) -> Result<Option<LocalDefinition>, Fault>
    requires { at.depth ≤ 64 }
    ensures { Reads (option_map local_value) (spec.local_definition at.depth cursor.old) result cursor.new }
{
    if !begins_local(cursor) {
        return Ok(None);
    }
    Ok(Some(some_local(alloc, cursor, at.depth)?))
}

/// Whether what stands next begins a definition that a process makes for itself.
fn begins_local(cursor: &Cursor<'_, '_>) -> bool
    ensures { result ≡ sees_one spec.local_marks cursor.now }
{
    cursor.sees(Mark::Signal)
        || cursor.sees(Mark::SignalList)
        || cursor.sees(Mark::Synonym)
        || cursor.sees(Mark::SignalSet)
        || cursor.sees(Mark::Dcl)
        || cursor.sees(Mark::Timer)
}

/// `pdef`, where one begins.
fn some_local(
    alloc: Global,
    cursor: &mut Cursor<'_, '_>,
    depth: usize,
) -> Result<LocalDefinition, Fault>
    requires { depth ≤ 64 }
    ensures { Reads local_value (spec.some_local depth cursor.old) result cursor.new }
{
    if cursor.sees(Mark::Signal) {
        return Ok(LocalDefinition::Signals(signal(alloc, cursor)?));
    }
    if cursor.sees(Mark::SignalList) {
        return Ok(LocalDefinition::SignalList(signal_list(alloc, cursor)?));
    }
    if cursor.sees(Mark::Synonym) {
        return Ok(LocalDefinition::Synonyms(synonym(alloc, cursor, depth)?));
    }
    if cursor.sees(Mark::SignalSet) {
        return Ok(LocalDefinition::SignalSet(signal_set(alloc, cursor)?));
    }
    if cursor.sees(Mark::Dcl) {
        return Ok(LocalDefinition::Variables(dcl(alloc, cursor, depth)?));
    }
    Ok(LocalDefinition::Timers(timer(alloc, cursor, depth)?))
}
