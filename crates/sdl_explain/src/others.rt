//! Faults beside the one that is told: those that don't follow from it.

ghost use Rattle.std.specs.Prelude.{◌≡◌, ◌≤◌, ◌<◌, ◌+◌, ◌^◌, ◌++◌, [], ◌∷◌, All, IfOk, IsTrue, List, OnOk, false, length};
ghost use Rattle.explain_syntax.specs.Words.{is_same_place};
ghost use Rattle.sdl_build.specs.declared.error.BuildError.{BuildError};
ghost use Rattle.sdl_build.specs.declared.error.BuildError.TheVariants as error;
ghost use Rattle.sdl_explain.specs.Others.{AreLinesBeside, AreOtherLines, AreOthers, IsFaultBeside, IsFound, IsFoundPast, IsLineBeside, IsRightBeside, IsScriptBeside, TellsFirst, most_turns, unless_lacking};

use crate::refused::is_lack;
use crate::script::script_line;
use build_names::Rule;
use explain_syntax::{Rest, leave_out_line};
use sdl_build::{BuildError, build};
use sdl_lex::Place;
use sdl_parse::parse;
use sdl_script::{ScriptError, read_script};
use sdl_system::System;
use sdl_tree::Name;
use std::alloc::{AllocError, Global};

/// So many faults are told beside the first.
const MOST_TOLD: usize = 20;

/// So often a text is read again.
const MOST_TURNS: usize = 200;

/// So many bytes are read again, so that a long text doesn't take long.
const MOST_BYTES: usize = 16_777_216;

/// Other faults: the first ones, how many more were found, and whether nothing is wrong with what is left of the text.
#[derive(Drop)]
pub struct Others<F> {
    pub told: Vec<F>,
    pub more: usize,
    pub is_all: bool,
}

impl<F: Drop> Others<F> {
    fn none(alloc: Global) -> Others<F>
        ensures told { result.told.items ≡ [] }
        ensures more { result.more ≡ 0 }
        ensures is_all { result.is_all ≡ false }
    {
        Others {
            told: Vec::new(alloc),
            more: 0,
            is_all: false,
        }
    }

    /// One more was found. It is told if there is room.
    fn add(&mut self, fault: F) -> Result<(), AllocError>
        requires { self.old.more + 1 < 2 ^ 64 }
        ensures told { OnOk result ((all : List F) → TellsFirst F all self.old
            → TellsFirst F (all ++ fault ∷ []) self.new) }
        ensures is_all { self.new.is_all ≡ self.old.is_all }
    {
        if self.told.len() < MOST_TOLD {
            self.told.push(fault)?;
            return Ok(());
        }
        self.more += 1;
        Ok(())
    }
}

/// What is told of a specification.
enum Found {
    /// Nothing is wrong.
    Right,
    /// A rule is broken.
    Wrong { rule: Rule, word: Name },
    /// It is no specification.
    Nothing,
}

/// The other faults of a specification that is told to have this one. Each is found in the same text, in which what is
/// around the faults before it is left out. One at a name that may be missed then may come of that, and isn't told.
pub fn other_faults(
    alloc: Global,
    specification: &[u8],
    first: &BuildError,
) -> Result<Others<BuildError>, AllocError>
    ensures found { IfOk result (AreOthers specification.now first.now) }
    ensures told { IfOk result (λ others. All (IsFaultBeside specification.now) others.told.items) }
    ensures few { IfOk result (λ others. length others.told.items ≤ 20) }
    ensures all { IfOk result (λ others. IsTrue others.is_all → IsRightBeside specification.now) }
{
    let others = search_faults(alloc, specification, first)?;
    Ok(others)
}

/// Looks for other faults, one after the other.
fn search_faults(
    alloc: Global,
    specification: &[u8],
    first: &BuildError,
) -> Result<Others<BuildError>, AllocError>
    ensures { IfOk result (AreOthers specification.now first.now) }
{
    let mut others = Others::none(alloc);
    let mut rest = Rest::of(alloc, specification)?;
    let BuildError::Broken { word, .. } = first else {
        return Ok(others);
    };
    let mut place = word.place;
    for _turn in 0..turns_for(specification) {
        let found = found_past(alloc, &mut rest, place)?;
        match found {
            Found::Wrong { rule, word } => {
                if is_same(word.place, place) {
                    return Ok(others);
                }
                place = word.place;
                add_unless_lacking(&mut others, &rest, rule, word)?;
            }
            Found::Right => {
                others.is_all = true;
                return Ok(others);
            }
            Found::Nothing => return Ok(others),
        }
    }
    Ok(others)
}

/// Whether two places are the same.
fn is_same(one: Place, other: Place) -> bool
    ensures { result ≡ is_same_place one other }
{
    one.line == other.line && one.column == other.column
}

/// One more was found. It counts unless it is at a name that may be missed.
fn add_unless_lacking(
    others: &mut Others<BuildError>,
    rest: &Rest,
    rule: Rule,
    word: Name,
) -> Result<(), AllocError>
    requires { others.old.more + 1 < 2 ^ 64 }
    ensures told { OnOk result ((all : List BuildError) → TellsFirst BuildError all others.old
        → TellsFirst BuildError (all ++ unless_lacking rest.now (error.Broken rule word)) others.new) }
    ensures is_all { others.new.is_all ≡ others.old.is_all }
{
    if rest.lacks(word.text.as_str()) {
        return Ok(());
    }
    others.add(BuildError::Broken { rule, word })
}

/// What is told of the rest of a specification, once what is around this place is left out, too.
fn found_past(alloc: Global, rest: &mut Rest, place: Place) -> Result<Found, AllocError>
    ensures { IfOk result (IsFoundPast place rest.old rest.new) }
{
    let is_less = rest.leave_out(alloc, place)?;
    if is_less {
        let found = found_in(alloc, &rest.text)?;
        return Ok(found);
    }
    Ok(Found::Nothing)
}

/// What is told of a specification.
fn found_in(alloc: Global, text: &[u8]) -> Result<Found, AllocError>
    ensures { IfOk result (IsFound text.now) }
{
    let tree = match parse(alloc, text) {
        Ok(tree) => tree,
        Err(error) => {
            if is_lack(&error) {
                return Err(AllocError);
            }
            return Ok(Found::Nothing);
        }
    };
    match build(alloc, &tree) {
        Ok(_) => Ok(Found::Right),
        Err(BuildError::Broken { rule, word }) => Ok(Found::Wrong { rule, word }),
        Err(BuildError::Memory) => Err(AllocError),
    }
}

/// How often a text is read again: up to 200 times, and a long one less often.
fn turns_for(text: &[u8]) -> usize
    ensures turns { result ≡ most_turns text.now }
    ensures few { result ≤ 200 }
{
    (MOST_BYTES / text.len().max(1)).min(MOST_TURNS).max(1)
}

/// The other lines of a script that are refused beside this one. Each is found in the same script, in which the lines
/// before it that are refused are left out.
pub fn other_lines(
    alloc: Global,
    specification: &[u8],
    script: &[u8],
    first: ScriptError,
) -> Result<Others<ScriptError>, AllocError>
    ensures found { IfOk result (AreLinesBeside specification.now script.now first) }
    ensures told { IfOk result (λ others. All (IsLineBeside specification.now script.now) others.told.items) }
    ensures few { IfOk result (λ others. length others.told.items ≤ 20) }
    ensures all { IfOk result (λ others. IsTrue others.is_all → IsScriptBeside specification.now script.now) }
{
    let others = lines_beside(alloc, specification, script, first)?;
    Ok(others)
}

/// The other lines of a script, if the specification has a system.
fn lines_beside(
    alloc: Global,
    specification: &[u8],
    script: &[u8],
    first: ScriptError,
) -> Result<Others<ScriptError>, AllocError>
    ensures { IfOk result (AreLinesBeside specification.now script.now first) }
{
    let tree = match parse(alloc, specification) {
        Ok(tree) => tree,
        Err(error) => {
            if is_lack(&error) {
                return Err(AllocError);
            }
            return Ok(Others::none(alloc));
        }
    };
    match build(alloc, &tree) {
        Ok(system) => {
            let others = search_lines(alloc, &system, script, first)?;
            Ok(others)
        }
        Err(BuildError::Broken { .. }) => Ok(Others::none(alloc)),
        Err(BuildError::Memory) => Err(AllocError),
    }
}

/// Looks for other lines of a script for this system, one after the other.
fn search_lines(
    alloc: Global,
    system: &System,
    script: &[u8],
    first: ScriptError,
) -> Result<Others<ScriptError>, AllocError>
    ensures { IfOk result (AreOtherLines system.now script.now first) }
{
    let mut others = Others::none(alloc);
    let mut rest = Vec::from_slice(alloc, script)?;
    let mut last = first;
    for _turn in 0..turns_for(script) {
        let Some(number) = script_line(last) else {
            return Err(AllocError);
        };
        leave_out_line(&mut rest, number);
        match read_script(alloc, system, &rest) {
            Ok(_) => {
                others.is_all = true;
                return Ok(others);
            }
            Err(ScriptError::Memory) => return Err(AllocError),
            Err(fault) => {
                last = fault;
                others.add(fault)?;
            }
        }
    }
    Ok(others)
}
