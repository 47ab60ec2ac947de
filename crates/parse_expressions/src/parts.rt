//! The productions that stand in many others: names, sorts, ends, and the names of what ends.

ghost use Rattle.std.specs.Prelude.{map, string_bytes};
ghost use Rattle.sdl_tree.specs.Views.{name_value, sort_value};
ghost use Rattle.parse_expressions.specs.Parts as spec;
ghost use Rattle.parse_expressions.specs.Reading as reading;
ghost use Rattle.parse_expressions.specs.Reads.{Reads};

use crate::cursor::Cursor;
use crate::fault::{Fault, Wanted};
use crate::lists::{Production, in_parentheses, separated};
use crate::place::At;
use crate::word::{PlacedWord, Word};
use sdl_tree::{Mark, Name, SortName};
use std::alloc::Global;

impl Production<Name> for At {
    ghost use Rattle.sdl_tree.specs.Views.{name_value};
    ghost use Rattle.sdl_tree.specs.Words.{Spot};
    ghost use Rattle.parse_expressions.specs.Reading.{name};

    ghost Node = { Spot };

    ghost value = { name_value };

    ghost reads = { λ _. name };
}

impl Production<SortName> for At {
    ghost use Rattle.sdl_tree.specs.Views.{sort_value};
    ghost use Rattle.sdl_tree.specs.Words.{Spot};
    ghost use Rattle.parse_expressions.specs.Reading.{name};

    ghost Node = { Spot };

    ghost value = { sort_value };

    ghost reads = { λ _. name };
}

/// `end = ["comment" TEXT] ";"`
#[tactic(auto, unfolding(crate::specs::Parts::end))]
pub fn end(cursor: &mut Cursor<'_, '_>) -> Result<(), Fault>
    ensures { Reads (λ _. tt) (spec.end cursor.old) result cursor.new }
{
    if cursor.sees(Mark::Comment) {
        cursor.expect(Mark::Comment)?;
        cursor.text()?;
        cursor.expect(Mark::Semicolon)?;
        return Ok(());
    }
    cursor.expect(Mark::Semicolon)?;
    Ok(())
}

/// `[NAME]` behind a word such as `endprocess`: if a name stands there, it is that of what ends.
#[tactic(auto, unfolding(crate::specs::Parts::named))]
pub fn end_name(alloc: Global, cursor: &mut Cursor<'_, '_>, name: &Name) -> Result<(), Fault>
    ensures { Reads (λ _. tt) (spec.end_name (string_bytes name.now.text) cursor.old) result cursor.new }
{
    match cursor.front() {
        Some(
            PlacedWord {
                word: Word::Name(text),
                ..
            },
        ) => {
            if text == name.text.as_str() {
                cursor.pass();
                return Ok(());
            }
            let right = String::from_str(alloc, name.text.as_str())?;
            Err(Fault::Expected(Wanted::ThisName(right)))
        }
        _ => Ok(()),
    }
}

/// `MARK [NAME] end`, which closes what has this name.
#[tactic(auto, unfolding(crate::specs::Parts::closing))]
pub fn closing(
    alloc: Global,
    cursor: &mut Cursor<'_, '_>,
    mark: Mark,
    name: &Name,
) -> Result<(), Fault>
    ensures { Reads (λ _. tt) (spec.closing mark (string_bytes name.now.text) cursor.old) result cursor.new }
{
    cursor.expect(mark)?;
    end_name(alloc, cursor, name)?;
    end(cursor)
}

/// `NAME`
pub fn name(alloc: Global, cursor: &mut Cursor<'_, '_>, _at: At) -> Result<Name, Fault>
    ensures { Reads name_value (reading.name cursor.old) result cursor.new }
{
    cursor.name(alloc)
}

/// `NAME {"," NAME}`
pub fn names(alloc: Global, cursor: &mut Cursor<'_, '_>) -> Result<Vec<Name>, Fault>
    ensures { Reads (λ xs. map name_value xs.items) (reading.separated reading.name cursor.old) result cursor.new }
{
    separated(alloc, cursor, At::OUTERMOST, name)
}

/// The name of a sort.
pub fn sort(alloc: Global, cursor: &mut Cursor<'_, '_>, _at: At) -> Result<SortName, Fault>
    ensures { Reads sort_value (reading.name cursor.old) result cursor.new }
{
    let spelled = cursor.name(alloc)?;
    Ok(SortName { spelled })
}

/// `[sorts]`, where `sorts = "(" NAME {"," NAME} ")"`.
pub fn sorts(alloc: Global, cursor: &mut Cursor<'_, '_>) -> Result<Vec<SortName>, Fault>
    ensures { Reads (λ ss. map sort_value ss.items) (reading.in_parentheses reading.name cursor.old) result cursor.new }
{
    in_parentheses(alloc, cursor, At::OUTERMOST, sort)
}
