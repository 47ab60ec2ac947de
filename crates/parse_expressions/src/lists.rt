//! Lists of anything that can be read.

ghost use Rattle.std.specs.Prelude.{map, option_map};
ghost use Rattle.parse_expressions.specs.Reader.{IsReader};
ghost use Rattle.parse_expressions.specs.Reading as spec;
ghost use Rattle.parse_expressions.specs.Reads.{Reads};

use crate::cursor::Cursor;
use crate::fault::Fault;
use sdl_tree::Mark;
use std::alloc::Global;

/// The production from which a value of type `P` is read, at a place of this type. It has no functions, so that it
/// stands in no cycle of calls: a list is given the function that reads its items. Each crate that reads values has a
/// type of places of its own.
pub trait Production<P> {
    ghost use Rattle.parse_expressions.specs.Reading.{Parser};

    ghost Node: { Type 0 };

    ghost value: { P → Node };

    ghost reads: { Self → Parser Node };
}

/// The production from which a value of type `P` is read, at a place of this type, if one begins there.
pub trait Perhaps<P> {
    ghost use Rattle.std.specs.Prelude.{Option};
    ghost use Rattle.parse_expressions.specs.Reading.{Parser};

    ghost Node: { Type 0 };

    ghost value: { P → Node };

    ghost reads: { Self → Parser (Option Node) };
}

/// `x {"," x}`
#[tactic(auto, unfolding(crate::specs::Reading::repeated_from), using(crate::proofs::TurnLemmas::turning))]
pub fn separated<
    P: Drop,
    A: Production<P> + Copy,
    F: Fn(Global, &mut Cursor<'_, '_>, A) -> Result<P, Fault>,
>(alloc: Global, cursor: &mut Cursor<'_, '_>, at: A, item: F) -> Result<Vec<P>, Fault>
    requires { IsReader A.value (A.reads at) at (F.pre item) (F.post item) }
    ensures { Reads (λ xs. map A.value xs.items) (spec.separated (A.reads at) cursor.old) result cursor.new }
{
    let mut found = Vec::new(alloc);
    found.push(item(alloc, cursor, at)?)?;
    for _turn in 0..cursor.left() {
        if !cursor.sees(Mark::Comma) {
            return Ok(found);
        }
        cursor.expect(Mark::Comma)?;
        found.push(item(alloc, cursor, at)?)?;
    }
    Ok(found)
}

/// `{x}`
#[tactic(auto, unfolding(crate::specs::Reading::repeated_from), using(crate::proofs::TurnLemmas::turning))]
pub fn repeated<
    P: Drop,
    A: Perhaps<P> + Copy,
    F: Fn(Global, &mut Cursor<'_, '_>, A) -> Result<Option<P>, Fault>,
>(alloc: Global, cursor: &mut Cursor<'_, '_>, at: A, item: F) -> Result<Vec<P>, Fault>
    requires { IsReader (option_map A.value) (A.reads at) at (F.pre item) (F.post item) }
    ensures { Reads (λ xs. map A.value xs.items) (spec.repeated (A.reads at) cursor.old) result cursor.new }
{
    let mut found = Vec::new(alloc);
    for _turn in 0..cursor.left() {
        match item(alloc, cursor, at)? {
            Some(next) => found.push(next)?,
            None => return Ok(found),
        }
    }
    Ok(found)
}

/// `"(" x {"," x} ")"`
pub fn enclosed<
    P: Drop,
    A: Production<P> + Copy,
    F: Fn(Global, &mut Cursor<'_, '_>, A) -> Result<P, Fault>,
>(alloc: Global, cursor: &mut Cursor<'_, '_>, at: A, item: F) -> Result<Vec<P>, Fault>
    requires { IsReader A.value (A.reads at) at (F.pre item) (F.post item) }
    ensures { Reads (λ xs. map A.value xs.items) (spec.enclosed (A.reads at) cursor.old) result cursor.new }
{
    cursor.expect(Mark::Open)?;
    let found = separated(alloc, cursor, at, item)?;
    cursor.expect(Mark::Close)?;
    Ok(found)
}

/// `["(" x {"," x} ")"]`
pub fn in_parentheses<
    P: Drop,
    A: Production<P> + Copy,
    F: Fn(Global, &mut Cursor<'_, '_>, A) -> Result<P, Fault>,
>(alloc: Global, cursor: &mut Cursor<'_, '_>, at: A, item: F) -> Result<Vec<P>, Fault>
    requires { IsReader A.value (A.reads at) at (F.pre item) (F.post item) }
    ensures { Reads (λ xs. map A.value xs.items) (spec.in_parentheses (A.reads at) cursor.old) result cursor.new }
{
    if !cursor.sees(Mark::Open) {
        return Ok(Vec::new(alloc));
    }
    enclosed(alloc, cursor, at, item)
}
