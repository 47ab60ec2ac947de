//! Synonyms.

ghost use Rattle.std.specs.Prelude.{◌≤◌};
ghost use Rattle.sdl_tree.specs.Views.{synonym_value, synonyms_value};
ghost use Rattle.sdl_parse.specs.Synonyms as spec;
ghost use Rattle.parse_expressions.specs.Reads.{Reads};

use crate::place::Defining;
use parse_expressions::expressions::expression;
use parse_expressions::parts::{end, sort};
use parse_expressions::place::At;
use parse_expressions::{Cursor, Fault, Production, separated};
use sdl_tree::{Mark, SynonymDefinition, SynonymDefinitions};
use std::alloc::Global;

impl Production<SynonymDefinition> for Defining {
    ghost use Rattle.sdl_tree.specs.Tree as tree;
    ghost use Rattle.sdl_tree.specs.Views.{synonym_value};
    ghost use Rattle.sdl_parse.specs.Synonyms.{synonym_name};

    ghost Node = { tree.SynonymDefinition };

    ghost value = { synonym_value };

    ghost reads = { λ at. synonym_name at.depth };
}

/// `synonym = "synonym" NAME NAME "=" expr {"," NAME NAME "=" expr} end`
#[tactic(auto, unfolding(crate::specs::Synonyms::synonym))]
pub fn synonym(
    alloc: Global,
    cursor: &mut Cursor<'_, '_>,
    depth: usize,
) -> Result<SynonymDefinitions, Fault>
    requires { depth ≤ 64 }
    ensures { Reads synonyms_value (spec.synonym depth cursor.old) result cursor.new }
{
    let word = cursor.expect(Mark::Synonym)?;
    let synonyms = separated(alloc, cursor, Defining { depth }, synonym_name)?;
    end(cursor)?;
    Ok(SynonymDefinitions { word, synonyms })
}

/// `NAME NAME "=" expr`
#[tactic(auto, unfolding(crate::specs::Synonyms::synonym_name))]
fn synonym_name(
    alloc: Global,
    cursor: &mut Cursor<'_, '_>,
    at: Defining,
) -> Result<SynonymDefinition, Fault>
    requires { at.depth ≤ 64 }
    ensures { Reads synonym_value (spec.synonym_name at.depth cursor.old) result cursor.new }
{
    let name = cursor.name(alloc)?;
    let sort = sort(alloc, cursor, At::OUTERMOST)?;
    cursor.expect(Mark::Equal)?;
    let value = expression(alloc, cursor, at.depth)?;
    Ok(SynonymDefinition { name, sort, value })
}
