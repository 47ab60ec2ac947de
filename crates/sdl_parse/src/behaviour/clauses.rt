//! The action that sets timers.

ghost use Rattle.std.specs.Prelude.{◌≡◌, ◌+◌, ◌<◌, ◌≤◌};
ghost use Rattle.sdl_tree.specs.Views.{action_value, clause_value};
ghost use Rattle.sdl_parse.specs.Clauses as spec;
ghost use Rattle.parse_expressions.specs.Reads.{Reads};

use crate::behaviour::actions::applied;
use crate::behaviour::place::Inside;
use parse_expressions::expressions::expression;
use parse_expressions::parts::end;
use parse_expressions::{Cursor, Fault, Production, separated};
use sdl_tree::{Action, Mark, SetClause};
use std::alloc::Global;

impl Production<SetClause> for Inside {
    ghost use Rattle.sdl_tree.specs.Tree as tree;
    ghost use Rattle.sdl_tree.specs.Views.{clause_value};
    ghost use Rattle.sdl_parse.specs.Clauses.{clause};

    ghost Node = { tree.SetClause };

    ghost value = { clause_value };

    ghost reads = { λ at. clause at.depth };
}

/// `"set" clause {"," clause} end`
#[tactic(auto, unfolding(crate::specs::Clauses::set))]
pub fn set(alloc: Global, cursor: &mut Cursor<'_, '_>, depth: usize) -> Result<Action, Fault>
    requires { depth ≤ 64 }
    ensures { Reads action_value (spec.set depth cursor.old) result cursor.new }
{
    let word = cursor.expect(Mark::Set)?;
    let clauses = separated(alloc, cursor, Inside { depth }, clause)?;
    end(cursor)?;
    Ok(Action::Set { word, clauses })
}

/// `clause = "(" expr "," NAME [args] ")" | "(" NAME [args] ")"`: the first where a comma stands in the clause outside
/// inner parentheses.
#[tactic(auto, unfolding(crate::specs::Clauses::clause))]
fn clause(alloc: Global, cursor: &mut Cursor<'_, '_>, at: Inside) -> Result<SetClause, Fault>
    requires { at.depth ≤ 64 }
    ensures { Reads clause_value (spec.clause at.depth cursor.old) result cursor.new }
{
    cursor.expect(Mark::Open)?;
    if comma_ahead(cursor.again()) {
        return timed(alloc, cursor, at);
    }
    untimed(alloc, cursor, at)
}

/// `expr "," NAME [args] ")"`
#[tactic(auto, unfolding(crate::specs::Clauses::timed))]
fn timed(alloc: Global, cursor: &mut Cursor<'_, '_>, at: Inside) -> Result<SetClause, Fault>
    requires { at.depth ≤ 64 }
    ensures { Reads clause_value (spec.timed at.depth cursor.old) result cursor.new }
{
    let time = expression(alloc, cursor, at.depth)?;
    cursor.expect(Mark::Comma)?;
    let timer = applied(alloc, cursor, at)?;
    cursor.expect(Mark::Close)?;
    let time = Some(time);
    Ok(SetClause { time, timer })
}

/// `NAME [args] ")"`
#[tactic(auto, unfolding(crate::specs::Clauses::untimed))]
fn untimed(alloc: Global, cursor: &mut Cursor<'_, '_>, at: Inside) -> Result<SetClause, Fault>
    requires { at.depth ≤ 64 }
    ensures { Reads clause_value (spec.untimed at.depth cursor.old) result cursor.new }
{
    let timer = applied(alloc, cursor, at)?;
    cursor.expect(Mark::Close)?;
    let time = None;
    Ok(SetClause { time, timer })
}

/// Whether a comma stands ahead outside inner parentheses, in a clause whose parenthesis has just been passed. Each
/// clause is looked through once, and is then read to where the look came to at least.
#[tactic(auto, using(crate::proofs::TurnLemmas::ahead_turn, crate::proofs::TurnLemmas::ahead_none, crate::proofs::TurnLemmas::rest_length))]
fn comma_ahead(mut ahead: Cursor<'_, '_>) -> bool
    ensures { result ≡ spec.comma_ahead 0 ahead.entry }
{
    let mut inside = 0;
    for _turn in 0..ahead.left() {
        match look_at(inside, ahead.mark()) {
            Look::Comma => return true,
            Look::End => return false,
            Look::Inside(now) => inside = now,
        }
        ahead.pass();
    }
    false
}

/// The outcome of a look at one word of a clause, in the search for the clause's comma.
#[derive(Clone, Copy)]
enum Look {
    /// It is the comma.
    Comma,
    /// No comma stands before the end of the clause.
    End,
    /// The search goes on: the next word stands inside this many parentheses.
    Inside(usize),
}

/// Looks at a word inside this many parentheses of the clause. `mark` is its mark, if it is one.
#[tactic(auto, unfolding(crate::specs::Clauses::look_at, parse_expressions::specs::Reading::same_mark))]
fn look_at(inside: usize, mark: Option<Mark>) -> Look
    requires { inside < usize.MAX }
    ensures found { result ≡ spec.look_at inside mark }
    ensures near { spec.inside_of result inside ≤ inside + 1 }
{
    match mark {
        Some(Mark::Semicolon) => Look::End,
        Some(Mark::Comma) if inside == 0 => Look::Comma,
        Some(Mark::Close) if inside == 0 => Look::End,
        Some(Mark::Close) => Look::Inside(inside - 1),
        Some(Mark::Open) => Look::Inside(inside + 1),
        _ => Look::Inside(inside),
    }
}
