//! Decisions whose answers overlap, are empty or are too few.

ghost use Rattle.std.specs.Prelude.{◌≡◌, ◌++◌, [], OnOk, take};
ghost use Rattle.std.specs.Bool.{Decides};
ghost use Rattle.std.specs.List.{Any, list_any};
ghost use Rattle.sdl_warnings.specs.Answers.{Share};
ghost use Rattle.sdl_warnings.specs.Decisions.{decision_at, has_boolean, have_value_of, is_boolean, is_other, is_taken, is_unknown, lacks_one, of_answer, of_answers, of_decision, of_decisions, told_if};

use crate::answered::{Answered, answers, has_else};
use crate::answers::Taken;
use crate::suspicion::{Behaviour, Oddity};
use crate::words::is_mark;
use parse_expressions::PlacedWord;
use sdl_lex::Place;
use sdl_tree::Mark;
use std::alloc::{AllocError, Global};

/// So many answers of a decision are compared with each other one, so that a long list doesn't take long.
const MOST_COMPARED: usize = 100;

/// Adds what is suspicious of decisions: an answer with a value of an earlier one, a range without a value, and a Boolean
/// decision without one of its values.
pub fn add_decisions(
    alloc: Global,
    found: &mut Vec<Oddity>,
    words: &[PlacedWord<'_>],
) -> Result<(), AllocError>
    ensures { OnOk result (found.new.items ≡ found.old.items ++ of_decisions words.now) }
{
    let mut rest = words;
    'rest: while let [word, more @ ..] = rest {
        add_if_decision(alloc, found, *word, more)?;
        rest = more;
    }
    Ok(())
}

/// Adds what is suspicious of a decision that begins with a word, if one does.
fn add_if_decision(
    alloc: Global,
    found: &mut Vec<Oddity>,
    word: PlacedWord<'_>,
    more: &[PlacedWord<'_>],
) -> Result<(), AllocError>
    ensures { OnOk result (found.new.items ≡ found.old.items ++ decision_at word.entry more.now) }
{
    if is_mark(word, Mark::Decision) {
        let answers = answers(alloc, more)?;
        return add_decision(found, word.place, &answers, has_else(more));
    }
    Ok(())
}

/// Adds what is suspicious of a decision at this place.
fn add_decision(
    found: &mut Vec<Oddity>,
    place: Place,
    answers: &[Answered],
    has_else: bool,
) -> Result<(), AllocError>
    ensures { OnOk result (found.new.items ≡ found.old.items ++ of_decision place answers.now has_else) }
{
    add_answers(found, answers)?;
    let is_missing = lacks_one(answers, has_else);
    add_if(found, is_missing, Behaviour::MissingAnswer, place)
}

/// Adds what is suspicious of answers.
fn add_answers(found: &mut Vec<Oddity>, answers: &[Answered]) -> Result<(), AllocError>
    ensures { OnOk result (found.new.items ≡ found.old.items ++ of_answers [] answers.now) }
{
    let mut at = 0;
    while at < answers.len() {
        add_answer(found, &answers[..at], answers[at])?;
        at += 1;
    }
    Ok(())
}

/// Adds what is suspicious of an answer that comes after these.
fn add_answer(
    found: &mut Vec<Oddity>,
    earlier: &[Answered],
    one: Answered,
) -> Result<(), AllocError>
    ensures { OnOk result (found.new.items ≡ found.old.items ++ of_answer earlier.now one) }
{
    add_if(
        found,
        one.taken.is_empty(),
        Behaviour::EmptyRange,
        one.place,
    )?;
    let is_again = is_taken(earlier, one.taken);
    add_if(found, is_again, Behaviour::Overlap, one.place)
}

/// Adds what is suspicious at this place, if it is there.
fn add_if(
    found: &mut Vec<Oddity>,
    is_there: bool,
    behaviour: Behaviour,
    place: Place,
) -> Result<(), AllocError>
    ensures { OnOk result (found.new.items ≡ found.old.items ++ told_if is_there behaviour place) }
{
    if is_there {
        found.push(Oddity { behaviour, place })?;
    }
    Ok(())
}

/// Whether one of the first answers has a value of another one.
fn is_taken(earlier: &[Answered], taken: Taken) -> bool
    ensures is { result ≡ is_taken earlier.now taken }
    ensures shares { Decides result (Any (λ one. Share one.taken taken) (take 100 earlier.now)) }
{
    have_value_of(first_compared(earlier), taken)
}

/// Whether one of these answers has a value of another one.
fn have_value_of(answers: &[Answered], taken: Taken) -> bool
    ensures { result ≡ have_value_of taken answers.now }
{
    answers.iter().any(|one| one.taken.overlaps(taken))
}

fn first_compared(earlier: &[Answered]) -> &[Answered]
    ensures { result.now ≡ take 100 earlier.now }
{
    if earlier.len() > MOST_COMPARED {
        &earlier[..MOST_COMPARED]
    } else {
        earlier
    }
}

/// Whether one Boolean is an answer and the other isn't, all answers are known, and there is no `else`.
fn lacks_one(answers: &[Answered], has_else: bool) -> bool
    ensures { result ≡ lacks_one answers.now has_else }
{
    let has_true = has_boolean(answers, true);
    let has_false = has_boolean(answers, false);
    let is_known = !has_else && !has_unknown(answers);
    is_known && ((has_true && !has_false) || (has_false && !has_true))
}

fn has_unknown(answers: &[Answered]) -> bool
    ensures { result ≡ list_any is_other answers.now }
{
    answers.iter().any(|one| is_unknown(one.taken))
}

/// Whether it isn't known what an answer takes.
fn is_unknown(taken: Taken) -> bool
    ensures { result ≡ is_unknown taken }
{
    matches!(taken, Taken::Other)
}

/// Whether this Boolean is an answer.
fn has_boolean(answers: &[Answered], truth: bool) -> bool
    ensures { result ≡ has_boolean truth answers.now }
{
    answers.iter().any(|one| is_boolean(one.taken, truth))
}

fn is_boolean(taken: Taken, truth: bool) -> bool
    ensures { result ≡ is_boolean truth taken }
{
    match taken {
        Taken::Boolean(own) => own == truth,
        _ => false,
    }
}
