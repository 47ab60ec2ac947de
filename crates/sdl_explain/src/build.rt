//! The explanation of a specification that has no system.

ghost use Rattle.std.specs.Prelude.{◌≡◌, IfOk, IfSome};
ghost use Rattle.std.specs.String.{string_bytes};
ghost use Rattle.explain_syntax.specs.Earlier.{IsEarlier};
ghost use Rattle.sdl_explain.specs.Refused.{IsShown, Repeats, build_place, repeated_by};

use crate::advice::wanted_advice;
use crate::definition::first_definition;
use crate::mention::first_mention;
use crate::sentence::build_advice;
use crate::shown::shown_at;
use build_names::Rule;
use explain_syntax::{Advice, Explanation, Other, earlier_word};
use sdl_build::BuildError;
use sdl_lex::Place;
use sdl_parse::parse;
use sdl_tree::{Name, Tree};
use std::alloc::{AllocError, Global};

/// Explains why a specification has no system. The other place is that of the first definition of a name that is
/// defined twice, and that of the first mention of a signal that a state mentions twice.
pub fn explain_build<'t>(
    alloc: Global,
    text: &'t [u8],
    error: &BuildError,
) -> Result<Explanation<'t>, AllocError>
    ensures shown { IfOk result (λ told. IsShown text.now (build_place error.now) told.shown) }
    ensures other { IfOk result (λ told. IfSome told.other
        (Repeats text.now (build_place error.now) (repeated_by error.now))) }
{
    let tree = parse(alloc, text).ok();
    let advice = advice_of(alloc, tree.as_ref(), error)?;
    let other = other_of(alloc, text, tree.as_ref(), error)?;
    Ok(Explanation {
        shown: shown_at(text, build_place(error)),
        advice,
        other,
    })
}

/// Gives the advice on a specification that has no system: in the words of what was wanted at the place, if that is
/// known.
fn advice_of(alloc: Global, tree: Option<&Tree>, error: &BuildError) -> Result<Advice, AllocError> {
    if let (Some(tree), BuildError::Broken { rule, word }) = (tree, error) {
        if let Some(advice) = wanted_advice(alloc, tree, *rule, word)? {
            return Ok(advice);
        }
    }
    build_advice(alloc, error)
}

/// Where a rule is broken.
fn build_place(error: &BuildError) -> Option<Place>
    ensures { result ≡ build_place error.now }
{
    match error {
        BuildError::Broken { word, .. } => Some(word.place),
        BuildError::Memory => None,
    }
}

/// Where the word is first that is there once too often.
fn other_of<'t>(
    alloc: Global,
    text: &'t [u8],
    tree: Option<&Tree>,
    error: &BuildError,
) -> Result<Option<Other<'t>>, AllocError>
    ensures { IfOk result (λ other. IfSome other (Repeats text.now (build_place error.now) (repeated_by error.now))) }
{
    let Some(tree) = tree else {
        return Ok(None);
    };
    match error {
        BuildError::Broken {
            rule: Rule::Duplicate,
            word,
        } => {
            let place = first_definition(alloc, tree, word)?;
            Ok(other_at(text, place, word, "It is defined first here:"))
        }
        BuildError::Broken {
            rule: Rule::TwiceInState,
            word,
        } => {
            let place = first_mention(alloc, tree, word)?;
            Ok(other_at(text, place, word, "It stands in this state first here:"))
        }
        _ => Ok(None),
    }
}

/// The place of a word, if that is there and comes before the word itself.
fn other_at<'t>(
    text: &'t [u8],
    place: Option<Place>,
    word: &Name,
    sentence: &'static str,
) -> Option<Other<'t>>
    ensures { IfSome result (λ it. IsEarlier text.now (string_bytes word.now.text) word.now.place it.excerpt) }
{
    let excerpt = earlier_word(text, place?, word.text.as_str().as_bytes(), word.place)?;
    Some(Other { sentence, excerpt })
}
