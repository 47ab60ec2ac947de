//! What is suspicious in a specification, said for a human.

ghost use Rattle.std.specs.Prelude.{◌≡◌, IfOk, take};
ghost use Rattle.sdl_explain.specs.Told.{AreTold};
ghost use Rattle.sdl_explain.specs.Warned.{AreSuspected, AreWarningsOf, IsMessage, IsWarningText};
ghost use Rattle.sdl_warnings.specs.declared.suspicion.Warning.{Warning};
ghost use Rattle.sdl_parse.specs.Parser.{SpellsText};
ghost use Rattle.sdl_tree.specs.Views.{tree_value};

use crate::refused::is_lack;
use crate::sentence::warning_sentence;
use crate::shown::shown_at;
use explain_syntax::{Advice, Explanation, Origin, marked_word, push_more};
use parse_expressions::placed_words;
use sdl_lex::lex;
use sdl_parse::parse;
use sdl_tree::Tree;
use sdl_warnings::{Warning, warnings};
use std::alloc::{AllocError, Global};

/// So many warnings are told.
const MOST_TOLD: usize = 20;

/// What is suspicious in a specification, in the order of the text; nothing, if the text is none.
pub fn warnings_of(alloc: Global, specification: &[u8]) -> Result<Vec<Warning>, AllocError>
    ensures { IfOk result (λ found. AreWarningsOf specification.now found.items) }
{
    match parse(alloc, specification) {
        Ok(tree) => {
            let found = suspected(alloc, specification, &tree)?;
            Ok(found)
        }
        Err(error) => {
            if is_lack(&error) {
                return Err(AllocError);
            }
            Ok(Vec::new(alloc))
        }
    }
}

/// What is suspicious in a specification with this tree.
fn suspected(alloc: Global, specification: &[u8], tree: &Tree) -> Result<Vec<Warning>, AllocError>
    requires { SpellsText (tree_value tree.now) specification.now }
    ensures { IfOk result (λ found. AreSuspected specification.now found.items) }
{
    let Ok(tokens) = lex(alloc, specification) else {
        return Err(AllocError);
    };
    let words = placed_words(alloc, specification, &tokens)?;
    let found = warnings(alloc, tree, &words)?;
    Ok(found)
}

/// The text of the warnings of a specification that comes from there: for each of the first ones its place, its name, a
/// sentence and the line, and then how many more there are.
pub fn warnings_text(
    alloc: Global,
    specification: &[u8],
    origin: &Origin<'_>,
    warnings: &[Warning],
) -> Result<Vec<u8>, AllocError>
    ensures { IfOk result (λ text. IsWarningText specification.now origin.now warnings.now text.items) }
{
    let mut text = messages(alloc, specification, origin, first_told(warnings))?;
    let more = warnings.len().saturating_sub(MOST_TOLD);
    push_more(alloc, &mut text, origin, more, true)?;
    Ok(text)
}

/// Those of the warnings that are told.
fn first_told(warnings: &[Warning]) -> &[Warning]
    ensures { result.now ≡ take 20 warnings.now }
{
    if warnings.len() > MOST_TOLD {
        &warnings[..MOST_TOLD]
    } else {
        warnings
    }
}

/// The messages of warnings.
fn messages(
    alloc: Global,
    specification: &[u8],
    origin: &Origin<'_>,
    warnings: &[Warning],
) -> Result<Vec<u8>, AllocError>
    ensures { IfOk result (λ text. AreTold Warning (IsMessage specification.now) origin.now warnings.now text.items) }
{
    let mut all = Vec::new(alloc);
    for warning in warnings {
        let message = message_of(alloc, specification, *warning)?;
        let text = message.text(alloc, origin)?;
        all.extend_from_slice(&text)?;
    }
    Ok(all)
}

/// The message of a warning.
fn message_of<'t>(
    alloc: Global,
    specification: &'t [u8],
    warning: Warning,
) -> Result<Explanation<'t>, AllocError>
    ensures { IfOk result (IsMessage specification.now warning) }
{
    let shown = shown_at(specification, Some(warning.place));
    let word = marked_word(&shown).unwrap_or("");
    let (name, sentence) = warning_sentence(warning.suspicion, word);
    Ok(Explanation {
        shown,
        advice: Advice {
            text: format!(in alloc; "warning {name}: {sentence}")?,
        },
        other: None,
    })
}
