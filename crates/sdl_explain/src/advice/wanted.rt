//! Advice on a name or a sort, in the words of what was wanted at its place.

use crate::advice::misfit::misfit_advice;
use crate::advice::names::Names;
use crate::advice::target::target_advice;
use crate::advice::unknown::unknown_advice;
use crate::site::{Site, What};
use crate::sites::sites_of;
use build_definitions::Definitions;
use build_names::{Faults, Rule};
use explain_syntax::Advice;
use sdl_tree::{Name, Tree};
use std::alloc::{AllocError, Global};

/// Gives the advice on a name that stands for nothing wanted, and on a sort that doesn't fit. None: it is another rule,
/// or what was wanted isn't known.
pub fn wanted_advice(
    alloc: Global,
    tree: &Tree,
    rule: Rule,
    word: &Name,
) -> Result<Option<Advice>, AllocError> {
    let mut faults = Faults::new();
    let tables = Definitions::of(alloc, tree, &mut faults)?;
    match rule {
        Rule::Unknown | Rule::Sort => site_advice(alloc, tree, &tables, rule, word),
        Rule::NoState | Rule::NoLabel => target_advice(alloc, &tables, rule, word),
        _ => Ok(None),
    }
}

/// Gives the advice on what is at the place of a word.
fn site_advice<'t>(
    alloc: Global,
    tree: &'t Tree,
    tables: &Definitions<'t>,
    rule: Rule,
    word: &Name,
) -> Result<Option<Advice>, AllocError> {
    let sites = sites_of(alloc, tree, tables)?;
    for site in &sites {
        if site.place == word.place {
            if let Some(advice) = advice_at(alloc, tables, rule, word, site)? {
                return Ok(Some(advice));
            }
        }
    }
    instance_advice(alloc, rule, word.text.as_str())
}

/// Gives the advice on what is at a place.
fn advice_at(
    alloc: Global,
    tables: &Definitions<'_>,
    rule: Rule,
    word: &Name,
    site: &Site<'_>,
) -> Result<Option<Advice>, AllocError> {
    let names = Names::seen_in(alloc, tables, site.scope)?;
    let text = word.text.as_str();
    match (rule, site.what) {
        (Rule::Unknown, What::Name(_, kind)) => {
            Ok(Some(unknown_advice(alloc, &names, text, kind)?))
        }
        (Rule::Unknown, _) => Ok(None),
        (_, what) => misfit_advice(alloc, &names, text, what),
    }
}

/// Gives the advice on a word that only an instance knows.
fn instance_advice(alloc: Global, rule: Rule, word: &str) -> Result<Option<Advice>, AllocError> {
    if rule != Rule::Sort {
        return Ok(None);
    }
    if word.eq_ignore_ascii_case("now") {
        return Ok(Some(Advice::about(alloc, word, NOW)?));
    }
    if is_of_instance(word) {
        return Ok(Some(Advice::about(alloc, word, OF_INSTANCE)?));
    }
    Ok(None)
}

fn is_of_instance(word: &str) -> bool {
    OF_INSTANCES
        .iter()
        .any(|other| word.eq_ignore_ascii_case(*other))
}

static OF_INSTANCES: [&str; 5] = ["self", "parent", "offspring", "sender", "active"];

const NOW: &str =
    "can't stand in a condition after `provided`, nor in a constant. Set a timer, and wait for its signal.";

const OF_INSTANCE: &str =
    "is known to an instance alone, and a constant has to stand here: it is known before any instance is made.";
