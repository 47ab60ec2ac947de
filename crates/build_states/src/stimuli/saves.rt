//! Saves, and what they say of their signals.

ghost use Rattle.std.specs.Prelude.{◌≡◌, ◌++◌, ◌∷◌, [], IfOk, OnOk, map};
ghost use Rattle.build_names.specs.Faults.{Notes, fault_if};
ghost use Rattle.build_names.specs.declared.faults.fault.Rule.TheVariants.{Unknown};
ghost use Rattle.build_states.specs.Context.{context_of};
ghost use Rattle.build_states.specs.Faulty.{item_faults, saved_faults};
ghost use Rattle.build_states.specs.Listed.{mentions_listed};
ghost use Rattle.build_states.specs.Mentions.{item_mention, item_subjects, item_word, saved_mentions};
ghost use Rattle.sdl_tree.specs.Tree.{SaveList};
ghost use Rattle.sdl_tree.specs.Views.{item_value, name_value, saved_value};

use crate::stimuli::context::Context;
use crate::stimuli::inputs::add_rest;
use crate::stimuli::mention::{Mention, Response};
use crate::stimuli::signals::{list_subjects, subjects};
use crate::stimuli::subject::Subject;
use build_names::{Faults, Rule, Token};
use sdl_tree::{Name, Saved, SignalListItem};
use std::alloc::{AllocError, Global};

/// Adds the signals of a save, or its asterisk.
pub fn add_saved<'t>(
    alloc: Global,
    context: &Context<'_, '_, 't>,
    saved: &'t Saved,
    mentions: &mut Vec<Mention<'t>>,
    faults: &mut Faults<'t>,
) -> Result<(), AllocError>
    ensures read { OnOk result (mentions_listed mentions.new.items ≡ mentions_listed mentions.old.items
        ++ saved_mentions (context_of context.now) (saved_value saved.now)) }
    ensures noted { OnOk result (Notes faults.old faults.new
        (saved_faults (context_of context.now) (saved_value saved.now))) }
{
    match saved {
        Saved::Listed(items) => add_items(alloc, context, items, mentions, faults),
        Saved::All(asterisk) => add_rest(alloc, *asterisk, Response::Save, mentions),
    }
}

fn add_items<'t>(
    alloc: Global,
    context: &Context<'_, '_, 't>,
    items: &'t [SignalListItem],
    mentions: &mut Vec<Mention<'t>>,
    faults: &mut Faults<'t>,
) -> Result<(), AllocError>
    ensures read { OnOk result (mentions_listed mentions.new.items ≡ mentions_listed mentions.old.items
        ++ saved_mentions (context_of context.now) (SaveList (map item_value items.now))) }
    ensures noted { OnOk result (Notes faults.old faults.new
        (saved_faults (context_of context.now) (SaveList (map item_value items.now)))) }
{
    for item in items {
        add_item(alloc, context, item, mentions, faults)?;
    }
    Ok(())
}

fn add_item<'t>(
    alloc: Global,
    context: &Context<'_, '_, 't>,
    item: &'t SignalListItem,
    mentions: &mut Vec<Mention<'t>>,
    faults: &mut Faults<'t>,
) -> Result<(), AllocError>
    ensures read { OnOk result (mentions_listed mentions.new.items ≡ mentions_listed mentions.old.items
        ++ item_mention (context_of context.now) (item_value item.now) ∷ []) }
    ensures noted { OnOk result (Notes faults.old faults.new
        (item_faults (context_of context.now) (item_value item.now))) }
{
    let subjects = read_item(alloc, context, item, faults)?;
    mentions.push(Mention {
        token: Token::of_name(name_of(item)),
        subjects,
        response: Response::Save,
    })?;
    Ok(())
}

fn name_of(item: &SignalListItem) -> &Name
    ensures { name_value result.now ≡ item_word (item_value item.now) }
{
    match item {
        SignalListItem::Signal(name) => name,
        SignalListItem::List(name) => name,
    }
}

/// Reads the subjects of an item of a save. Notes a name that means nothing as `Unknown`.
fn read_item<'t>(
    alloc: Global,
    context: &Context<'_, '_, 't>,
    item: &'t SignalListItem,
    faults: &mut Faults<'t>,
) -> Result<Vec<Subject>, AllocError>
    ensures read { IfOk result (λ subjects. subjects.items
        ≡ item_subjects (context_of context.now) (item_value item.now)) }
    ensures noted { OnOk result (Notes faults.old faults.new
        (item_faults (context_of context.now) (item_value item.now))) }
{
    match item {
        SignalListItem::Signal(name) => {
            let meaning = context.scope.signal(&name.text);
            note_unknown(meaning.is_none(), name, faults);
            subjects(alloc, meaning)
        }
        SignalListItem::List(name) => {
            let signals = context.list(&name.text);
            note_unknown(signals.is_none(), name, faults);
            list_subjects(alloc, signals)
        }
    }
}

fn note_unknown<'t>(is_unknown: bool, name: &'t Name, faults: &mut Faults<'t>)
    ensures { Notes faults.old faults.new (fault_if is_unknown Unknown (name_value name.now)) }
{
    if is_unknown {
        faults.note(Rule::Unknown, Token::of_name(name));
    }
}
