//! Signals and signal lists.

ghost use Rattle.std.specs.Prelude.{map};
ghost use Rattle.sdl_tree.specs.Views.{item_value, signal_list_value, signal_set_value, signal_value};
ghost use Rattle.parse_expressions.specs.Parts as spec;
ghost use Rattle.parse_expressions.specs.Reading.{separated};
ghost use Rattle.parse_expressions.specs.Reads.{Reads};

use crate::cursor::Cursor;
use crate::fault::Fault;
use crate::lists::{Production, separated};
use crate::parts::{end, sorts};
use crate::place::At;
use sdl_tree::{Mark, SignalDefinition, SignalListDefinition, SignalListItem, SignalSet};
use std::alloc::Global;

impl Production<SignalDefinition> for At {
    ghost use Rattle.sdl_tree.specs.Tree as tree;
    ghost use Rattle.sdl_tree.specs.Views.{signal_value};
    ghost use Rattle.parse_expressions.specs.Parts.{signal_name};

    ghost Node = { tree.SignalDefinition };

    ghost value = { signal_value };

    ghost reads = { λ _. signal_name };
}

impl Production<SignalListItem> for At {
    ghost use Rattle.sdl_tree.specs.Tree as tree;
    ghost use Rattle.sdl_tree.specs.Views.{item_value};
    ghost use Rattle.parse_expressions.specs.Parts.{sig};

    ghost Node = { tree.SignalListItem };

    ghost value = { item_value };

    ghost reads = { λ _. sig };
}

/// `signal = "signal" NAME [sorts] {"," NAME [sorts]} end`
#[tactic(auto, unfolding(crate::specs::Parts::signal))]
pub fn signal(alloc: Global, cursor: &mut Cursor<'_, '_>) -> Result<Vec<SignalDefinition>, Fault>
    ensures { Reads (λ ss. map signal_value ss.items) (spec.signal cursor.old) result cursor.new }
{
    cursor.expect(Mark::Signal)?;
    let found = separated(alloc, cursor, At::OUTERMOST, signal_name)?;
    end(cursor)?;
    Ok(found)
}

/// `NAME [sorts]`
#[tactic(auto, unfolding(crate::specs::Parts::signal_name))]
fn signal_name(
    alloc: Global,
    cursor: &mut Cursor<'_, '_>,
    _at: At,
) -> Result<SignalDefinition, Fault>
    ensures { Reads signal_value (spec.signal_name cursor.old) result cursor.new }
{
    let name = cursor.name(alloc)?;
    let sorts = sorts(alloc, cursor)?;
    Ok(SignalDefinition { name, sorts })
}

/// `signallist = "signallist" NAME "=" sigs end`
#[tactic(auto, unfolding(crate::specs::Parts::signal_list))]
pub fn signal_list(
    alloc: Global,
    cursor: &mut Cursor<'_, '_>,
) -> Result<SignalListDefinition, Fault>
    ensures { Reads signal_list_value (spec.signal_list cursor.old) result cursor.new }
{
    let word = cursor.expect(Mark::SignalList)?;
    let name = cursor.name(alloc)?;
    cursor.expect(Mark::Equal)?;
    let items = sigs(alloc, cursor)?;
    end(cursor)?;
    Ok(SignalListDefinition { word, name, items })
}

/// `"signalset" sigs end`
#[tactic(auto, unfolding(crate::specs::Parts::signal_set))]
pub fn signal_set(alloc: Global, cursor: &mut Cursor<'_, '_>) -> Result<SignalSet, Fault>
    ensures { Reads signal_set_value (spec.signal_set cursor.old) result cursor.new }
{
    let word = cursor.expect(Mark::SignalSet)?;
    let items = sigs(alloc, cursor)?;
    end(cursor)?;
    Ok(SignalSet { word, items })
}

/// `sigs = sig {"," sig}`
pub fn sigs(alloc: Global, cursor: &mut Cursor<'_, '_>) -> Result<Vec<SignalListItem>, Fault>
    ensures { Reads (λ xs. map item_value xs.items) (separated spec.sig cursor.old) result cursor.new }
{
    separated(alloc, cursor, At::OUTERMOST, sig)
}

/// `sig = NAME | "(" NAME ")"`
#[tactic(auto, unfolding(crate::specs::Parts::sig))]
fn sig(alloc: Global, cursor: &mut Cursor<'_, '_>, _at: At) -> Result<SignalListItem, Fault>
    ensures { Reads item_value (spec.sig cursor.old) result cursor.new }
{
    if !cursor.sees(Mark::Open) {
        return Ok(SignalListItem::Signal(cursor.name(alloc)?));
    }
    cursor.expect(Mark::Open)?;
    let name = cursor.name(alloc)?;
    cursor.expect(Mark::Close)?;
    Ok(SignalListItem::List(name))
}
