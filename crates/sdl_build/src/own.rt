//! The names that a script uses: the system's own signals, and processes.

ghost use Rattle.std.specs.Prelude.{◌≡◌, ℕ, List, [], ◌∷◌, map, IfOk, OnOk};
ghost use Rattle.std.specs.Option.{option_or};
ghost use Rattle.sdl_build.specs.Built.{named_processes, own_from};
ghost use Rattle.build_definitions.specs.Seen.{process_seen, signal_seen};
ghost use Rattle.build_names.specs.Names.{first_of};
ghost use Rattle.build_names.specs.Spaces.{is_same_scope};
ghost use Rattle.build_names.specs.declared.scopes.scope.ScopeId.TheVariants as scopes;
ghost use Rattle.sdl_system.specs.System.{meaning_of, named};

use build_definitions::{ProcessEntry, SignalEntry, next_number};
use build_names::ScopeId;
use indexmap::IndexMap;
use port_model::SignalId;
use sdl_system::ProcessId;
use std::alloc::{AllocError, Global};

/// The signals of the system's own scope by their names. Of two with one name the first counts.
pub fn own_signals(
    alloc: Global,
    entries: &[SignalEntry<'_>],
) -> Result<IndexMap<String, SignalId>, AllocError>
    ensures { IfOk result (λ names. (text : List ℕ) → meaning_of (named names) text
        ≡ first_of (own_from 0 (map signal_seen entries.now)) text) }
{
    let mut names = IndexMap::new(alloc);
    let mut next = 0;
    for entry in entries {
        if is_system(entry.scope) {
            insert_first(alloc, &mut names, entry.name.text.as_str(), SignalId(next))?;
        }
        next = next_number(next)?;
    }
    Ok(names)
}

/// The first process of each name in the text.
pub fn process_names(
    alloc: Global,
    entries: &[ProcessEntry<'_>],
) -> Result<IndexMap<String, ProcessId>, AllocError>
    ensures { IfOk result (λ names. (text : List ℕ) → meaning_of (named names) text
        ≡ first_of (named_processes 0 (map process_seen entries.now)) text) }
{
    let mut names = IndexMap::new(alloc);
    let mut next = 0;
    for entry in entries {
        insert_first(
            alloc,
            &mut names,
            entry.definition.name.text.as_str(),
            ProcessId(next),
        )?;
        next = next_number(next)?;
    }
    Ok(names)
}

fn is_system(scope: ScopeId) -> bool
    ensures { result ≡ is_same_scope scope scopes.System }
{
    match scope {
        ScopeId::System => true,
        ScopeId::Block(_) => false,
        ScopeId::Process(_) => false,
    }
}

/// Adds a name, where it is new.
fn insert_first<T: Copy>(
    alloc: Global,
    names: &mut IndexMap<String, T>,
    text: &str,
    what: T,
) -> Result<(), AllocError>
    ensures { OnOk result ((other : List ℕ) → meaning_of (named names.new) other
        ≡ option_or (meaning_of (named names.old) other) (first_of ((text.now, what) ∷ []) other)) }
{
    if !names.contains_key(text) {
        names.insert(String::from_str(alloc, text)?, what)?;
    }
    Ok(())
}
