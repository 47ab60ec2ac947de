//! What stands in lists of signals, by the names that are seen at their place.

ghost use Rattle.std.specs.Prelude.{◌≡◌, ◌++◌, [], OnOk};
ghost use Rattle.build_definitions.specs.Definitions.{block_of, path_of};
ghost use Rattle.build_network.specs.Seen.{found_item, item_faults, item_in, item_name, items_faults, items_in, list_in, list_item, listed, path_within, seen_at, seen_of, signal_in, signal_item, timer_in, timer_item};
ghost use Rattle.build_names.specs.Faults.{Notes, fault_if, token_word};
ghost use Rattle.build_names.specs.Names.{first_of};
ghost use Rattle.build_names.specs.declared.faults.fault.Rule.TheVariants.{Unknown};
ghost use Rattle.sdl_tree.specs.Views.{item_value, items_value, name_value};

use build_definitions::{SignalListId, SymbolTable};
use build_expressions::SignalMeaning;
use build_names::{Faults, Outward, Rule, ScopeId, ScopePath, Token};
use build_routes::{Item, ListId};
use sdl_system::{BlockId, ProcessId};
use sdl_tree::{Name, SignalListItem};
use std::alloc::AllocError;

/// The signals and timers and the signal lists that are seen at a place.
#[derive(Clone, Copy)]
pub struct Seen<'a, 's, 't> {
    pub signals: Outward<'a, 't, SignalMeaning<'s>>,
    pub lists: Outward<'a, 't, SignalListId>,
}

/// Those that are seen on this path.
pub fn seen_at<'a, 's, 't>(symbols: &'a SymbolTable<'s, 't>, path: ScopePath) -> Seen<'a, 's, 't>
    ensures { seen_of result ≡ seen_at symbols.now path }
{
    Seen {
        signals: symbols.signals.outward(path),
        lists: symbols.lists.outward(path),
    }
}

/// The scopes round what stands in the system or in a block.
pub fn path_at(scope: ScopeId) -> ScopePath
    ensures { result ≡ path_of [] scope }
{
    match scope {
        ScopeId::System => ScopePath {
            process: None,
            block: None,
        },
        ScopeId::Block(block) => ScopePath {
            process: None,
            block: Some(block),
        },
        ScopeId::Process(process) => ScopePath {
            process: Some(process),
            block: None,
        },
    }
}

/// The scopes round what stands in a process of this number, in this scope.
pub fn path_within(process: ProcessId, scope: ScopeId) -> ScopePath
    ensures { result ≡ path_within process scope }
{
    ScopePath {
        process: Some(process),
        block: block_of(scope),
    }
}

fn block_of(scope: ScopeId) -> Option<BlockId>
    ensures { result ≡ block_of scope }
{
    match scope {
        ScopeId::Block(block) => Some(block),
        ScopeId::System | ScopeId::Process(_) => None,
    }
}

impl<'a, 's, 't> Seen<'a, 's, 't> {
    /// A signal or a timer of this name.
    pub fn signal(&self, name: &Name) -> Option<Item>
        ensures { result ≡ signal_in (seen_of self.now) (name_value name.now) }
    {
        signal_item(self.meaning(name))
    }

    /// A timer of this name.
    pub fn timer(&self, name: &Name) -> Option<Item>
        ensures { result ≡ timer_in (seen_of self.now) (name_value name.now) }
    {
        timer_item(self.meaning(name))
    }

    fn meaning(&self, name: &Name) -> Option<SignalMeaning<'s>>
        ensures { result ≡ first_of (seen_of self.now).signals (name_value name.now).text }
    {
        self.signals.get(&name.text)
    }

    /// A signal list of this name.
    fn list(&self, name: &Name) -> Option<Item>
        ensures { result ≡ list_in (seen_of self.now) (name_value name.now) }
    {
        list_item(self.number(name))
    }

    fn number(&self, name: &Name) -> Option<SignalListId>
        ensures { result ≡ first_of (seen_of self.now).lists (name_value name.now).text }
    {
        self.lists.get(&name.text)
    }

    fn item(&self, item: &SignalListItem) -> Option<Item>
        ensures { result ≡ item_in (seen_of self.now) (item_value item.now) }
    {
        match item {
            SignalListItem::Signal(name) => self.signal(name),
            SignalListItem::List(name) => self.list(name),
        }
    }

    fn add_item(&self, item: &SignalListItem, list: &mut Vec<Item>) -> Result<(), AllocError>
        ensures { OnOk result (list.new.items ≡ list.old.items ++ found_item (seen_of self.now) (item_value item.now)) }
    {
        add_found(self.item(item), list)
    }

    /// Adds the signals and the lists that stand for these items.
    pub fn add_items(
        &self,
        items: &[SignalListItem],
        list: &mut Vec<Item>,
    ) -> Result<(), AllocError>
        ensures { OnOk result (list.new.items ≡ list.old.items ++ items_in (seen_of self.now) (items_value items.now)) }
    {
        for item in items {
            self.add_item(item, list)?;
        }
        Ok(())
    }

    /// Notes the names that stand for nothing.
    pub fn note_items(&self, items: &'t [SignalListItem], faults: &mut Faults<'t>)
        ensures { Notes faults.old faults.new (items_faults (seen_of self.now) (items_value items.now)) }
    {
        for item in items {
            self.note_item(item, faults);
        }
    }

    fn note_item(&self, item: &'t SignalListItem, faults: &mut Faults<'t>)
        ensures { Notes faults.old faults.new (item_faults (seen_of self.now) (item_value item.now)) }
    {
        note_unknown(self.item(item).is_none(), item_token(item), faults);
    }
}

fn item_token(item: &SignalListItem) -> Token<'_>
    ensures { token_word result ≡ item_name (item_value item.now) }
{
    match item {
        SignalListItem::Signal(name) | SignalListItem::List(name) => Token::of_name(name),
    }
}

/// Notes a name that stands for nothing.
pub fn note_unknown<'t>(is_unknown: bool, token: Token<'t>, faults: &mut Faults<'t>)
    ensures { Notes faults.old faults.new (fault_if is_unknown Unknown (token_word token.entry)) }
{
    if is_unknown {
        faults.note(Rule::Unknown, token);
    }
}

/// Adds the item, where there is one.
pub fn add_found(found: Option<Item>, list: &mut Vec<Item>) -> Result<(), AllocError>
    ensures { OnOk result (list.new.items ≡ list.old.items ++ listed found) }
{
    if let Some(item) = found {
        list.push(item)?;
    }
    Ok(())
}

fn signal_item(meaning: Option<SignalMeaning<'_>>) -> Option<Item>
    ensures { result ≡ signal_item meaning.entry }
{
    match meaning {
        None => None,
        Some(SignalMeaning::Signal { number, .. }) => Some(Item::Signal(number)),
        Some(SignalMeaning::Timer { number, .. }) => Some(Item::Signal(number)),
    }
}

fn timer_item(meaning: Option<SignalMeaning<'_>>) -> Option<Item>
    ensures { result ≡ timer_item meaning.entry }
{
    match meaning {
        None => None,
        Some(SignalMeaning::Signal { .. }) => None,
        Some(SignalMeaning::Timer { number, .. }) => Some(Item::Signal(number)),
    }
}

fn list_item(number: Option<SignalListId>) -> Option<Item>
    ensures { result ≡ list_item number }
{
    match number {
        None => None,
        Some(number) => Some(Item::List(ListId(number.0))),
    }
}
