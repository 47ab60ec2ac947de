//! What waits in the ports of instances.

ghost use Rattle.std.specs.Prelude.{◌≡◌, ◌++◌, ◌∷◌, IfNone, IfSome, OnOk, Some, []};
ghost use Rattle.view_timeline.specs.Rows.{IsFirst, letter, row_of};
ghost use Rattle.view_timeline.specs.declared.channel.Channel.{Channel};

use crate::channel::Channel;
use crate::moves::EventId;
use indexmap::IndexMap;
use port_model::Value;
use std::alloc::{AllocError, Global};
use std::collections::VecDeque;

/// A signal that waits: where it was sent, and its values.
#[derive(Clone, Copy, Drop)]
pub struct Sent<'r> {
    pub event: EventId,
    pub values: &'r [Value],
}

/// What waits on one channel.
#[derive(Drop)]
struct Row<'r> {
    signals: VecDeque<Sent<'r>>,
}

/// What waits in the ports of all instances, on each channel in the order in which it was sent.
#[derive(Drop)]
pub struct Rows<'r> {
    rows: IndexMap<Channel, Row<'r>>,
}

impl<'r> Rows<'r> {
    /// Nothing waits. Takes no memory.
    pub fn new(alloc: Global) -> Self
        ensures { (channel : Channel) → row_of result.rows channel ≡ [] }
    {
        Rows {
            rows: IndexMap::new(alloc),
        }
    }

    /// A signal waits behind what was sent on its channel before.
    pub fn put(&mut self, alloc: Global, channel: Channel, sent: Sent<'r>) -> Result<(), AllocError>
        ensures { OnOk result ((other : Channel) → row_of self.new.rows other ≡ row_of self.old.rows other
            ++ letter other sent.entry.event.0 (Some (record { channel = channel; values = sent.entry.values.now }))) }
    {
        if let Some(row) = self.rows.get_mut(&channel) {
            row.signals.push_back(sent)?;
            return Ok(());
        }
        let mut signals = VecDeque::new(alloc);
        signals.push_back(sent)?;
        self.rows.insert(channel, Row { signals })?;
        Ok(())
    }

    /// Takes the first signal on a channel, if it has these values.
    pub fn take(&mut self, channel: Channel, values: &[Value]) -> Option<EventId>
        ensures first { IfSome result (λ event. row_of self.old.rows channel
            ≡ (record { place = event.0; values = values.now }) ∷ row_of self.new.rows channel) }
        ensures others { (other : Channel) → (other ≡ channel → ⊥)
            → row_of self.new.rows other ≡ row_of self.old.rows other }
        ensures none { IfNone result (row_of self.new.rows channel ≡ row_of self.old.rows channel) }
        ensures missing { IfNone result (IsFirst values.now (row_of self.old.rows channel) → ⊥) }
    {
        let row = self.rows.get_mut(&channel)?;
        let first = row.signals.front()?;
        if first.values != values {
            return None;
        }
        let first = row.signals.pop_front()?;
        Some(first.event)
    }
}
