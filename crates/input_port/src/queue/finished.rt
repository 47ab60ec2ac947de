//! What an owner leaves at its end.

ghost use Rattle.std.specs.Prelude.{◌≡◌};

use crate::queue::rule::Pass;
use port_model::Entry;
use std::marker::Model;

/// The end of an owner: the entries that are left, in order, and as a fact all that it had drawn by then.
#[derive(Drop)]
pub struct Finished {
    entries: Vec<Entry>,
    pass: Pass,
}

impl Model for Finished {
    ghost use Rattle.input_port.specs.QueueEnds.{FinishedState};

    ghost Value = { FinishedState };

    ghost view = { λ f. record {
      entries = f.entries.items;
      drawn = f.pass.me.view.client.drawn;
      known = f.pass.me.view.client.seen;
      gathered = f.pass.me.view.client.gathered;
    } };
}

impl Finished {
    pub(crate) fn new(entries: Vec<Entry>, pass: Pass) -> Self
        ensures entries { result.entries ≡ entries.items }
        ensures drawn { result.drawn ≡ pass.me.view.client.drawn }
        ensures known { result.known ≡ pass.me.view.client.seen }
        ensures gathered { result.gathered ≡ pass.me.view.client.gathered }
    {
        Finished { entries, pass }
    }

    /// The entries that are left, in order.
    pub fn entries(&self) -> &[Entry]
        ensures { result.now ≡ self.now.entries }
    {
        self.entries.as_slice()
    }

    /// The entries that are left, in order.
    pub fn into_entries(self) -> Vec<Entry>
        ensures { result.items ≡ self.entries }
    {
        let Finished { entries, pass: _ } = self;
        entries
    }
}
