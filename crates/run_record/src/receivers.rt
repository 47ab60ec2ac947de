//! Whom outputs of a record reach.

ghost use Rattle.std.specs.Prelude.{◌≡◌, ◌-◌, IfSome, drop, length, min};
ghost use Rattle.run_record.specs.Packed.{IsOfOneTime, counted, events_in, receivers_in};

use crate::packed::Packed;
use std::marker::Model;

/// The numbers of the instances that outputs of a record reach, in their order.
pub struct Receivers<'r> {
    entries: &'r [Packed],
}

/// Written out, so that it is proved here, and not anew in each crate that drops one.
impl<'r> Drop for Receivers<'r> {
    fn drop(self) {
        let Receivers { entries: _ } = self;
    }
}

impl<'r> Model for Receivers<'r> {
    ghost use Rattle.std.specs.Prelude.{ℕ, List};
    ghost use Rattle.run_record.specs.Packed.{receivers_in};

    ghost Value = { List ℕ };

    ghost view = { λ r. receivers_in r.entries.now };
}

impl<'r> Receivers<'r> {
    /// Whom these entries reach.
    pub(crate) fn of(entries: &'r [Packed]) -> Receivers<'r>
        ensures { result ≡ receivers_in entries.now }
    {
        Receivers { entries }
    }
}

impl<'r> Iterator for Receivers<'r> {
    ghost use Rattle.std.specs.Iterator.{YieldsFirst, item_count};

    type Item = u32;

    ghost next_gives = { YieldsFirst (λ left. left) };

    ghost remaining = { item_count (λ left. left) };

    fn next(&mut self) -> Option<u32> {
        while let Some((first, rest)) = self.entries.split_first() {
            self.entries = rest;
            if let Some(number) = first.receiver() {
                return Some(number);
            }
        }
        None
    }
}

/// How many values the entries have, if none of them is a time: then all are of the time before them. None: one is a time.
pub(crate) fn values_of_one_time(entries: &[Packed]) -> Option<usize>
    ensures { IfSome result (λ count. (counted entries.now ≡ count) × IsOfOneTime entries.now) }
{
    let mut left = entries;
    let mut count = 0usize;
    'on: while let Some((first, others)) = left.split_first() {
        if !first.is_event() {
            return None;
        }
        count = count.checked_add(first.count())?;
        left = others;
    }
    Some(count)
}

/// The last entries, so that these are as many events, or all if there are fewer.
pub(crate) fn last_entries(entries: &[Packed], count: usize) -> &[Packed]
    ensures rest { result.now ≡ drop (length entries.now - length result.now) entries.now }
    ensures events { events_in result.now ≡ min count (events_in entries.now) }
{
    let mut before = entries;
    let mut left = count;
    'back: while let Some((last, others)) = before.split_last() {
        if left == 0 {
            let (_, end) = entries.split_at(before.len());
            return end;
        }
        left -= usize::from(last.is_event());
        before = others;
    }
    entries
}
