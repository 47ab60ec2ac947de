//! The numbers of the lists of receivers of 64 signals.

ghost use Rattle.std.specs.Prelude.{◌≡◌, ◌<◌, ◌⊎◌, ℕ, length, slice_get, IfOk, IsTrue};
ghost use Rattle.build_routes.specs.Entries.{AreKnown, AreNumbers, Keeps};
ghost use Rattle.build_routes.specs.declared.known.Known.{Known};

use crate::lists::Lists;
use crate::receiver::{Receiver, listed};
use sdl_system::ReceiversId;
use std::alloc::{AllocError, Global};

/// Receivers of 64 signals, and for each of the signals the number of the list of those to which it goes.
pub(crate) struct Known {
    pub(crate) receivers: Vec<Receiver>,
    pub(crate) numbers: Vec<ReceiversId>,
}

/// Written out, so that it is proved here, and not anew in each crate that drops one.
impl Drop for Known {
    fn drop(self) {
        let Known {
            receivers: _,
            numbers: _,
        } = self;
    }
}

/// The numbers of the lists of these receivers. Those of the receivers that were looked at last, for the same 64
/// signals, are known, so that sources with the same receivers cost no more than to compare them.
pub(crate) fn numbers_of(
    alloc: Global,
    word: usize,
    receivers: Vec<Receiver>,
    known: &mut Vec<Known>,
    lists: &mut Lists,
) -> Result<Vec<ReceiversId>, AllocError>
    requires { AreKnown lists.old known.old.items }
    ensures kept { Keeps lists.old lists.new }
    ensures known { AreKnown lists.new known.new.items }
    ensures numbers { IfOk result (λ numbers. AreNumbers lists.new receivers.items numbers.items) }
{
    if is_known(known, word, &receivers) {
        let same = known_numbers(alloc, known, word)?;
        return Ok(same);
    }
    let numbers = numbered(alloc, &receivers, lists)?;
    let copy = Vec::from_slice(alloc, &numbers)?;
    let now = Known {
        receivers,
        numbers: copy,
    };
    remember(known, word, now)?;
    Ok(numbers)
}

/// Whether these receivers were looked at last for these 64 signals.
fn is_known(known: &[Known], word: usize, receivers: &[Receiver]) -> bool
    ensures { IsTrue result → (one : Known) × (slice_get known.now word ≡ Some one)
        × (one.receivers.items ≡ receivers.now) }
{
    if word < known.len() {
        let last = &known[word].receivers;
        return last.as_slice() == receivers;
    }
    false
}

fn known_numbers(
    alloc: Global,
    known: &[Known],
    word: usize,
) -> Result<Vec<ReceiversId>, AllocError>
    requires { word < length known.now }
    ensures { IfOk result (λ numbers. (one : Known) → slice_get known.now word ≡ Some one
        → numbers.items ≡ one.numbers.items) }
{
    let last = &known[word].numbers;
    let numbers = Vec::from_slice(alloc, last)?;
    Ok(numbers)
}

/// Keeps what was looked at last for these 64 signals.
fn remember(known: &mut Vec<Known>, word: usize, now: Known) -> Result<(), AllocError>
    ensures { (n : ℕ) (one : Known) → slice_get known.new.items n ≡ Some one
        → (slice_get known.old.items n ≡ Some one) ⊎ (one ≡ now) }
{
    if word < known.len() {
        known[word] = now;
    } else {
        known.push(now)?;
    }
    Ok(())
}

/// The same where nothing is known.
fn numbered(
    alloc: Global,
    receivers: &[Receiver],
    lists: &mut Lists,
) -> Result<Vec<ReceiversId>, AllocError>
    ensures kept { Keeps lists.old lists.new }
    ensures numbers { IfOk result (λ numbers. AreNumbers lists.new receivers.now numbers.items) }
{
    let mut numbers = Vec::new(alloc);
    for place in 0..64 {
        let list = listed(alloc, receivers, place)?;
        numbers.push(lists.add(list)?)?;
    }
    Ok(numbers)
}
