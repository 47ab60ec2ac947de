//! Records by the numbers of their instances.

ghost use Rattle.std.specs.Prelude.{◌≡◌, IfNone, IfSome};
ghost use Rattle.std.specs.List.{AllByRecursion};
ghost use Rattle.std.specs.Option.{option_copied};
ghost use Rattle.run_record.specs.Record.{RecordValue};
ghost use Rattle.sdl_report.specs.Number.{AreRising, record_of};

use run_record::Record;

/// The record of the instance of this number. Records stand by ascending number, from 1 on, and a number may have none:
/// so it's among the first `number` of them, near the last of these.
#[tactic(auto, using(crate::proofs::NumberLemmas::found, crate::proofs::NumberLemmas::passed, std::proofs::lemmas::List::take_min))]
pub fn record_of(records: &[Record], number: u32) -> Option<&Record>
    ensures is { option_copied result ≡ record_of number records.now }
    ensures own { IfSome result (λ trace. trace.now.pid ≡ number) }
    ensures none { AreRising 0 records.now → IfNone result
        (AllByRecursion (λ (trace : RecordValue). trace.pid ≡ number → ⊥) records.now) }
{
    let count = (number as usize).min(records.len());
    let (mut left, _) = records.split_at(count);
    while let Some((record, before)) = left.split_last() {
        if record.pid() == number {
            return Some(record);
        }
        left = before;
    }
    None
}
