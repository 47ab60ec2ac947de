//! The numbers of records.

ghost use Rattle.std.specs.Prelude.{◌≤◌, All, IsTrue};
ghost use Rattle.run_record.specs.Record.{RecordValue};
ghost use Rattle.run_semantics.specs.World.{most_instances};
ghost use Rattle.settle_meaning.specs.Identities.{AreRising};

use run_record::Record;

/// So many instances there may be in all.
pub const MOST_INSTANCES: u32 = 1_000;

/// Whether the numbers of the records rise, and each is one that an instance may have.
pub fn in_order(records: &[Record]) -> bool
    ensures rising { IsTrue result → AreRising 0 records.now }
    ensures within { IsTrue result → All (λ (trace : RecordValue). trace.pid ≤ most_instances) records.now }
{
    let mut last = 0;
    for record in records {
        let number = record.pid();
        if number <= last || number > MOST_INSTANCES {
            return false;
        }
        last = number;
    }
    true
}
