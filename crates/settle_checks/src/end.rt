//! How many transitions there were.

ghost use Rattle.std.specs.Prelude.{◌≡◌};
ghost use Rattle.settle_meaning.specs.Closed as meaning;

use crate::entries::is_beginning;
use run_record::Record;

/// How many transitions the record has.
pub fn transitions_in(record: &Record) -> usize
    ensures { result ≡ meaning.transitions_in record.now }
{
    record.reader().filter(|told| is_beginning(*told)).count()
}
