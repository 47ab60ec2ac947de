//! How many instances there may be at the start, all processes together.

ghost use Rattle.std.specs.Prelude.{◌≡◌, pos, false, int_lt, map};
ghost use Rattle.build_definitions.specs.Seen.{process_seen};
ghost use Rattle.build_constants.specs.Limit.{limit_faults, taken_by};
ghost use Rattle.build_names.specs.Faults.{Notes};

use crate::counts::InstanceCounts;
use build_definitions::ProcessEntry;
use build_names::{Faults, Rule, Token};

/// The most instances that there may be at the start.
const MOST_INSTANCES: i64 = 1_000;

/// Notes a Limit at the name of the first process with which there are too many instances at the start.
pub fn note_limit<'t>(
    processes: &[ProcessEntry<'t>],
    counts: &[Option<InstanceCounts>],
    faults: &mut Faults<'t>,
)
    ensures { Notes faults.old faults.new (limit_faults (map process_seen processes.now) counts.now) }
{
    let mut left = MOST_INSTANCES;
    for (entry, counted) in processes.iter().zip(counts) {
        let taken = taken_by(*counted);
        if taken > left {
            faults.note(Rule::Limit, Token::of_name(&entry.definition.name));
            return;
        }
        left -= taken;
    }
}

/// Gives how many instances the counts take of those that are left. None and a negative initial number take 0.
fn taken_by(counted: Option<InstanceCounts>) -> i64
    ensures taken { result ≡ taken_by counted }
    ensures some { int_lt result (pos 0) ≡ false }
{
    match counted {
        None => 0,
        Some(counts) => {
            if counts.initial < 0 {
                0
            } else {
                counts.initial
            }
        }
    }
}
