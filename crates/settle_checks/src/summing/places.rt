//! Where the record of a number is.

ghost use Rattle.settle_meaning.specs.Identities.{AreRising};
ghost use Rattle.settle_checks.specs.Places.{IsPlaceWith};

use run_record::Record;

/// The place of the record of this number. None: there is none.
#[tactic(auto, using(crate::proofs::PlaceLemmas::place_first, crate::proofs::PlaceLemmas::place_more, crate::proofs::PlaceLemmas::place_past, crate::proofs::PlaceLemmas::place_never))]
pub fn place_of(records: &[Record], number: u32) -> Option<usize>
    requires { AreRising 0 records.now }
    ensures { IsPlaceWith records.now number result }
{
    // Numbers rise from 1 on, so no record past this place has the number.
    let end = records.len().min(number as usize);
    for back in 0..end {
        let place = end - 1 - back;
        let pid = records[place].pid();
        if pid == number {
            return Some(place);
        }
        if pid < number {
            return None;
        }
    }
    None
}
