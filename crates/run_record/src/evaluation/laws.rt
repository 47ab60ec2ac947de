//! What holds of the definitions, as functions that do nothing.

ghost use Rattle.run_record.specs.Laws.{FailsByItself, FailsLeftFirst, FailsRight, HasSortOfPlace, ListsFailByThemselves, ListsReadWhatIsKnown, ReadsWhatIsKnown};

use sdl_system::laws::takes_sort;

/// An expression fails for a cause of its own, never for lack of memory, the length of a transition, or a set.
pub fn fails_by_itself()
    ensures { FailsByItself }
{}

/// So do several.
pub fn lists_fail_by_themselves()
    ensures { ListsFailByThemselves }
{}

/// The value of an expression at a place has the sort of the place.
pub fn has_sort_of_place()
    ensures { HasSortOfPlace }
{
    takes_sort();
}

/// Where the left operand fails, its failure is that of the operation.
pub fn fails_left_first()
    ensures { FailsLeftFirst }
{}

/// Where only the right operand fails, its failure is that of the operation, whatever the left one is.
pub fn fails_right()
    ensures { FailsRight }
{}

/// An expression comes to the same where the same is known and the same timers are active.
pub fn reads_what_is_known()
    ensures { ReadsWhatIsKnown }
{}

/// So do several.
pub fn lists_read_what_is_known()
    ensures { ListsReadWhatIsKnown }
{}
