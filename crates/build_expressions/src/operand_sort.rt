//! The sorts of operands: what decides which operations an expression fits.

use sdl_system::Sort;

/// The sort of an operand, its kind for short: a Natural is an Integer. An expression of numbers and operators alone is
/// free: it fits Integer, Time and Duration.
#[derive(Clone, Copy, PartialEq, Eq)]
pub enum OperandSort {
    Free,
    Integer,
    Time,
    Duration,
    Boolean,
    Pid,
}

impl OperandSort {
    ghost use Rattle.std.specs.Prelude.{◌≡◌};
    ghost use Rattle.build_expressions.specs.OperandSorts.{fits, fits_kind, kind_of};

    /// The operand sort of a variable, a parameter or a synonym of this sort.
    pub fn of_sort(sort: Sort) -> OperandSort
        ensures { result ≡ kind_of sort }
    {
        match sort {
            Sort::Boolean => OperandSort::Boolean,
            Sort::Integer | Sort::Natural => OperandSort::Integer,
            Sort::Pid => OperandSort::Pid,
            Sort::Time => OperandSort::Time,
            Sort::Duration => OperandSort::Duration,
        }
    }

    /// Whether an operand of this sort fits a variable or a parameter of the sort.
    pub fn fits(self, sort: Sort) -> bool
        ensures { result ≡ fits self sort }
    {
        let place = OperandSort::of_sort(sort);
        match self {
            OperandSort::Free => place.is_number(),
            _ => self == place,
        }
    }

    /// Whether it is a sort of numbers that is settled.
    fn is_number(self) -> bool
        ensures { result ≡ fits_kind OperandSort.Free self }
    {
        matches!(
            self,
            OperandSort::Integer | OperandSort::Time | OperandSort::Duration
        )
    }
}
