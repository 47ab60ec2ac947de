//! What terms come to.

ghost use Rattle.laws_sound_runs.specs.TermLaws.{StaysWhatItIs, ValuesHaveKinds};

/// Where variables have values of their sorts, what a term of a kind comes to is a value of that kind (Z.104).
pub fn values_have_kinds()
    ensures { ValuesHaveKinds }
{}

/// At a place that the kind fits, a value stays what it is, but for the sort of a number.
pub fn stays_what_it_is()
    ensures { StaysWhatItIs }
{}
