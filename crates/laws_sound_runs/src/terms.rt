//! What expressions resolve to.

ghost use Rattle.laws_sound_runs.specs.TermLaws.{FittingTermsAreSound, KindedTermsAreSound, ListedTermsFit, PlacedTermsFit, TermsHaveKinds};

/// The term of an expression is of the kind that the expression has (Z.104: expressions).
pub fn terms_have_kinds()
    ensures { TermsHaveKinds }
{}

/// At a place of a sort it is of a kind that fits the place.
pub fn placed_terms_fit()
    ensures { PlacedTermsFit }
{}

/// Values behind a name are as many as its places, and each fits its place.
pub fn listed_terms_fit()
    ensures { ListedTermsFit }
{}

/// A term of a kind names variables and timers that are there, with as many values as they take.
pub fn kinded_terms_are_sound()
    ensures { KindedTermsAreSound }
{}

/// So do terms that fit places, and they are as many as the places.
pub fn fitting_terms_are_sound()
    ensures { FittingTermsAreSound }
{}
