//! What holds of the definitions, as functions that do nothing.

ghost use Rattle.build_constants.specs.Laws.{BrokenListed, CircleUnsettled, ListedBroken, ListedNamed, NamedListed, SettledOnce, TypedByNames, UnvaluedNoted};

/// The kind and the term of an expression rest on what signals and the names within it stand for.
pub fn typed_by_names()
    ensures { TypedByNames }
{}

/// All tables of what the synonyms come to agree on each that settles.
pub fn settled_once()
    ensures { SettledOnce }
{}

/// The synonyms that are listed for an expression are those that a name within it stands for.
pub fn listed_is_named()
    ensures { ListedNamed }
{}

/// And all of them are listed.
pub fn named_is_listed()
    ensures { NamedListed }
{}

/// A synonym that is defined by itself doesn't settle, nor does one that leads to it.
pub fn circle_is_unsettled()
    ensures { CircleUnsettled }
{}

/// Each fault of the synonyms is a rule that is broken in a definition.
pub fn listed_is_broken()
    ensures { ListedBroken }
{}

/// Each rule that is broken in a definition is among the faults of the synonyms.
pub fn broken_is_listed()
    ensures { BrokenListed }
{}

/// One that names a synonym that doesn't settle is `BadCount` at its first token, unless it breaks another rule or
/// rests on a refused synonym.
pub fn unvalued_is_noted()
    ensures { UnvaluedNoted }
{}
