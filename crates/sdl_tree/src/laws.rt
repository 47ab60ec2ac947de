//! What holds of the definitions: laws and examples, as functions that do nothing.

ghost use Rattle.sdl_tree.specs.Examples.{BlockSpelled, IsOneChain, NegatesTheFirst, NotInAnother, PlacesKept, ProcessSpelled, StateSpelled, SystemSpelled, SystemWritten, TransitionSpelled};
ghost use Rattle.sdl_tree.specs.Laws.{CanonicalSpells, ErasedOnce, NoConditionOnPriority, SignsAreFixed, TextsAreFixed, WordsAreSpelled};

/// The canonical words of a tree that some words spell spell it too, but for places and spellings.
pub fn canonical_spells()
    ensures { CanonicalSpells }
{}

/// A tree that is erased twice is as one that is erased once.
pub fn erased_once()
    ensures { ErasedOnce }
{}

/// A token of the kind `Mark` means a mark, and never a name.
pub fn signs_are_fixed()
    ensures { SignsAreFixed }
{}

/// The text of a mark means the mark.
pub fn texts_are_fixed()
    ensures { TextsAreFixed }
{}

/// A word is spelled as its token is, in whatever case, and stands where it does.
pub fn words_are_spelled()
    ensures { WordsAreSpelled }
{}

/// No `provided` stands right behind the end of a priority input.
pub fn no_condition_on_priority()
    ensures { NoConditionOnPriority }
{}

/// A system with a comment and names after its ends, in both spellings of keywords, and its canonical text.
pub fn spells_a_system()
    ensures spelled { SystemSpelled }
    ensures written { SystemWritten }
{}

/// A system with a block on its second line, with the place of each word that the tree keeps.
pub fn keeps_places()
    ensures { PlacesKept }
{}

/// A block, a process, a state and a transition with each form of what they can hold.
pub fn spells_each_form()
    ensures block { BlockSpelled }
    ensures process { ProcessSpelled }
    ensures state { StateSpelled }
    ensures transition { TransitionSpelled }
{}

/// Operators of one looseness stand in one chain, and `not` belongs to the primary behind it.
pub fn groups_operators()
    ensures one_chain { IsOneChain }
    ensures not_nested { NotInAnother }
    ensures negated { NegatesTheFirst }
{}
