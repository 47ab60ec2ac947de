//! What holds of the canonical text: laws, as functions that do nothing.

ghost use Rattle.sdl_print.specs.Laws.{CanonicalLexes, CanonicalSpellsAgain, ReadsAgain};

use sdl_lex::{one_fault, one_list};
use sdl_parse::{alike_spell, one_tree};

/// Where a text spells a tree, the canonical text of the tree has tokens, and their words are the canonical words but
/// for places and spellings.
pub fn canonical_lexes()
    ensures { CanonicalLexes }
{}

/// Where a text spells a tree, the words of the tree's canonical text spell it again, but for places and spellings.
pub fn canonical_spells_again()
    ensures { CanonicalSpellsAgain }
{
    alike_spell();
}

/// Where a text spells a tree, the canonical text of the tree spells no other, but for places and spellings, and the
/// text of what it spells is this text again; the parser refuses it for lack of memory, or because it is longer than a
/// text may be, and for nothing else.
pub fn reads_again()
    ensures { ReadsAgain }
{
    one_list();
    one_fault();
    one_tree();
    alike_spell();
}
