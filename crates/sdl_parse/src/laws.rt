//! What holds of texts and their trees: laws, as functions that do nothing.

ghost use Rattle.sdl_parse.specs.Parser.{AlikeSpell, OneTree};

use sdl_lex::one_list;

/// A text has one tree, places and spellings included.
pub fn one_tree()
    ensures { OneTree }
{
    one_list();
}

/// Words that differ in places and spellings alone from words that spell a tree spell one that differs in these alone.
pub fn alike_spell()
    ensures { AlikeSpell }
{}
