//! The canonical text of a tree.

ghost use Rattle.std.specs.Prelude.{◌≡◌, ℕ, List, [], string_bytes, IfErr, IfOk, OnOk};
ghost use Rattle.sdl_parse.specs.Parser.{Refuses};
ghost use Rattle.sdl_tree.specs.Canonical.{canonical, canonical_text};
ghost use Rattle.sdl_tree.specs.Erased.{erased};
ghost use Rattle.sdl_tree.specs.Views.{tree_value};
ghost use Rattle.sdl_print.specs.RoundTrip.{IsCanonicalOf, IsWantOfRoom};
ghost use Rattle.sdl_print.specs.Wrote.{followed_by};

use crate::canonical::{Canonical, repeated};
use crate::laws::reads_again;
use crate::text::Text;
use sdl_parse::{ParseError, parse};
use sdl_tree::{Mark, Tree};
use std::alloc::{AllocError, Global};

/// The canonical text of the tree: its words with one blank between two, and a line end instead of it after each `;`.
/// Keywords and literals are in lower case, the sort `PId` is `Pid`, numbers are decimal without leading zeros, and
/// no comments stand. The names after `endsystem`, `endblock`, `endprocess` and `endchannel` stand; `endstate` and
/// `endconnection` stand without a name. Fails only where memory is refused.
#[tactic(auto, unfolding(crate::specs::Wrote::followed_by))]
pub fn print(alloc: Global, tree: &Tree) -> Result<String, AllocError>
    ensures { IfOk result (λ text. string_bytes text ≡ canonical_text (tree_value tree.now)) }
{
    let mut text = Text::new(alloc);
    system(&mut text, tree)?;
    Ok(text.into_string())
}

/// The canonical text of the tree that a text spells. Fails as `parse` does, and where memory is refused as it is
/// written. A canonical text comes back as it is, unless there is no room for it.
pub fn canonicalize(alloc: Global, text: &[u8]) -> Result<String, ParseError>
    ensures written { IfOk result (λ again. IsCanonicalOf (string_bytes again) text.now) }
    ensures refused { IfErr result (λ e. Refuses e text.now) }
    ensures settled { (source : List ℕ) → IsCanonicalOf text.now source
        → IfOk result (λ again. string_bytes again ≡ text.now) }
    ensures readable { (source : List ℕ) → IsCanonicalOf text.now source → IfErr result IsWantOfRoom }
{
    reads_again();
    let tree = parse(alloc, text)?;
    match print(alloc, &tree) {
        Ok(again) => Ok(again),
        Err(_) => Err(ParseError::Memory),
    }
}

/// The words of the tree, with none behind them.
fn system(text: &mut Text, tree: &Tree) -> Result<(), AllocError>
    ensures { OnOk result (followed_by text.new []
        ≡ followed_by text.old (canonical (erased (tree_value tree.now)))) }
{
    text.mark(Mark::System)?;
    tree.name.write(text)?;
    text.mark(Mark::Semicolon)?;
    repeated(text, &tree.definitions)?;
    text.mark(Mark::EndSystem)?;
    tree.name.write(text)?;
    text.mark(Mark::Semicolon)
}
