//! What is written as words, and lists of it.

ghost use Rattle.std.specs.Prelude.{OnOk};
ghost use Rattle.sdl_tree.specs.Canonical as spec;
ghost use Rattle.sdl_print.specs.Form.{Form, node, nodes, some_node};
ghost use Rattle.sdl_print.specs.Wrote.{Wrote, after_comma, before, behind};

use crate::text::Text;
use sdl_tree::Mark;
use std::alloc::AllocError;

/// A node of the tree that a production of the grammar spells. Nodes that hold nodes of their own kind are written by
/// functions of one cycle, which the node's `write` calls.
pub trait Canonical {
    /// As what the nodes are written.
    ghost form: { Form Self };

    /// Writes the node.
    fn write(&self, text: &mut Text) -> Result<(), AllocError>
        ensures { OnOk result (Wrote text.old text.new (form.words (node form self.now))) };
}

/// `{x}`
pub fn repeated<T: Canonical>(text: &mut Text, items: &[T]) -> Result<(), AllocError>
    ensures { OnOk result (Wrote text.old text.new
        (spec.repeated T.form.words (nodes T.form items.now))) }
{
    for item in items {
        item.write(text)?;
    }
    Ok(())
}

/// Each item with a comma before it.
fn after_commas<T: Canonical>(text: &mut Text, items: &[T]) -> Result<(), AllocError>
    ensures { OnOk result (Wrote text.old text.new
        (spec.repeated (after_comma T.form.words) (nodes T.form items.now))) }
{
    for item in items {
        text.mark(Mark::Comma)?;
        item.write(text)?;
    }
    Ok(())
}

/// `x {"," x}`
pub fn separated<T: Canonical>(text: &mut Text, items: &[T]) -> Result<(), AllocError>
    ensures { OnOk result (Wrote text.old text.new
        (spec.separated T.form.words (nodes T.form items.now))) }
{
    match items {
        [] => Ok(()),
        [first, rest @ ..] => {
            first.write(text)?;
            after_commas(text, rest)
        }
    }
}

/// `["(" x {"," x} ")"]`: nothing where there are no items.
#[tactic(auto, using(crate::proofs::ListLemmas::parenthesized))]
pub fn in_parentheses<T: Canonical>(text: &mut Text, items: &[T]) -> Result<(), AllocError>
    ensures { OnOk result (Wrote text.old text.new
        (spec.in_parentheses T.form.words (nodes T.form items.now))) }
{
    match items {
        [] => Ok(()),
        [_, ..] => {
            text.mark(Mark::Open)?;
            separated(text, items)?;
            text.mark(Mark::Close)?;
            Ok(())
        }
    }
}

/// `[x]`
pub fn optional<T: Canonical>(text: &mut Text, item: &Option<T>) -> Result<(), AllocError>
    ensures { OnOk result (Wrote text.old text.new
        (spec.optional T.form.words (some_node T.form item.now))) }
{
    match item {
        None => Ok(()),
        Some(item) => item.write(text),
    }
}

/// `[x MARK]`
pub fn optional_before<T: Canonical>(
    text: &mut Text,
    item: &Option<T>,
    mark: Mark,
) -> Result<(), AllocError>
    ensures { OnOk result (Wrote text.old text.new
        (spec.optional (before T.form.words mark) (some_node T.form item.now))) }
{
    match item {
        None => Ok(()),
        Some(item) => {
            item.write(text)?;
            text.mark(mark)
        }
    }
}

/// `[MARK x]`
pub fn optional_behind<T: Canonical>(
    text: &mut Text,
    mark: Mark,
    item: &Option<T>,
) -> Result<(), AllocError>
    ensures { OnOk result (Wrote text.old text.new
        (spec.optional (behind mark T.form.words) (some_node T.form item.now))) }
{
    match item {
        None => Ok(()),
        Some(item) => {
            text.mark(mark)?;
            item.write(text)
        }
    }
}
