//! The states of a process by their names.

use build_names::Names;
use sdl_system::StateId;
use sdl_tree::Name;

/// The states of a process by their names.
#[derive(Clone, Copy)]
pub struct NamedStates<'a, 't> {
    /// The different names in the state lists, in the order of the text.
    pub names: &'a [&'t Name],
    /// The same names.
    pub table: &'a Names<'t, StateId>,
}
