//! What a look through a port is for.
ghost use Rattle.std.specs.Prelude.{◌≡◌};
ghost use Rattle.port_model.specs.Wanted.{is_wanted};

use crate::selection::Class;

/// Which entries a look through a port is for.
#[derive(Clone, Copy)]
pub enum Wanted {
    /// Those of a priority input.
    Priority,
    /// Those that aren't saved.
    Unsaved,
}

impl Wanted {
    /// Whether an entry of this class is wanted.
    pub fn takes(self, class: Class) -> bool
        ensures { result ≡ is_wanted self class }
    {
        match self {
            Wanted::Priority => matches!(class, Class::Priority),
            Wanted::Unsaved => !matches!(class, Class::Saved),
        }
    }
}
