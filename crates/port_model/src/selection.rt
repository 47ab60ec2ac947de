//! What a state does with each name.
ghost use Rattle.std.specs.Prelude.{◌≡◌, ◌↔◌, IsTrue, Contains};
ghost use Rattle.port_model.specs.Selection.{class_of};

use crate::values::SignalId;
use std::marker::Model;

/// The way in which a state treats a signal or a timer of one name.
#[derive(Clone, Copy, PartialEq, Eq)]
pub enum Class {
    /// Named by a priority input.
    Priority,
    /// Named by an input.
    Input,
    /// Named by a save.
    Saved,
    /// Named by none of these: it is consumed without effect.
    Discard,
}

/// The class of each name in one state. The class of a name stands at its number; a name past the end is `Discard`.
#[derive(Drop)]
pub struct Selection {
    classes: Vec<Class>,
    has_priority: bool,
}

impl Model for Selection {
    ghost use Rattle.std.specs.Prelude.{◌↔◌, IsTrue, Contains};
    ghost use Rattle.port_model.specs.Class.{ClassList};
    ghost use Rattle.port_model.specs.declared.selection.Class.TheVariants.{Priority};

    ghost Value = { ClassList };

    ghost view = { λ selection. selection.classes.items };

    ghost invariant = { λ selection. IsTrue selection.has_priority ↔ Contains selection.classes.items Priority };
}

impl Selection {
    /// The selection with these classes. Takes no memory. It takes the list, so that nobody changes it later: it keeps with
    /// it whether one of its classes is `Priority`.
    pub fn new(classes: Vec<Class>) -> Self
        ensures { result ≡ classes.items }
    {
        let has_priority = classes.contains(&Class::Priority);
        Selection {
            classes,
            has_priority,
        }
    }

    /// The class of a name.
    pub fn class_of(&self, name: SignalId) -> Class
        ensures { result ≡ class_of self.now name }
    {
        self.classes
            .get(name.0 as usize)
            .copied()
            .unwrap_or(Class::Discard)
    }

    /// Whether some name has the class `Priority`. It is known since the selection was made.
    pub fn has_priority(&self) -> bool
        ensures { IsTrue result ↔ Contains self.now Class.Priority }
    {
        self.has_priority
    }
}
