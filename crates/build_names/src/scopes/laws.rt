//! What holds of the definitions, as functions that do nothing.

ghost use Rattle.build_names.specs.Names.{InnerBeforeOuter};

/// A name stands for what it does in the inner scope, if it has it, and else for what it does in the outer one.
pub fn inner_before_outer<T>()
    ensures { InnerBeforeOuter T }
{}
