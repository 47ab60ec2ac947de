//! Where an input comes from.

/// The readers of an input.
#[derive(Drop)]
pub struct Source<R, S> {
    /// The reader of the specification, after which a script may follow.
    pub text: R,
    /// The reader of a script of its own, which takes the place of the one that follows the specification.
    pub script: Option<S>,
}
