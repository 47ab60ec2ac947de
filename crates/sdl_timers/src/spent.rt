//! Who knows which fuses have no effect any more.

ghost use Rattle.std.specs.Prelude.{◌≡◌};

use port_model::Fuse;

/// Fuses by which no timer runs any more: the timer was reset, set again or stopped. Their expiry changes nothing.
pub trait SpentFuses {
    ghost use Rattle.std.specs.Prelude.{Bool};
    ghost use Rattle.port_model.specs.declared.inbox.entry.Fuse.{Fuse};

    /// Whether a fuse is one of them.
    ghost spent: { Self → Fuse → Bool };

    /// Whether this fuse is one of them.
    fn is_spent(&self, fuse: &Fuse) -> bool
        ensures { result ≡ spent self.now fuse.now };
}
