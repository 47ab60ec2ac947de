//! Which paths of channels in blocks a connect names.

ghost use Rattle.std.specs.Prelude.{◌≡◌, ◌↔◌, IfOk, IsTrue};
ghost use Rattle.build_routes.specs.Each.{ForSome};
ghost use Rattle.build_routes.specs.Reached.{AreFlags};

use crate::network::{Connect, Network, PathId, counted};
use std::alloc::{AllocError, Global};

/// For each path whether a connect names it among those in its block. The cost is that of the names in all connects for
/// each path.
pub(crate) fn named_flags(alloc: Global, network: &Network) -> Result<Vec<bool>, AllocError>
    ensures { IfOk result (λ flags. AreFlags network.now flags.items) }
{
    let mut flags = Vec::new(alloc);
    for number in 0..network.paths.len() {
        let is_named = is_named(&network.connects, counted(number)?);
        flags.push(is_named)?;
    }
    Ok(flags)
}

fn is_named(connects: &[Connect], number: u32) -> bool
    ensures { IsTrue result ↔ ForSome connects.now
        (λ k connect. ForSome connect.inner.items (λ j path. path.0 ≡ number)) }
{
    for connect in connects {
        if is_among(&connect.inner, number) {
            return true;
        }
    }
    false
}

fn is_among(ids: &[PathId], number: u32) -> bool
    ensures { IsTrue result ↔ ForSome ids.now (λ j path. path.0 ≡ number) }
{
    for id in ids {
        if id.0 == number {
            return true;
        }
    }
    false
}
