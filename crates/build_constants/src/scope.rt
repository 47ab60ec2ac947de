//! What names stand for at a place.

ghost use Rattle.std.specs.Prelude.{◌≡◌};
ghost use Rattle.build_constants.specs.Scopes.{scope_at};
ghost use Rattle.build_expressions.specs.Scope.{scope_of};

use build_definitions::SymbolTable;
use build_expressions::{Constant, Scope};
use build_names::ScopePath;

/// Gives the names that are seen in the scopes of this path, with these constants of the synonyms.
pub fn scope_at<'a, 's, 't>(
    symbols: &'a SymbolTable<'s, 't>,
    constants: &'a [Constant],
    path: ScopePath,
) -> Scope<'a, 's, 't>
    ensures { scope_of result ≡ scope_at symbols.now constants.now path }
{
    Scope {
        values: symbols.values.outward(path),
        constants,
        signals: symbols.signals.outward(path),
        agents: symbols.agents.outward(path),
    }
}
