//! Faults of a later part of the text, noted apart.

ghost use Rattle.std.specs.Prelude.{◌≡◌};
ghost use Rattle.build_statements.specs.Later.{with_later};
ghost use Rattle.build_names.specs.Faults.{Notes};

use build_names::Faults;

/// Notes the faults of a later part behind those of the parts before it.
pub fn note_later<'t>(later: &Faults<'t>, faults: &mut Faults<'t>)
    ensures { faults.new ≡ with_later faults.old later.now }
{
    if let Some(fault) = later.first() {
        faults.note(fault.rule, fault.token);
    }
}
