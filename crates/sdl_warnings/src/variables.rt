//! Variables that nobody uses, and variables that nobody gives a first value.

ghost use Rattle.std.specs.Prelude.{◌≡◌, ◌++◌, ◌||◌, IfOk, List, OnOk, map, not, ℕ};
ghost use Rattle.sdl_warnings.specs.Heads.{head_value, inner, nowhere};
ghost use Rattle.sdl_warnings.specs.Missing.{missing, unused_variables};
ghost use Rattle.sdl_warnings.specs.Processes.{of_variables};
ghost use Rattle.sdl_warnings.specs.Sets.{among, has};
ghost use Rattle.sdl_warnings.specs.Unset.{unset};
ghost use Rattle.sdl_warnings.specs.declared.suspicion.Suspicion.TheVariants as kind;

use crate::assigned::assigned;
use crate::heads::{Head, heads, inner};
use crate::missing::add_missing;
use crate::name_set::NameSet;
use crate::suspicion::{Suspicion, Warning};
use crate::uninitialized::uninitialized;
use crate::unused::repeated;
use parse_expressions::PlacedWord;
use sdl_tree::Mark;
use std::alloc::{AllocError, Global};

/// Adds what is suspicious in the variables of the process with these words.
pub fn add_variables(
    alloc: Global,
    found: &mut Vec<Warning>,
    words: &[PlacedWord<'_>],
) -> Result<(), AllocError>
    ensures { OnOk result (found.new.items ≡ found.old.items ++ of_variables words.now) }
{
    add_unused_variables(alloc, found, words)?;
    add_unset(alloc, found, words)
}

/// Adds the variables that are nowhere else in the process with these words.
fn add_unused_variables(
    alloc: Global,
    found: &mut Vec<Warning>,
    words: &[PlacedWord<'_>],
) -> Result<(), AllocError>
    ensures { OnOk result (found.new.items ≡ found.old.items ++ unused_variables words.now) }
{
    let variables = heads(alloc, words, Mark::Dcl)?;
    let again = repeated(alloc, words)?;
    add_missing(found, Suspicion::UnusedVariable, &variables, &again)
}

/// Adds the variables without an initial value that are used, and that no input and no task gives a first value.
fn add_unset(
    alloc: Global,
    found: &mut Vec<Warning>,
    words: &[PlacedWord<'_>],
) -> Result<(), AllocError>
    ensures { OnOk result (found.new.items ≡ found.old.items ++ unset words.now) }
{
    let variables = uninitialized(alloc, words)?;
    let fresh = assigned(alloc, words)?;
    let inputs = inner(alloc, words, Mark::Input)?;
    let again = repeated(alloc, words)?;
    let assigned = NameSet::of(alloc, &fresh)?;
    let received = NameSet::of(alloc, &inputs)?;
    let given = Given {
        again,
        assigned,
        received,
    };
    given.add_unset(found, &variables)
}

/// The names that are used, and those that get a value.
#[derive(Drop)]
struct Given<'t> {
    again: NameSet<'t>,
    assigned: NameSet<'t>,
    received: NameSet<'t>,
}

impl Given<'_> {
    fn add_unset(&self, found: &mut Vec<Warning>, variables: &[Head<'_>]) -> Result<(), AllocError>
        ensures { OnOk result (found.new.items ≡ found.old.items
            ++ missing kind.UnsetVariable
            (λ text. not (has self.now.again text) || (has self.now.assigned text || has self.now.received text))
            (map head_value variables.now)) }
    {
        for head in variables {
            if !self.settles(head.name) {
                found.push(Warning {
                    suspicion: Suspicion::UnsetVariable,
                    place: head.place,
                })?;
            }
        }
        Ok(())
    }

    /// Whether a name isn't used, or gets a value.
    fn settles(&self, name: &str) -> bool
        ensures { result ≡ (not (has self.now.again name.now)
            || (has self.now.assigned name.now || has self.now.received name.now)) }
    {
        !self.again.has(name) || self.assigned.has(name) || self.received.has(name)
    }
}
