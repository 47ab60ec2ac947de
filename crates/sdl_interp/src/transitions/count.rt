//! How many statements a transition has.

ghost use Rattle.std.specs.Prelude.{◌≡◌, IfErr, IfOk, OnErr, OnOk};
ghost use Rattle.run_semantics.specs.Fails.{IsTooLong};
ghost use Rattle.run_semantics.specs.Leads.{Counts};

use crate::transitions::machine::Machine;
use run_record::Failure;

/// The statements that a transition may have.
const MOST_STATEMENTS: u32 = 10_000;

/// Counts a statement before it is done. Refused with `TooLong` after 10,000.
pub fn count(machine: &mut Machine) -> Result<(), Failure>
    ensures trace { machine.new.trace ≡ machine.old.trace }
    ensures counts { OnOk result (Counts machine.old.store machine.new.store) }
    ensures err { IfErr result (IsTooLong machine.old.store) }
    ensures same { OnErr result (machine.new ≡ machine.old) }
{
    machine.store.done = with_one_more(machine)?;
    Ok(())
}

/// How many statements there are with one more. Refused with `TooLong` after 10,000.
pub fn with_one_more(machine: &Machine) -> Result<u32, Failure>
    ensures ok { let s = machine.now.store in IfOk result (λ done. Counts s (record s { done = done })) }
    ensures err { IfErr result (IsTooLong machine.now.store) }
{
    if machine.store.done >= MOST_STATEMENTS {
        return Err(Failure::TooLong);
    }
    Ok(machine.store.done + 1)
}
