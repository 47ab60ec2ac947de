//! What a state selects (Z.101: input, save; Z.102: priority input, enabling condition).

ghost use Rattle.std.specs.Prelude.{◌≡◌, ◌<◌, IfErr, IfOk, length, slice_set};
ghost use Rattle.port_model.specs.Selection as selection;
ghost use Rattle.port_model.specs.declared.values.item.SignalId.{SignalId};
ghost use Rattle.sdl_interp.specs.Selected.{AreShut, SelectsBy, SelectsNone};
ghost use Rattle.sdl_system.specs.Soundness.{IsEnabled};

use crate::condition::truths;
use port_model::{Class, Inbox, Selection, SignalId};
use run_record::{Failure, Knowledge};
use sdl_system::{Enabled, Process, StateTable};
use std::alloc::Global;

/// Makes the selection of a state with this table, by its enabling conditions. Errors: those of the first one that
/// fails, and `Memory`.
pub fn select<P: Inbox>(
    alloc: Global,
    table: &StateTable,
    process: &Process,
    knowledge: &Knowledge<'_, P>,
) -> Result<Selection, Failure>
    ensures ok { IfOk result (SelectsBy process.now table.now knowledge.now) }
    ensures err { IfErr result (SelectsNone process.now table.now knowledge.now) }
{
    let truths = truths(alloc, &table.conditions, process, knowledge)?;
    let Ok(count) = u32::try_from(knowledge.system().signals().len()) else {
        return Err(Failure::Memory);
    };
    let classes = classes(alloc, table, process, &truths, count)?;
    Ok(Selection::new(classes))
}

/// The classes of the signals of a system, of which there are so many, where the conditions have these truths.
fn classes(
    alloc: Global,
    table: &StateTable,
    process: &Process,
    truths: &[bool],
    count: u32,
) -> Result<Vec<Class>, Failure>
    ensures ok { IfOk result (λ made. AreShut process.now table.now truths.now count made.items) }
    ensures err { IfErr result (λ why. why ≡ Failure.Memory) }
{
    let mut classes = Vec::new(alloc);
    for number in 0..count {
        let class = table.selection.class_of(SignalId(number));
        if let Err(_) = classes.push(class) {
            return Err(Failure::Memory);
        }
    }
    for (enabling, truth) in table.conditions.iter().zip(truths) {
        if !*truth {
            shut(&mut classes, count, process, table, &enabling.signals);
        }
    }
    Ok(classes)
}

/// Signals wait whose condition is false.
fn shut(
    classes: &mut Vec<Class>,
    count: u32,
    process: &Process,
    table: &StateTable,
    signals: &Enabled,
)
    requires { length classes.old.items ≡ count }
    ensures length { length classes.new.items ≡ length classes.old.items }
    ensures saved { (signal : SignalId) → signal.0 < length classes.old.items
        → IsEnabled process.now table.now signals.now signal
        → selection.class_of classes.new.items signal ≡ Class.Saved }
    ensures kept { (signal : SignalId) → (IsEnabled process.now table.now signals.now signal → ⊥)
        → selection.class_of classes.new.items signal ≡ selection.class_of classes.old.items signal }
{
    match signals {
        Enabled::Named(list) => {
            for signal in list {
                save(classes, *signal);
            }
        }
        Enabled::Rest => {
            for number in 0..count {
                let signal = SignalId(number);
                if process.valid.contains(signal) && table.reactions.get(signal).is_none() {
                    save(classes, signal);
                }
            }
        }
    }
}

fn save(classes: &mut Vec<Class>, signal: SignalId)
    ensures { classes.new.items ≡ slice_set classes.old.items signal.0 Class.Saved }
{
    if let Some(class) = classes.get_mut(signal.0 as usize) {
        *class = Class::Saved;
    }
}
