//! What holds of the definitions, as functions that do nothing.

ghost use Rattle.build_process.specs.Numbered.{DeclaredDiffer};
ghost use Rattle.build_process.specs.Order.{PartsInOrder, StimuliInOrder};
ghost use Rattle.build_process.specs.Sound.{BodiesClosed};

/// The bodies of a process whose transitions end and whose labels are numbered are closed.
pub fn bodies_closed()
    ensures { BodiesClosed }
{}

/// The bodies of a process stand in the order in which `build_states::stimuli` numbers its transitions.
pub fn bodies_in_order()
    ensures parts { PartsInOrder }
    ensures stimuli { StimuliInOrder }
{}

/// Where labels are declared one after the other and no Duplicate is noted, no two of them have one name.
pub fn declared_labels_differ()
    ensures { DeclaredDiffer }
{}
