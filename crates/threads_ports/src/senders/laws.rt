//! What keeps the facts of senders, and where they lead, as functions that do nothing.

ghost use Rattle.threads_ports.specs.SenderLaws.{NobodyPuts, OthersPutNothing, OthersRecordNothing, SendersFillRows};

/// Without senders nothing was put, whatever an instance or the environment sends.
pub fn nobody_puts()
    ensures { NobodyPuts }
{}

/// If more is sent and nothing of it is put, the puts are still the last of what is sent: it goes only to ports into
/// which nothing was put so far. The same is true of an instance, which records it.
pub fn others_put_nothing()
    ensures sent { OthersPutNothing }
    ensures recorded { OthersRecordNothing }
{}

/// Once a port knows all that a sender had seen, as after it has gathered it, the row of the sender holds, by which
/// `crate::senders` counts what was drawn.
pub fn senders_fill_rows()
    ensures { SendersFillRows }
{}
